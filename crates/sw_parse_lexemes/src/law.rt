// What the grammar sees of the tokens of a text.
ghost use Rattle.std.specs.Prelude.{ℕ, List};
ghost use Rattle.sw_tokens.specs.declared.token.Token.{Token};
ghost use Rattle.sw_parse_lexemes.specs.Laws.{SignsAreByNeighbours, StatementsAreByColon, WordsAreByNeighbours};
ghost use Rattle.sw_parse_lexemes.specs.Around.{TextIsByWhatIsAround};
ghost use Rattle.sw_parse_lexemes.specs.Turns.{SeenInTurn};

/// A law: the grammar sees each token once, and in their order, but for comments that are white space: what is left out
/// begins a comment, or stands directly behind a token that is left out.
pub fn tokens_are_seen_in_turn()
    ensures { (bytes : List ℕ) (tokens : List Token) → SeenInTurn bytes tokens }
{}

/// A law: where it isn't text, a `+`, `-` or `/` is a number's sign, a part of a word, an operator between two operands
/// or one before an operand, by the terminal before it, white space before it and the token directly behind it, as
/// docs/LANGUAGE.md says ("Signs").
pub fn signs_are_told_by_their_neighbours()
    ensures { (bytes : List ℕ) (tokens : List Token) → SignsAreByNeighbours bytes tokens }
{}

/// A law: the first token of a statement that begins with a name, which is no namespace's and no custom property's, is
/// read as text exactly where the statement declares nothing, by the `:` behind its word, what stands directly behind
/// that and whether a block begins, as docs/LANGUAGE.md says ("Which statement").
pub fn statements_are_told_by_their_colon()
    ensures { (bytes : List ℕ) (tokens : List Token) → StatementsAreByColon bytes tokens }
{}

/// A law: a name is read as a part of a word, a variable's, a namespace's or a special function's by what stands directly
/// before it and directly behind it; a `.` and a `(` by whether such a name stands directly before, as docs/LANGUAGE.md
/// says ("The grammar").
pub fn words_are_told_by_their_neighbours()
    ensures { (bytes : List ℕ) (tokens : List Token) → WordsAreByNeighbours bytes tokens }
{}

/// A law: a sign is text by what is open around it and by how its statement is read, as docs/LANGUAGE.md says ("Raw text",
/// "Special text"): in the parentheses of a text it is, in all other brackets of values and in `#{}` it isn't, in the other
/// brackets of a text it is as around them, and outside brackets as the form of its statement says, in a custom property
/// behind the `:`. A `$` that isn't text begins a name with a value exactly where a `:` stands behind the name.
pub fn text_is_told_by_what_is_around()
    ensures { (bytes : List ℕ) (tokens : List Token) → TextIsByWhatIsAround bytes tokens }
{}
