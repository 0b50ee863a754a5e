// What is written is read again.
ghost use Rattle.std.specs.Prelude.{◌≡◌, List, ℕ, ℤ, Option};
ghost use Rattle.sw_convert_spelling.specs.Neighbours.{StandsAlone, StaysToken};
ghost use Rattle.sw_convert_spelling.specs.Numerals.{IsLetterUnit, IsNumeralToken, IsReadBack};
ghost use Rattle.sw_convert_spelling.specs.Spelt.{Spelt, HasThese};
ghost use Rattle.sw_convert_spelling.specs.Strings.{IsEndToken, IsInsertToken, IsStringToken, IsTemplateToken, IsTextToken, StandsFor};
ghost use Rattle.sw_tokens.specs.declared.pieces.Before.{Before};
ghost use Rattle.sw_tokens.specs.declared.skips.Inside.{Inside};

/// A law: a text of tokens, each of which is one where it stands, has these tokens.
pub fn tokens_are_as_spelt()
    ensures { (mark : List ℕ) (list : List Spelt) → HasThese mark list }
{}

/// A law: names, signs, strings and comments that are tokens before any text are the same tokens by themselves, and
/// before what may stand behind them.
pub fn tokens_stay_before_others()
    ensures alone { (inside : Inside) (before : Before) (spelt : Spelt) (after : List ℕ)
        → StandsAlone inside before spelt after }
    ensures stay { (inside : Inside) (before : Before) (spelt : Spelt) (after : List ℕ)
        → StaysToken inside before spelt after }
{}

/// A law: the number that is written of a value is read as it, whatever unit stands behind it.
pub fn numbers_are_read_back()
    ensures { (value : Option ℤ) (unit : List ℕ) → IsReadBack value unit }
{}

/// A law: the number that is written of a value that isn't below zero is one token with its unit, before what goes on
/// with neither; and a number with a unit of letters ends before what goes on with no unit and is no `+` or `-`.
pub fn numerals_are_tokens()
    ensures token { (value : ℕ) (unit : List ℕ) (inside : Inside) (before : Before) (after : List ℕ)
        → IsNumeralToken value unit inside before after }
    ensures letters { (unit after : List ℕ) → IsLetterUnit unit after }
{}

/// A law: what is written of a text between the quotes of a string stands for the text.
pub fn strings_are_read_back()
    ensures { (text : List ℕ) → StandsFor text }
{}

/// A law: a string is one token with its text, and so are the parts of a string with `#{}`, where they stand: the quote
/// that opens it, text, `#{`, and the quote that closes it.
pub fn strings_are_tokens()
    ensures whole { (text : List ℕ) (inside : Inside) (before : Before) (after : List ℕ)
        → IsStringToken text inside before after }
    ensures opens { (text : List ℕ) (inside : Inside) (before : Before) (after : List ℕ)
        → IsTemplateToken text inside before after }
    ensures text { (text : List ℕ) (before : Before) (after : List ℕ) → IsTextToken text before after }
    ensures insert { (before : Before) (after : List ℕ) → IsInsertToken before after }
    ensures end { (before : Before) (after : List ℕ) → IsEndToken before after }
{}
