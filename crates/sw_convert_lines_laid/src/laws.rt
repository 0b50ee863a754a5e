// What is written of statements up to their ends and blocks is lines.
ghost use Rattle.std.specs.Prelude.{Bool, List, ℕ};
ghost use Rattle.sw_convert_again.specs.Tokens.{Tok};
ghost use Rattle.sw_convert_lines_laid.specs.Fronts.{FrontsAreLines, RulesAreLines};
ghost use Rattle.sw_convert_lines_laid.specs.Held.{HeldTextsHold};
ghost use Rattle.sw_parse_lexemes.specs.declared.state.Mode.{Mode};

/// A law: what is written of a statement up to its end or its block is a line, where lines can hold its tokens one by one,
/// no escape is open at its end, and no `url(` stands in it but in a url without `#{}`; so is what is written of a rule,
/// unless it begins with `=` or `+`.
pub fn fronts_are_lines()
    ensures fronts { (mode : Mode) (else_first : Bool) (text : List ℕ) (tokens : List Tok)
        → FrontsAreLines mode else_first text tokens }
    ensures rules { (text : List ℕ) (tokens : List Tok) → RulesAreLines text tokens }
{}

/// A law: lines can hold the tokens of a text one by one where the writer of lines tells so of it, no white space stands
/// before the first of them, no end of a line before another outside strings, urls and `#{}`, and the last one ends no
/// comment.
pub fn held_texts_hold()
    ensures { HeldTextsHold }
{}
