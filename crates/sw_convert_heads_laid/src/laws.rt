// The tokens of statements pass the test of lines.
ghost use Rattle.std.specs.Prelude.{List};
ghost use Rattle.sw_convert_heads_laid.specs.Lines.{FrontsPass, RulesPass};
ghost use Rattle.sw_convert_passing.specs.Written.{Written};
ghost use Rattle.sw_parse_lexemes.specs.declared.state.Mode.{Mode};

/// A law: the tokens of a statement up to its end or its block, whatever its form, pass the test of lines where lines can
/// hold them one by one; so do those of a rule, unless it begins with `=` or `+`.
pub fn statements_pass_as_lines()
    ensures fronts { (mode : Mode) (tokens : List Written) → FrontsPass mode tokens }
    ensures rules { (tokens : List Written) → RulesPass tokens }
{}
