// What is written of a value is its tokens.
ghost use Rattle.sw_convert_tokens.specs.Numbers.{NumbersAreWritten};
ghost use Rattle.sw_convert_tokens.specs.Variables.{VariablesAreWritten};
ghost use Rattle.sw_convert_tokens.specs.Words.{WordsAreWritten};

/// A law: what is written of a name that was read as a word by itself, and is neither a constant nor an operator, is its
/// token.
pub fn words_are_written()
    ensures { WordsAreWritten }
{}

/// A law: what is written of a variable that was read is its tokens, whatever `_` and `-` its name had.
pub fn variables_are_written()
    ensures { VariablesAreWritten }
{}

/// A law: what is written of a number that was read, with its unit and with a sign or without one, is its tokens.
pub fn numbers_are_written()
    ensures { NumbersAreWritten }
{}
