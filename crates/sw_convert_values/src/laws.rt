// What is written of any value reads back.
ghost use Rattle.sw_convert_values.specs.ReadsBack.{ExpressionsReadBack};
ghost use Rattle.sw_convert_values.specs.Values.{ValuesAreWritten, PlainsAreWritten};

/// A law: what is written of a value that was read is the tokens that are read again, with what may stand behind it, where
/// this is so of those single values in it that `SinglesAreWritten` names; and those of one value, where it's no list with
/// commas and without brackets.
pub fn values_are_written()
    ensures rows { ValuesAreWritten }
    ensures plains { PlainsAreWritten }
{}

/// A law: the text that is written of an expression that was read reads to an expression alike, where what is written of
/// these single values in it is their tokens.
pub fn expressions_read_back()
    ensures { ExpressionsReadBack }
{}
