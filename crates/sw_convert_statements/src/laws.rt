// What is written of statements is their tokens.
ghost use Rattle.sw_convert_statements.specs.Fronts.{BranchesAreWritten, FrontsAreWritten};
ghost use Rattle.sw_convert_statements.specs.Names.{NamedFrontsAreWritten};
ghost use Rattle.sw_convert_statements.specs.ReadsBack.{ScssIsReadBack, SheetsReadBack};
ghost use Rattle.sw_convert_statements.specs.Sheets.{SheetsAreWritten};
ghost use Rattle.sw_convert_statements.specs.Texts.{TextFrontsAreWritten};
ghost use Rattle.sw_convert_statements.specs.Told.{KnownSheetsHaveFronts};
ghost use Rattle.sw_convert_statements.specs.Written.{StatementsAreWritten};

/// A law: what is written of a statement with values in it, up to its end or its block, is the tokens that are read again,
/// where that is so of the values.
pub fn fronts_are_written()
    ensures fronts { FrontsAreWritten }
    ensures branches { BranchesAreWritten }
{}

/// A law: the same of at-rules with raw text of the kinds that `raw_known` tells, where what is written of such text is its
/// tokens.
pub fn text_fronts_are_written()
    ensures { TextFrontsAreWritten }
{}

/// A law: the same of declarations, custom properties, at-rules of CSS and rules, where what is written of their values,
/// texts and selectors is their tokens.
pub fn named_fronts_are_written()
    ensures { NamedFrontsAreWritten }
{}

/// A law: where all statements of a sheet are of these kinds, what is written of each up to its end or its block is its
/// tokens, where that is so of the values, texts and selectors in the sheet.
pub fn known_sheets_have_fronts()
    ensures { KnownSheetsHaveFronts }
{}

/// A law: what is written of statements in a block is the tokens that are read again, through any number of blocks in each
/// other, where that is so of what stands before their ends and their blocks.
pub fn statements_are_written()
    ensures { StatementsAreWritten }
{}

/// A law: the same of the statements of a sheet, with a blank line between two that both have a block.
pub fn sheets_are_written()
    ensures { SheetsAreWritten }
{}

/// A law: the text that is written of a sheet that was read is read to a sheet alike, where what is written of its
/// statements up to their ends and their blocks is their tokens.
pub fn sheets_read_back()
    ensures { SheetsReadBack }
{}

/// A law: where a sheet was read of which those single values that `SinglesAreWritten` names are written as their tokens,
/// and all its statements are of the kinds that are, the text that is written of it is read to a sheet alike.
pub fn scss_is_read_back()
    ensures { ScssIsReadBack }
{}
