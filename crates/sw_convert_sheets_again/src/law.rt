// From the derivation of a sheet to that of the tokens that are written of it.
ghost use Rattle.std.specs.Prelude.{ℕ};
ghost use Rattle.sw_parse_table.specs.declared.source.Source.{Source};
ghost use Rattle.sw_convert_again.specs.Claims.{BlocksAgain, StatementsAgain};
ghost use Rattle.sw_convert_sheets_again.specs.Claims.{AllSheetsAgain, QueriesAgain};

/// A law: what is written of media queries that were read is read again as queries like them, through any number of
/// parentheses in each other.
pub fn queries_are_read_again()
    ensures { (source written : Source) (levels : ℕ) → QueriesAgain source written levels }
{}

/// A law: every statement is read again, as a statement like it, and every block, through any number of blocks in each
/// other.
pub fn statements_are_read_again()
    ensures statements { (source written : Source) (levels : ℕ) → StatementsAgain source written levels }
    ensures blocks { (source written : Source) (levels : ℕ) → BlocksAgain source written levels }
{}

/// A law: where a text was read to a sheet, there are tokens that are written of it, and where these are all tokens of a
/// text, the reader answers a sheet like it.
pub fn sheets_are_read_again()
    ensures { AllSheetsAgain }
{}
