// From a derivation to another, and to the answer of the reader.
ghost use Rattle.std.specs.Prelude.{◌≡◌, ◌≤◌, ℕ, suc, List, length};
ghost use Rattle.sw_parse_grammar.specs.Grammar.{Derives, Got};
ghost use Rattle.sw_parse_table.specs.declared.source.Source.{Source};
ghost use Rattle.sw_parse_table.specs.Parts.{Part, Whole};
ghost use Rattle.sw_parse_table.specs.Sources.{text_of};
ghost use Rattle.sw_parse_table.specs.Table.{forms};
ghost use Rattle.sw_parse_table.specs.Reads.{reader};
ghost use Rattle.sw_convert_again.specs.Again.{ValuesAgain};
ghost use Rattle.sw_convert_again.specs.RawTexts.{RawTextsAgain};
ghost use Rattle.sw_convert_again.specs.Claims.{BlocksAgain, LinesAgain, NestedAgain, SheetsAgain, StatementsAgain};

/// A law: where all tokens of a text derive a sheet with so many levels of brackets, the reader answers it.
pub fn whole_sheets_are_read()
    ensures { (source : Source) (levels : ℕ) (parts : List Part)
        → Derives (forms source) (text_of source) (suc levels) Whole 0 (length source.lexemes.now) parts
        → reader source levels (forms source Whole) 0 ≡ Got parts (length source.lexemes.now) }
{}

/// A law: what is written of a value that was read is read again as a value like it, through any number of brackets in
/// each other.
pub fn values_are_read_again()
    ensures { ValuesAgain }
{}

/// A law: wherever the tokens of raw text that was read stand, with the same text before, between and behind the values
/// in them, they are read as a raw text like it, through any number of brackets in each other.
pub fn raw_texts_are_read_again()
    ensures { RawTextsAgain }
{}

/// A law: variables, custom properties, messages, `@return`, `@content`, `@import`, `@extend` and `@charset` are read
/// again, as statements like them; and so are rules, declarations, `@if`, `@each`, `@for`, `@while`, functions, mixins,
/// `@include`, `@supports`, `@at-root` and at-rules of CSS where the blocks in the sheet are.
pub fn statements_are_read_again()
    ensures lines { (source written : Source) (levels : ℕ) → LinesAgain source written levels }
    ensures nested { (source written : Source) (levels : ℕ) → BlocksAgain source written levels
        → NestedAgain source written levels }
{}

/// A law: a block is read again where its statements are, and so is a whole sheet: where all tokens of a text are those
/// that are written of it, the reader answers a sheet like it.
pub fn sheets_are_read_again()
    ensures blocks { (source written : Source) (levels : ℕ)
        → ((fewer : ℕ) → levels ≡ suc fewer → StatementsAgain source written fewer) → BlocksAgain source written levels }
    ensures sheets { SheetsAgain }
{}
