// From an indented text to its sheet.
ghost use Rattle.std.specs.Prelude.{◌≡◌};
ghost use Rattle.sw_text.specs.Places.{Text};
ghost use Rattle.sw_scss_parse.specs.Readings.{Returns, end_without_tokens};
ghost use Rattle.sw_indent_parse.specs.Sheets.{indented_sheet_of, SawLayout, IsReading, TellsLayoutDepth};

use std::alloc::Global;
use sw_expr_parse::ReadEnd;
use sw_parse_layout::tokens_of;
use sw_scss_parse::read_list;
use sw_text::{Shared, SheetText};
use sw_tokens::Fault10;
use sw_tree::Sheet;

/// The sheet of an indented text, in time that is linear in its bytes: that of the SCSS tokens that the text stands
/// for. A string or a `#{` that isn't closed is a fault at its first character, else what the layout refuses is one at
/// the first token that is refused; else a fault stands at the first of the tokens with which no sheet can go on. That
/// may be a `{`, `}` or `;` that the lines stand for: an empty place there.
pub fn read(alloc: Global, text: &Shared<SheetText>) -> Result<Shared<Sheet>, ReadEnd>
    ensures result { Returns result (indented_sheet_of text.now) }
    ensures seen { SawLayout text.now result }
{
    match tokens_of(alloc, text) {
        Ok(tokens) => read_list(alloc, &tokens),
        Err(fault) => Err(end_without_tokens(fault)),
    }
}

/// How reading ends where the text has no tokens.
fn end_without_tokens(fault: Fault10) -> ReadEnd
    ensures { result ≡ end_without_tokens fault }
{
    match fault {
        Fault10::Fault(fault) => ReadEnd::Fault(fault),
        Fault10::Memory => ReadEnd::Memory,
    }
}

/// A law: what `read` gives for a text is what the grammar says of the list of tokens that the text stands for: the
/// tree that the list derives, and the only one, or the fault where no sheet can go on; or it is the fault of the
/// layout.
pub fn indented_sheets_are_of_the_grammar()
    ensures grammar { (sheet : Text) → IsReading sheet (indented_sheet_of sheet) }
    ensures depth { (sheet : Text) → TellsLayoutDepth sheet (indented_sheet_of sheet) }
{}
