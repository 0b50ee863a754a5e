// From a file to its sheet.
ghost use Rattle.std.specs.Prelude.{◌≡◌, ◌-◌, ◌^◌, ◌<◌, length, Err, IfOk};
ghost use Rattle.sw_parse_css.specs.Reading.{css_of};
ghost use Rattle.sw_parse_file.specs.Files.{sheet_at, unread};
ghost use Rattle.sw_indent_parse.specs.Sheets.{indented_sheet_of};
ghost use Rattle.sw_scss_parse.specs.Readings.{sheet_of};

use crate::language::{Language, language_of};
use std::alloc::Global;
use sw_expr_parse::ReadEnd;
use sw_parse_css::read_css;
use sw_scss_parse::read;
use sw_text::{Fault, FaultCode, Memory, Name, Shared, SheetText, Span};
use sw_tree::Sheet;

/// The sheet of the file with this path and text, or its fault. A file whose extension names no language has a fault of
/// syntax at its first place.
#[tactic(auto, unfolding(crate::specs::Files::sheet_at))]
pub fn read_file(
    alloc: Global,
    path: &Name,
    text: &Name,
) -> Result<Result<Shared<Sheet>, Fault>, Memory>
    requires { length text.now < 2 ^ 32 - 1 }
    ensures { IfOk result (λ reading. reading ≡ sheet_at path.now text.now) }
{
    match language_of(path) {
        Some(Language::Scss) => scss_of(alloc, &text_of(alloc, path, text)?),
        Some(Language::Css) => css_of(alloc, &text_of(alloc, path, text)?),
        Some(Language::Indented) => indented_of(alloc, &text_of(alloc, path, text)?),
        None => unread(path),
    }
}

fn text_of(alloc: Global, path: &Name, text: &Name) -> Result<Shared<SheetText>, Memory>
    requires { length text.now < 2 ^ 32 - 1 }
    ensures { IfOk result (λ sheet. sheet ≡ record { path = path.now; bytes = text.now }) }
{
    Shared::new(alloc, SheetText::new(alloc, path.share()?, text.share()?)?)
}

fn scss_of(alloc: Global, text: &Shared<SheetText>) -> Result<Result<Shared<Sheet>, Fault>, Memory>
    ensures { IfOk result (λ reading. reading ≡ sheet_of text.now) }
{
    match read(alloc, text) {
        Ok(sheet) => Ok(Ok(sheet)),
        Err(ReadEnd::Fault(fault)) => Ok(Err(fault)),
        Err(ReadEnd::Memory) => Err(Memory),
    }
}

fn indented_of(
    alloc: Global,
    text: &Shared<SheetText>,
) -> Result<Result<Shared<Sheet>, Fault>, Memory>
    ensures { IfOk result (λ reading. reading ≡ indented_sheet_of text.now) }
{
    match sw_indent_parse::read(alloc, text) {
        Ok(sheet) => Ok(Ok(sheet)),
        Err(ReadEnd::Fault(fault)) => Ok(Err(fault)),
        Err(ReadEnd::Memory) => Err(Memory),
    }
}

fn css_of(alloc: Global, text: &Shared<SheetText>) -> Result<Result<Shared<Sheet>, Fault>, Memory>
    ensures { IfOk result (λ reading. reading ≡ css_of text.now) }
{
    match read_css(alloc, text) {
        Ok(sheet) => Ok(Ok(sheet)),
        Err(sw_parse_css::ReadEnd::Fault(fault)) => Ok(Err(fault)),
        Err(sw_parse_css::ReadEnd::Memory) => Err(Memory),
    }
}

// A fault of syntax at the first place of a file.
fn unread(path: &Name) -> Result<Result<Shared<Sheet>, Fault>, Memory>
    ensures { IfOk result (λ reading. reading ≡ Err (unread path.now)) }
{
    let span = Span::start_of(path)?;
    let code = FaultCode::Syntax;
    Ok(Err(Fault { code, span }))
}
