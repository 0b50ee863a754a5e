// Texts of whole sheets.
use std::alloc::Global;
use sw_expr_parse::ReadEnd;
use sw_rows_files::Refusal;
use sw_scss_parse::read;
use sw_text::{Fault, Name, Shared, SheetText};
use sw_tree::Sheet;

// A text of more bytes is no row.
const MOST: usize = 10_000_000;

/// A text as that of a sheet.
pub fn text_of_sheet(alloc: Global, text: &str) -> Result<Shared<SheetText>, Refusal> {
    let text = sheet_text(alloc, text)?;
    Ok(Shared::new(alloc, text)?)
}

fn sheet_text(alloc: Global, text: &str) -> Result<SheetText, Refusal> {
    if text.len() > MOST {
        return Err(Refusal::NoCall);
    }
    let path = Name::new(alloc, "a.scss")?;
    let text = Name::new(alloc, text)?;
    Ok(SheetText::new(alloc, path, text)?)
}

/// The tree of a text, or its fault.
pub fn tree_of(alloc: Global, text: &str) -> Result<Shared<Sheet>, Refusal> {
    let text = text_of_sheet(alloc, text)?;
    match read(alloc, &text) {
        Ok(sheet) => Ok(sheet),
        Err(end) => Err(refused(alloc, &end)),
    }
}

/// How reading ended, as rows tell it.
pub fn refused(alloc: Global, end: &ReadEnd) -> Refusal {
    match end {
        ReadEnd::Memory => Refusal::Memory,
        ReadEnd::Fault(fault) => faulted(alloc, fault),
    }
}

/// A fault as rows tell it: `Syntax 1:2 1:3`.
pub fn faulted(alloc: Global, fault: &Fault) -> Refusal {
    match told(alloc, fault) {
        Ok(text) => Refusal::Fault(text),
        Err(_) => Refusal::Memory,
    }
}

fn told(alloc: Global, fault: &Fault) -> Result<String, std::alloc::AllocError> {
    let (code, from, to) = (fault.code, fault.span.from, fault.span.to);
    let (line, column) = (from.line, from.column);
    let (last, behind) = (to.line, to.column);
    format!(in alloc; "{code:?} {line}:{column} {last}:{behind}")
}
