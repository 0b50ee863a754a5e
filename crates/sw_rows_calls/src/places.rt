// Calls on the places of a text: `place 2 ; text` gives the line and the column of an offset.
use std::alloc::Global;
use sw_rows_files::Refusal;
use sw_text::{Name, Pos, SheetText, Span};

// A text of more bytes is no row.
const MOST: usize = 10_000_000;

/// The place of a byte's offset as `line:column`. `NoCall` for another name, an offset that is no start of a character,
/// or a text of more than 10,000,000 bytes; `Memory` exactly where none was found.
pub fn answer(alloc: Global, name: &str, text: &str) -> Result<String, Refusal> {
    let (offset, text) = text.split_once(" ; ").unwrap_or((text, ""));
    if name != "place" {
        return Err(Refusal::NoCall);
    }
    let offset = offset.parse::<u32>()?;
    let sheet = sheet(alloc, text)?;
    if !sheet.text().is_char_boundary(offset as usize) {
        return Err(Refusal::NoCall);
    }
    Ok(shown(alloc, sheet.pos(offset))?)
}

/// A text as a sheet.
pub fn sheet(alloc: Global, text: &str) -> Result<SheetText, Refusal> {
    if text.len() > MOST {
        return Err(Refusal::NoCall);
    }
    let path = Name::new(alloc, "a.scss")?;
    let text = Name::new(alloc, text)?;
    Ok(SheetText::new(alloc, path, text)?)
}

fn shown(alloc: Global, place: Pos) -> Result<String, std::alloc::AllocError> {
    let (line, column) = (place.line, place.column);
    format!(in alloc; "{line}:{column}")
}

/// The two ends of a span.
pub fn ends(alloc: Global, span: &Span) -> Result<String, Refusal> {
    let from = shown(alloc, span.from)?;
    let to = shown(alloc, span.to)?;
    Ok(format!(in alloc; "{from} {to}")?)
}
