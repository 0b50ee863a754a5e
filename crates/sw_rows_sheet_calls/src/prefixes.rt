// Calls on the sheets that lie beside the rows: `prefixes FILE` reads each text with which the file's text begins, from
// the empty one to all of it, and tells how many of them are sheets.
use crate::files::Sheets;
use crate::sheets::text_of_sheet;
use std::alloc::Global;
use sw_expr_parse::ReadEnd;
use sw_rows_files::Refusal;
use sw_scss_parse::read;

/// How many prefixes of the file's text are sheets, cut between characters. `NoCall` for another name, a file that
/// isn't there or one of more than 10,000,000 bytes; `Memory` exactly where none was found.
pub fn answer(alloc: Global, sheets: &Sheets, name: &str, text: &str) -> Result<String, Refusal> {
    if name != "prefixes" {
        return Err(Refusal::NoCall);
    }
    let Some(text) = sheets.text(text) else {
        return Err(Refusal::NoCall);
    };
    let count = sheets_among(alloc, text)?;
    Ok(format!(in alloc; "{count}")?)
}

fn sheets_among(alloc: Global, text: &str) -> Result<u32, Refusal> {
    let mut count: u32 = 0;
    for at in 0..=text.len() {
        if text.is_char_boundary(at) && is_sheet(alloc, &text[..at])? {
            count = count.saturating_add(1);
        }
    }
    Ok(count)
}

fn is_sheet(alloc: Global, text: &str) -> Result<bool, Refusal> {
    let text = text_of_sheet(alloc, text)?;
    match read(alloc, &text) {
        Ok(_) => Ok(true),
        Err(ReadEnd::Fault(_)) => Ok(false),
        Err(ReadEnd::Memory) => Err(Refusal::Memory),
    }
}
