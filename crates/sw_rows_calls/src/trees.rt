// Calls on the trees of sheets: `globals $a: b; $c: d` gives the names that a sheet declares, `same $a: b ; $a: b`
// whether the sheets of two texts are the same, spans and all.
use crate::tokens::shared;
use std::alloc::Global;
use sw_expr_parse::ReadEnd;
use sw_rows_files::{Refusal, TextWriter, yes_or_no};
use sw_scss_parse::read;
use sw_text::Shared;
use sw_tree::{Sheet, globals_of};

/// The names a sheet declares, or whether two are the same. `Syntax` where one is no sheet; `NoCall` for another name
/// or over 10,000,000 bytes; `Memory` exactly where none was found.
pub fn answer(alloc: Global, name: &str, text: &str) -> Result<String, Refusal> {
    let (left, right) = text.split_once(" ; ").unwrap_or((text, ""));
    match name {
        "globals" => globals(alloc, tree(alloc, text)?.get()),
        "same" => compared(alloc, left, right),
        _ => Err(Refusal::NoCall),
    }
}

fn tree(alloc: Global, text: &str) -> Result<Shared<Sheet>, Refusal> {
    let text = shared(alloc, text)?;
    match read(alloc, &text) {
        Ok(sheet) => Ok(sheet),
        Err(ReadEnd::Fault(_)) => Err(Refusal::named(alloc, "Syntax")?),
        Err(ReadEnd::Memory) => Err(Refusal::Memory),
    }
}

// The names with a space between two.
fn globals(alloc: Global, sheet: &Sheet) -> Result<String, Refusal> {
    let names = globals_of(alloc, sheet)?;
    let mut writer = TextWriter::new(alloc);
    for (at, name) in names.as_slice().iter().enumerate() {
        writer.text(if at == 0 { "" } else { " " });
        writer.text(name.as_str());
    }
    writer.written()
}

fn compared(alloc: Global, left: &str, right: &str) -> Result<String, Refusal> {
    let left = tree(alloc, left)?;
    let right = tree(alloc, right)?;
    yes_or_no(alloc, left.get().same(right.get()))
}
