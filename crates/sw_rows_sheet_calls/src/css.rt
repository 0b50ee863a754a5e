// Texts of plain CSS.
use crate::sheets::{faulted, text_of_sheet};
use std::alloc::Global;
use sw_parse_css::{ReadEnd, read_css};
use sw_rows_files::Refusal;
use sw_text::Shared;
use sw_tree::Sheet;

/// The tree of a text of plain CSS, or its fault.
pub fn css_tree_of(alloc: Global, text: &str) -> Result<Shared<Sheet>, Refusal> {
    let text = text_of_sheet(alloc, text)?;
    match read_css(alloc, &text) {
        Ok(sheet) => Ok(sheet),
        Err(ReadEnd::Fault(fault)) => Err(faulted(alloc, &fault)),
        Err(ReadEnd::Memory) => Err(Refusal::Memory),
    }
}
