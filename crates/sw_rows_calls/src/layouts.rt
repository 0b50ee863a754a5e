// Calls on the layout of a sheet in lines: `layout a\n  b: c` gives the tokens that the text stands for.
use crate::tokens::{shared, told};
use std::alloc::Global;
use sw_parse_layout::tokens_of;
use sw_rows_files::Refusal;

/// The tokens, or `!` and the place of the fault. `NoCall` for another name or a text of more than 10,000,000 bytes;
/// `Memory` exactly where none was found.
pub fn answer(alloc: Global, name: &str, text: &str) -> Result<String, Refusal> {
    if name != "layout" {
        return Err(Refusal::NoCall);
    }
    let text = shared(alloc, text)?;
    told(alloc, tokens_of(alloc, &text))
}
