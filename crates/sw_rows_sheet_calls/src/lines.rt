// Calls on sheets in lines: `same a\n  b: c <=> a { b: c }` tells whether the text before the sign has the tree of the
// one behind it, but for spans. The others are those of trees.
use crate::sheets::{refused, text_of_sheet, tree_of};
use crate::trees::told;
use std::alloc::Global;
use sw_indent_parse::read;
use sw_rows_files::Refusal;
use sw_text::Shared;
use sw_tree::Sheet;

/// `yes` or both trees, or what the call of a tree gives; the fault's text where a text is no sheet. `NoCall` for
/// another name or a text of more than 10,000,000 bytes; `Memory` exactly where none was found.
pub fn answer(alloc: Global, name: &str, text: &str) -> Result<String, Refusal> {
    match text.split_once(" <=> ") {
        Some((lines, sheet)) if name == "same" => same(alloc, lines, sheet),
        _ => told(alloc, name, lined_tree_of(alloc, text)),
    }
}

// `yes`, or both trees.
fn same(alloc: Global, lines: &str, sheet: &str) -> Result<String, Refusal> {
    let seen = told(alloc, "tree", lined_tree_of(alloc, lines))?;
    let other = told(alloc, "tree", tree_of(alloc, sheet))?;
    let text = if seen == other {
        String::from_str(alloc, "yes")
    } else {
        format!(in alloc; "{seen} <=> {other}")
    };
    Ok(text?)
}

fn lined_tree_of(alloc: Global, text: &str) -> Result<Shared<Sheet>, Refusal> {
    let text = text_of_sheet(alloc, text)?;
    match read(alloc, &text) {
        Ok(sheet) => Ok(sheet),
        Err(end) => Err(refused(alloc, &end)),
    }
}
