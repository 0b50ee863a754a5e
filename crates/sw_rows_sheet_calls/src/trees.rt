// Calls on the trees of sheets: `sheet a { b: c }`, `css a { b: c }` and `lines a\n  b: c` tell whether a text is a
// sheet, or where its fault stands, `tree TEXT` writes its tree, `marks TEXT` the same with the span of each part that
// has one, and `spans TEXT` the spans of its statements.
use crate::spans::spans_of;
use crate::statement::add_statements;
use crate::writer::Writer;
use std::alloc::Global;
use sw_rows_files::Refusal;
use sw_text::Shared;
use sw_tree::Sheet;

/// What a call of this name tells of a tree.
pub fn told(
    alloc: Global,
    name: &str,
    tree: Result<Shared<Sheet>, Refusal>,
) -> Result<String, Refusal> {
    let tree = tree?;
    match name {
        "css" | "lines" | "sheet" => accepted(alloc),
        "tree" => written(alloc, tree.get(), false),
        "marks" => written(alloc, tree.get(), true),
        "spans" => spans_of(alloc, tree.get()),
        _ => Err(Refusal::NoCall),
    }
}

fn accepted(alloc: Global) -> Result<String, Refusal> {
    Ok(String::from_str(alloc, "ok")?)
}

// The tree in prefix form, with or without the spans of its parts.
fn written(alloc: Global, sheet: &Sheet, marks: bool) -> Result<String, Refusal> {
    let mut writer = Writer::new(alloc, marks);
    add_statements(&mut writer, sheet.statements.as_slice());
    writer.written()
}
