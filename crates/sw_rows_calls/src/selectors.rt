// Calls on selectors: `selector a>b`, `parts a>b`, `nest a ; &:hover`, `root a ; b`.
use std::alloc::Global;
use sw_rows_files::{Refusal, TextWriter, answer_of};
use sw_selector::{SelectorFault, Selectors, nest, read};

/// The selectors as they are written, or their parts; the fault's name where they can't be read or nested. `NoCall` for
/// another name; `Memory` exactly where none was found.
pub fn answer(alloc: Global, name: &str, text: &str) -> Result<String, Refusal> {
    let (parent, child) = text.split_once(" ; ").unwrap_or((text, ""));
    match name {
        "selector" => written(alloc, read(alloc, text)),
        "parts" => parts(alloc, text),
        "nest" => written(alloc, nested(alloc, parent, child, false)),
        "root" => written(alloc, nested(alloc, parent, child, true)),
        _ => Err(Refusal::NoCall),
    }
}

fn written(alloc: Global, selectors: Result<Selectors, SelectorFault>) -> Result<String, Refusal> {
    let text = answer_of(alloc, selectors)?.write(alloc)?;
    Ok(String::from_str(alloc, text.as_str())?)
}

// A parent that is empty is none.
fn nested(
    alloc: Global,
    parent: &str,
    child: &str,
    is_at_root: bool,
) -> Result<Selectors, SelectorFault> {
    let child = read(alloc, child)?;
    if parent.is_empty() {
        return nest(alloc, None, &child, is_at_root);
    }
    let parent = read(alloc, parent)?;
    nest(alloc, Some(&parent), &child, is_at_root)
}

// The compounds and combinators with ` | ` between two, and ` || ` between two complex selectors.
fn parts(alloc: Global, text: &str) -> Result<String, Refusal> {
    let selectors = answer_of(alloc, read(alloc, text))?;
    let all = selectors.parts(alloc)?;
    let mut writer = TextWriter::new(alloc);
    let mut before = "";
    for complex in all.as_slice() {
        for part in complex.as_slice() {
            writer.text(before);
            writer.text(part.as_str());
            before = " | ";
        }
        before = " || ";
    }
    writer.written()
}
