// Calls on media queries: `query print`, `join screen ; (a: b)`, `is_empty print ; screen`.
use std::alloc::Global;
use sw_media::{MediaFault, Queries, join, read};
use sw_rows_files::{Refusal, answer_of, yes_or_no};

/// The queries as they are written, or whether they are empty; the fault's name where a text is none. `NoCall` for
/// another name; `Memory` exactly where none was found.
pub fn answer(alloc: Global, name: &str, text: &str) -> Result<String, Refusal> {
    let (outer, inner) = text.split_once(" ; ").unwrap_or((text, ""));
    match name {
        "query" => written(alloc, read(alloc, text)),
        "join" => written(alloc, joined(alloc, outer, inner)),
        "is_empty" => is_empty(alloc, joined(alloc, outer, inner)),
        _ => Err(Refusal::NoCall),
    }
}

fn is_empty(alloc: Global, queries: Result<Queries, MediaFault>) -> Result<String, Refusal> {
    yes_or_no(alloc, answer_of(alloc, queries)?.is_empty())
}

fn written(alloc: Global, queries: Result<Queries, MediaFault>) -> Result<String, Refusal> {
    let text = answer_of(alloc, queries)?.write(alloc)?;
    Ok(String::from_str(alloc, text.as_str())?)
}

fn joined(alloc: Global, outer: &str, inner: &str) -> Result<Queries, MediaFault> {
    let outer = read(alloc, outer)?;
    let inner = read(alloc, inner)?;
    join(alloc, &outer, &inner)
}
