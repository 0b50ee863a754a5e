// Calls on how far something reaches in a text, as offsets: `name_end a-b.c`, `white_end a`, `begins_name -a`,
// `string_end 'a' b`, `sum_end (a:b)c<d`, `argument_end a;b)`, `trimmed a `, `piece 1 4 ; text`.
use std::alloc::Global;
use sw_rows_files::{Refusal, yes_or_no};
use sw_text_scan::{
    Class, Stops, begins_name, byte_at, is_letter, is_white, piece, run_end, stop_at, string_end,
    trimmed_end,
};

/// An offset in bytes or `none`, the piece, or yes or no. `NoCall` for another name or an offset that is no number;
/// `Memory` exactly where none was found.
pub fn answer(alloc: Global, name: &str, text: &str) -> Result<String, Refusal> {
    let bytes = text.as_bytes();
    match name {
        "name_end" => offset(alloc, Some(run_end(bytes, Class::Name, 0))),
        "white_end" => offset(alloc, Some(run_end(bytes, Class::White, 0))),
        "string_end" => offset(alloc, first_string_end(bytes)),
        "sum_end" => offset(alloc, stop_at(alloc, bytes, Stops::Sum, 0)?),
        "argument_end" => offset(alloc, stop_at(alloc, bytes, Stops::Argument, 0)?),
        "trimmed" => offset(alloc, Some(trimmed_end(bytes, 0, bytes.len()))),
        "piece" => between(alloc, text),
        _ => tested(alloc, name, bytes),
    }
}

fn tested(alloc: Global, name: &str, bytes: &[u8]) -> Result<String, Refusal> {
    match name {
        "begins_name" => yes_or_no(alloc, begins_name(bytes, 0)),
        "is_letter" => yes_or_no(alloc, is_letter(byte_at(bytes, 0))),
        "is_white" => yes_or_no(alloc, is_white(byte_at(bytes, 0))),
        _ => Err(Refusal::NoCall),
    }
}

fn first_string_end(bytes: &[u8]) -> Option<usize> {
    let quote = *bytes.first()?;
    string_end(bytes, quote, 0)
}

// What stands between two offsets.
fn between(alloc: Global, text: &str) -> Result<String, Refusal> {
    let (places, text) = text.split_once(" ; ").unwrap_or((text, ""));
    let (from, to) = places.split_once(' ').unwrap_or((places, ""));
    let (from, to) = (from.parse::<usize>()?, to.parse::<usize>()?);
    Ok(String::from_str(alloc, piece(text, from, to))?)
}

fn offset(alloc: Global, place: Option<usize>) -> Result<String, Refusal> {
    match place {
        Some(place) => Ok(format!(in alloc; "{place}")?),
        None => Ok(String::from_str(alloc, "none")?),
    }
}
