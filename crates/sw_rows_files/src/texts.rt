// Texts that calls read and write.
use crate::refusal::Refusal;
use std::alloc::Global;
use std::cmp::Ordering;
use sw_text::Name;

/// The text of bytes that are written by a library.
pub fn text_of(alloc: Global, bytes: &[u8]) -> Result<String, Refusal> {
    Ok(String::from_utf8_lossy(alloc, bytes)?)
}

/// `yes` or `no`.
pub fn yes_or_no(alloc: Global, is_so: bool) -> Result<String, Refusal> {
    Ok(String::from_str(alloc, if is_so { "yes" } else { "no" })?)
}

/// `less`, `equal` or `greater`.
pub fn order_name(alloc: Global, order: Ordering) -> Result<String, Refusal> {
    let name = match order {
        Ordering::Less => "less",
        Ordering::Equal => "equal",
        Ordering::Greater => "greater",
    };
    Ok(String::from_str(alloc, name)?)
}

/// Names with a sign between two.
pub fn names(alloc: Global, text: &str, sign: char) -> Result<Vec<Name>, Refusal> {
    let mut names = Vec::new(alloc);
    for name in text.split(sign) {
        if !name.is_empty() {
            names.push(Name::new(alloc, name)?)?;
        }
    }
    Ok(names)
}
