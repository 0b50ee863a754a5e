// Texts whose strings and brackets are closed.
ghost use Rattle.std.specs.Prelude.{◌≡◌, ◌<◌, ◌^◌, IfOk, length, None, Some, option_map};
ghost use Rattle.sw_text_scan.specs.Brackets.{stops_by, closing, is_closing, innermost, over, string_end, stopped, scan_step, stop_at, at_place};

use crate::bytes::{byte_at, is_quote};
use crate::runs::{Class, escape_end, run_end};
use crate::signs;
use std::alloc::{AllocError, Global};

// In place of a bracket, where there is none.
const NO_BRACKET: u16 = 0;

/// What ends a text where it stands outside its strings and brackets.
#[derive(Clone, Copy, Debug, PartialEq, Eq)]
pub enum Stops {
    /// `)`, `;` and braces.
    Argument,
    /// `)`, `:`, `<`, `=` and `>`.
    Sum,
}

fn stops_by(stops: Stops, byte: u16) -> bool
    ensures { result ≡ stops_by stops byte }
{
    match stops {
        Stops::Argument => {
            byte == signs::CLOSE_PAREN
                || byte == signs::SEMICOLON
                || byte == signs::OPEN_BRACE
                || byte == signs::CLOSE_BRACE
        },
        Stops::Sum => {
            byte == signs::CLOSE_PAREN
                || byte == signs::COLON
                || byte == signs::LESS
                || byte == signs::EQUALS
                || byte == signs::GREATER
        },
    }
}

fn closing(byte: u16) -> u16
    ensures { result ≡ closing byte }
{
    match byte {
        signs::OPEN_PAREN => signs::CLOSE_PAREN,
        signs::OPEN_BRACKET => signs::CLOSE_BRACKET,
        signs::OPEN_BRACE => signs::CLOSE_BRACE,
        _ => NO_BRACKET,
    }
}

fn is_closing(byte: u16) -> bool
    ensures { result ≡ is_closing byte }
{
    byte == signs::CLOSE_PAREN || byte == signs::CLOSE_BRACKET || byte == signs::CLOSE_BRACE
}

fn innermost(closers: &[u16]) -> u16
    ensures { result ≡ innermost closers.now }
{
    match closers.last() {
        None => NO_BRACKET,
        Some(bracket) => *bracket,
    }
}

#[tactic(auto, unfolding(crate::specs::Brackets::over))]
fn over(bytes: &[u8], at: usize) -> usize
    requires { at < length bytes.now }
    ensures { result ≡ over bytes.now at }
{
    let end = escape_end(bytes, at);
    if at < end { end } else { at + 1 }
}

/// The place behind the string that begins with this quote at a place, where it is closed.
#[tactic(auto, unfolding(crate::specs::Brackets::string_end))]
pub fn string_end(bytes: &[u8], quote: u8, at: usize) -> Option<usize>
    requires { at < length bytes.now }
    ensures { result ≡ string_end bytes.now quote at }
{
    let end = run_end(bytes, Class::Text(quote), at + 1);
    if byte_at(bytes, end) == quote as u16 {
        return Some(end + 1);
    }
    None
}

fn stopped(stops: Stops, bytes: &[u8], closers: &[u16], at: usize) -> bool
    ensures { result ≡ stopped stops bytes.now closers.now at }
{
    closers.is_empty() && stops_by(stops, byte_at(bytes, at))
}

/// One step on: the place behind it, with what is open there.
#[tactic(auto, unfolding(crate::specs::Brackets::scan_step))]
fn scan_step(bytes: &[u8], closers: &mut Vec<u16>, at: usize) -> Result<Option<usize>, AllocError>
    ensures { IfOk result (λ to. option_map (at_place closers.new.items) to
        ≡ scan_step bytes.now closers.old.items at) }
{
    let byte = byte_at(bytes, at);
    if byte == signs::END {
        return Ok(None);
    }
    if is_quote(byte) {
        return Ok(string_end(bytes, byte as u8, at));
    }
    let bracket = closing(byte);
    if bracket > NO_BRACKET {
        closers.push(bracket)?;
        return Ok(Some(at + 1));
    }
    if is_closing(byte) {
        if innermost(closers.as_slice()) != byte {
            return Ok(None);
        }
        let _bracket = closers.pop();
        return Ok(Some(at + 1));
    }
    Ok(Some(over(bytes, at)))
}

/// The first place from a place on, outside strings and brackets, that ends the text. None where a string or a bracket
/// isn't closed before it, or where nothing ends it.
#[tactic(auto, using(crate::proofs::ScanLemmas::scan_found, crate::proofs::ScanLemmas::scan_lost, crate::proofs::ScanLemmas::scan_on), unfolding(crate::specs::Brackets::stop_at))]
pub fn stop_at(
    alloc: Global,
    bytes: &[u8],
    stops: Stops,
    at: usize,
) -> Result<Option<usize>, AllocError>
    ensures { IfOk result (λ to. to ≡ stop_at stops bytes.now at) }
{
    let mut closers = Vec::new(alloc);
    let mut place = at;
    // each step takes at least one byte
    'scan: for _step in 0..bytes.len() + 1 {
        if stopped(stops, bytes, closers.as_slice(), place) {
            return Ok(Some(place));
        }
        match scan_step(bytes, &mut closers, place)? {
            None => return Ok(None),
            Some(to) => place = to,
        }
    }
    Ok(None)
}
