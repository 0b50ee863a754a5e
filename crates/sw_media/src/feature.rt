// The features that hold no conditions.
ghost use Rattle.std.specs.Prelude.{◌≡◌, ◌<◌, ◌^◌, length, IfOk, Some};
ghost use Rattle.sw_media.specs.Words.{IsRead};
ghost use Rattle.sw_media.specs.Features.{trimmed, sum_by, sum_at, in_parens, closed_by, declared_text, value_by, is_comparison, comparison_end, compared_text, compared_at, range_by, sides_by, plain_at};

use crate::MediaFault;
use crate::words::white;
use std::alloc::Global;
use sw_text::{Memory, Name};
use sw_text_scan::{Stops, byte_at, piece, signs, stop_at, trimmed_end};

fn trimmed(text: &str, from: usize, to: usize) -> &str
    ensures { result.now ≡ trimmed text.now from to }
{
    let start = white(text.as_bytes(), from);
    piece(text, start, trimmed_end(text.as_bytes(), start, to))
}

#[tactic(auto, unfolding(crate::specs::Features::sum_by))]
fn sum_by(
    alloc: Global,
    text: &str,
    at: usize,
    end: Option<usize>,
) -> Result<(Name, usize), MediaFault>
    ensures { IsRead result (sum_by text.now at end) }
{
    match end {
        None => Err(MediaFault::BadQuery),
        Some(end) => {
            if white(text.as_bytes(), at) >= end {
                return Err(MediaFault::BadQuery);
            }
            let name = Name::new(alloc, trimmed(text, at, end))?;
            Ok((name, end))
        }
    }
}

// One side, and where it ends.
fn sum_at(alloc: Global, text: &str, at: usize) -> Result<(Name, usize), MediaFault>
    ensures { IsRead result (sum_at text.now at) }
{
    let end = stop_at(alloc, text.as_bytes(), Stops::Sum, at)?;
    sum_by(alloc, text, at, end)
}

/// A text in parentheses.
pub fn in_parens(alloc: Global, text: &str) -> Result<Name, Memory>
    ensures { IfOk result (λ whole. whole ≡ in_parens text.now) }
{
    let mut whole = String::new(alloc);
    whole.push_str("(")?;
    whole.push_str(text)?;
    whole.push_str(")")?;
    Name::new(alloc, whole.as_str())
}

/// A text in parentheses, if they close at a place.
pub fn closed_by(
    alloc: Global,
    text: &str,
    inside: &str,
    at: usize,
) -> Result<(Name, usize), MediaFault>
    ensures { IsRead result (closed_by text.now inside.now at) }
{
    if byte_at(text.as_bytes(), at) != signs::CLOSE_PAREN {
        return Err(MediaFault::BadQuery);
    }
    let whole = in_parens(alloc, inside)?;
    Ok((whole, at + 1))
}

fn declared_text(alloc: Global, name: &str, value: &str) -> Result<Name, Memory>
    ensures { IfOk result (λ whole. whole ≡ declared_text name.now value.now) }
{
    let mut whole = String::new(alloc);
    whole.push_str(name)?;
    whole.push_str(": ")?;
    whole.push_str(value)?;
    Name::new(alloc, whole.as_str())
}

#[tactic(auto, unfolding(crate::specs::Features::value_by))]
fn value_behind(
    alloc: Global,
    text: &str,
    name: &str,
    at: usize,
) -> Result<(Name, usize), MediaFault>
    ensures { IsRead result (value_by text.now name.now (sum_at text.now at)) }
{
    let (value, to) = sum_at(alloc, text, at)?;
    let whole = declared_text(alloc, name, value.as_str())?;
    closed_by(alloc, text, whole.as_str(), to)
}

fn is_comparison(byte: u16) -> bool
    ensures { result ≡ is_comparison byte }
{
    byte == signs::LESS || byte == signs::EQUALS || byte == signs::GREATER
}

#[tactic(auto, unfolding(crate::specs::Features::comparison_end))]
fn comparison_end(bytes: &[u8], at: usize) -> usize
    requires { at < length bytes.now }
    ensures { result ≡ comparison_end bytes.now at }
{
    let byte = byte_at(bytes, at);
    if (byte == signs::LESS || byte == signs::GREATER) && byte_at(bytes, at + 1) == signs::EQUALS {
        at + 2
    } else {
        at + 1
    }
}

fn compared_text(alloc: Global, left: &str, sign: &str, right: &str) -> Result<Name, Memory>
    ensures { IfOk result (λ whole. whole ≡ compared_text left.now sign.now right.now) }
{
    let mut whole = String::new(alloc);
    whole.push_str(left)?;
    whole.push_str(" ")?;
    whole.push_str(sign)?;
    whole.push_str(" ")?;
    whole.push_str(right)?;
    Name::new(alloc, whole.as_str())
}

#[tactic(auto, unfolding(crate::specs::Features::compared_at))]
fn compared_at(
    alloc: Global,
    text: &str,
    left: &str,
    at: usize,
) -> Result<(Name, usize), MediaFault>
    ensures { IsRead result (compared_at text.now left.now at) }
{
    if !is_comparison(byte_at(text.as_bytes(), at)) {
        return Err(MediaFault::BadQuery);
    }
    let behind = comparison_end(text.as_bytes(), at);
    let (right, to) = sum_at(alloc, text, behind)?;
    let whole = compared_text(alloc, left, piece(text, at, behind), right.as_str())?;
    Ok((whole, to))
}

#[tactic(auto, unfolding(crate::specs::Features::range_by))]
fn range_behind(
    alloc: Global,
    text: &str,
    left: &str,
    at: usize,
) -> Result<(Name, usize), MediaFault>
    ensures { IsRead result (range_by text.now (compared_at text.now left.now at)) }
{
    let (inside, to) = compared_at(alloc, text, left, at)?;
    if byte_at(text.as_bytes(), to) == signs::CLOSE_PAREN {
        let whole = in_parens(alloc, inside.as_str())?;
        return Ok((whole, to + 1));
    }
    let (inside, last) = compared_at(alloc, text, inside.as_str(), to)?;
    closed_by(alloc, text, inside.as_str(), last)
}

#[tactic(auto, unfolding(crate::specs::Features::sides_by))]
fn sides_behind(
    alloc: Global,
    text: &str,
    left: &str,
    at: usize,
) -> Result<(Name, usize), MediaFault>
    ensures { IsRead result (sides_by text.now (Some (left.now, at))) }
{
    let byte = byte_at(text.as_bytes(), at);
    if byte == signs::CLOSE_PAREN {
        let whole = in_parens(alloc, left)?;
        return Ok((whole, at + 1));
    }
    if byte == signs::COLON {
        return value_behind(alloc, text, left, at + 1);
    }
    range_behind(alloc, text, left, at)
}

/// The text of the feature whose inside begins at a place, and the place behind it.
#[tactic(auto, unfolding(crate::specs::Features::sides_by))]
pub fn plain_at(alloc: Global, text: &str, at: usize) -> Result<(Name, usize), MediaFault>
    ensures { IsRead result (plain_at text.now at) }
{
    let (left, to) = sum_at(alloc, text, at)?;
    sides_behind(alloc, text, left.as_str(), to)
}
