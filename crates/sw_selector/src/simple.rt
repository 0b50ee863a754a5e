// Simple selectors that hold no other selectors.
ghost use Rattle.std.specs.Prelude.{◌≡◌, ◌<◌, ◌++◌, length, IfOk};
ghost use Rattle.std.specs.String.{string_bytes};
ghost use Rattle.sw_selector.specs.Simples.{IsRead, text_at, class_at, placeholder_at, type_behind, type_at, attribute_at, parent_at, takes_list, takes_scope, takes_selectors, with_argument, argument_end, argument_text, raw_by, raw_at, colons_end};

use crate::attribute::{attribute_end, name_end, prefix_end, white};
use crate::{Part, SelectorFault};
use std::alloc::Global;
use sw_text::{Memory, Name};
use sw_text_locality::{name_text, text_of};
use sw_text_scan::{Stops, begins_name, byte_at, piece, signs, stop_at, trimmed_end};

#[tactic(auto, unfolding(crate::specs::Simples::text_at))]
fn text_at(
    alloc: Global,
    text: &str,
    from: usize,
    at: usize,
) -> Result<(Name, usize), SelectorFault>
    ensures { IsRead result (text_at text.now from at) }
{
    if !begins_name(text.as_bytes(), at) {
        return Err(SelectorFault::BadSelector);
    }
    let to = name_end(text.as_bytes(), at);
    let name = name_text(alloc, text, from, at, to)?;
    Ok((name, to))
}

/// A class or an id.
pub fn class_at(alloc: Global, text: &str, at: usize) -> Result<(Part, usize), SelectorFault>
    requires { at < length text.now }
    ensures { IsRead result (class_at text.now at) }
{
    let (name, to) = text_at(alloc, text, at, at + 1)?;
    Ok((Part::Named(name), to))
}

/// The placeholder whose `%` stands at `at`, and the place behind it. `BadSelector` where no name follows;
/// `Memory` exactly where none was found.
pub fn placeholder_at(alloc: Global, text: &str, at: usize) -> Result<(Part, usize), SelectorFault>
    requires { at < length text.now }
    ensures { IsRead result (placeholder_at text.now at) }
{
    let (name, to) = text_at(alloc, text, at, at + 1)?;
    Ok((Part::Placeholder(name), to))
}

#[tactic(auto, unfolding(crate::specs::Simples::type_behind))]
fn type_behind(
    alloc: Global,
    text: &str,
    from: usize,
    at: usize,
) -> Result<(Part, usize), SelectorFault>
    ensures { IsRead result (type_behind text.now from at) }
{
    if byte_at(text.as_bytes(), at) == signs::STAR {
        let name = text_of(alloc, text, from, at + 1)?;
        return Ok((Part::Closed(name), at + 1));
    }
    let (name, to) = text_at(alloc, text, from, at)?;
    Ok((Part::Named(name), to))
}

/// A type or `*`, with its namespace prefix.
pub fn type_at(alloc: Global, text: &str, at: usize) -> Result<(Part, usize), SelectorFault>
    ensures { IsRead result (type_at text.now at) }
{
    type_behind(alloc, text, at, prefix_end(text.as_bytes(), at))
}

/// The attribute whose `[` stands at `at`, as written, and the place behind it. `BadSelector` where it is none
/// (docs/LANGUAGE.md, "Selectors"); `Memory` exactly where none was found.
pub fn attribute_at(alloc: Global, text: &str, at: usize) -> Result<(Part, usize), SelectorFault>
    requires { at < length text.now }
    ensures { IsRead result (attribute_at text.now at) }
{
    match attribute_end(text.as_bytes(), at) {
        None => Err(SelectorFault::BadSelector),
        Some(to) => {
            let name = text_of(alloc, text, at, to)?;
            Ok((Part::Closed(name), to))
        }
    }
}

/// `&` with the name characters behind it.
#[tactic(auto, unfolding(crate::specs::Simples::parent_at))]
pub fn parent_at(alloc: Global, text: &str, at: usize) -> Result<(Part, usize), SelectorFault>
    requires { at < length text.now }
    ensures { IsRead result (parent_at text.now at) }
{
    let to = name_end(text.as_bytes(), at + 1);
    let suffix = name_text(alloc, text, at + 1, at + 1, to)?;
    Ok((Part::Parent(suffix), to))
}

fn takes_list(name: &str) -> bool
    ensures { result ≡ takes_list name.now }
{
    name == ":not" || name == ":is" || name == ":where" || name == ":has" || name == ":matches"
}

fn takes_scope(name: &str) -> bool
    ensures { result ≡ takes_scope name.now }
{
    name == ":any"
        || name == ":current"
        || name == ":host"
        || name == ":host-context"
        || name == "::slotted"
}

/// Whether the arguments of a pseudo are selectors.
#[tactic(auto, unfolding(crate::specs::Simples::takes_selectors))]
pub fn takes_selectors(name: &str) -> bool
    ensures { result ≡ takes_selectors name.now }
{
    takes_list(name) || takes_scope(name)
}

fn with_argument(alloc: Global, name: &str, argument: &str) -> Result<Name, Memory>
    ensures { IfOk result (λ text. text ≡ with_argument name.now argument.now) }
{
    let mut text = String::new(alloc);
    text.push_str(name)?;
    text.push_str("(")?;
    text.push_str(argument)?;
    text.push_str(")")?;
    Name::new(alloc, text.as_str())
}

#[tactic(auto, unfolding(crate::specs::Simples::argument_end))]
fn argument_end(bytes: &[u8], from: usize, to: usize) -> usize
    ensures { result ≡ argument_end bytes.now from to }
{
    let end = trimmed_end(bytes, from, to);
    if byte_at(bytes, end.saturating_sub(1)) == signs::BACKSLASH && end < to {
        end + 1
    } else {
        end
    }
}

fn argument_text(text: &str, from: usize, to: usize) -> &str
    ensures { result.now ≡ argument_text text.now from to }
{
    let start = white(text.as_bytes(), from);
    piece(text, start, argument_end(text.as_bytes(), start, to))
}

#[tactic(auto, unfolding(crate::specs::Simples::raw_by))]
fn raw_by(
    alloc: Global,
    text: &str,
    name: &str,
    at: usize,
    end: Option<usize>,
) -> Result<(Part, usize), SelectorFault>
    ensures { IsRead result (raw_by text.now name.now at end) }
{
    match end {
        None => Err(SelectorFault::BadSelector),
        Some(end) => {
            if byte_at(text.as_bytes(), end) != signs::CLOSE_PAREN
                || white(text.as_bytes(), at) >= end
            {
                return Err(SelectorFault::BadSelector);
            }
            let whole = with_argument(alloc, name, argument_text(text, at, end))?;
            Ok((Part::Closed(whole), end + 1))
        }
    }
}

/// A pseudo of this name with an argument of another kind, which begins at a place.
pub fn raw_at(
    alloc: Global,
    text: &str,
    name: &str,
    at: usize,
) -> Result<(Part, usize), SelectorFault>
    ensures { IsRead result (raw_at text.now name.now at) }
{
    let end = stop_at(alloc, text.as_bytes(), Stops::Argument, at)?;
    raw_by(alloc, text, name, at, end)
}

/// Where the name of the pseudo begins whose first colon stands at a place.
pub fn colons_end(bytes: &[u8], at: usize) -> usize
    requires { at < length bytes.now }
    ensures { result ≡ colons_end bytes.now at }
{
    if byte_at(bytes, at + 1) == signs::COLON {
        at + 2
    } else {
        at + 1
    }
}
