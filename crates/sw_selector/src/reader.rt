// What selectors a text is.
ghost use Rattle.std.specs.Prelude.{◌≡◌, ◌<◌, ◌≤◌, ◌^◌, length, Some};
ghost use Rattle.sw_selector.specs.Depth.{list_depth};
ghost use Rattle.sw_selector.specs.Simples.{IsRead};
ghost use Rattle.sw_selector.specs.Reading.{closed_by, argument_at, pseudo_behind, pseudo_at, head_at, simple_at, simple_turn, plain_turn, combinator_turn, spaced_turn, turn_at, last_turn, complex_at, list_at, selectors_in, commas_end, complexes_of, selectors_of, within_limit, IsAnswer};

use crate::attribute::{name_end, white};
use crate::simple::{
    attribute_at, class_at, colons_end, parent_at, placeholder_at, raw_at, takes_selectors, type_at,
};
use crate::turn::{Before, Turn, combinator_of, ends_complex, is_joined, is_simple};
use crate::{Combinator, Complex, Part, SelectorFault, Selectors};
use std::alloc::Global;
use sw_text::{List, Name, Shared};
use sw_text_locality::name_text;
use sw_text_scan::{Class, begins_name, byte_at, run_end, signs};

/// At most so many pseudos with selectors stand in each other.
pub const LEVELS: u8 = 128;

/// A list has at most so many complex selectors.
pub const MOST_SELECTORS: usize = 10_000;

/// The selectors of a text without comments. `BadSelector` comes exactly where the text is none, also where more than
/// 128 pseudos with selectors stand in each other; else `TooLarge` exactly where there are more than 10,000 complex
/// selectors.
#[tactic(auto, unfolding(crate::specs::Reading::selectors_of))]
pub fn read(alloc: Global, text: &str) -> Result<Selectors, SelectorFault>
    ensures { IsAnswer result (selectors_of text.now) }
{
    let list = complexes_of(alloc, text, LEVELS)?;
    within_limit(list)
}

fn within_limit(list: List<Complex>) -> Result<Selectors, SelectorFault>
    requires { list_depth 0 list ≤ LEVELS }
    ensures { IsAnswer result (within_limit list) }
{
    if list.len() > MOST_SELECTORS {
        return Err(SelectorFault::TooLarge);
    }
    Ok(Selectors::new(list))
}

#[tactic(auto, unfolding(crate::specs::Reading::complexes_of))]
fn complexes_of(alloc: Global, text: &str, levels: u8) -> Result<List<Complex>, SelectorFault>
    ensures { IsRead result (complexes_of text.now levels) }
{
    let mut list = List::new(alloc);
    let mut place = 0;
    'selectors: for _turn in 0..text.len() + 1 {
        let (complex, to) = complex_at(alloc, text, levels, place)?;
        list.push(complex)?;
        place = commas_end(text.as_bytes(), to);
        if byte_at(text.as_bytes(), place) == signs::END {
            return Ok(list);
        }
        if byte_at(text.as_bytes(), to) != signs::COMMA {
            return Err(SelectorFault::BadSelector);
        }
    }
    Err(SelectorFault::BadSelector)
}

fn commas_end(bytes: &[u8], at: usize) -> usize
    ensures { result ≡ commas_end bytes.now at }
{
    run_end(bytes, Class::Commas, at)
}

// The selectors of an argument from a place on.
#[cycle(descent)]
#[tactic(auto, unfolding(crate::specs::Reading::list_at))]
fn selectors_in(
    alloc: Global,
    text: &str,
    levels: u8,
    at: usize,
) -> Result<(List<Complex>, usize), SelectorFault>
    ensures { IsRead result (selectors_in text.now levels at) }
{
    if levels == 0 {
        return Err(SelectorFault::BadSelector);
    }
    let mut list = List::new(alloc);
    let mut place = at;
    'selectors: for _turn in 0..text.len() + 1 {
        let (complex, to) = complex_at(alloc, text, levels - 1, place)?;
        list.push(complex)?;
        if byte_at(text.as_bytes(), to) != signs::COMMA {
            return Ok((list, to));
        }
        place = to + 1;
    }
    Err(SelectorFault::BadSelector)
}

// A complex selector, and the place behind it.
#[cycle(descent)]
#[tactic(auto, unfolding(crate::specs::Reading::complex_at))]
fn complex_at(
    alloc: Global,
    text: &str,
    levels: u8,
    at: usize,
) -> Result<(Complex, usize), SelectorFault>
    ensures { IsRead result (complex_at (selectors_in text.now levels) text.now at) }
{
    let mut parts = List::new(alloc);
    let mut before = Before::Nothing;
    let mut place = at;
    'parts: for _turn in 0..text.len() + 1 {
        match turn_at(alloc, text, levels, before, place)? {
            Turn::Stops(to) => return Ok((parts, to)),
            Turn::Takes(part, behind, to) => {
                parts.push(part)?;
                before = behind;
                place = to;
            }
        }
    }
    Err(SelectorFault::BadSelector)
}

#[cycle(descent)]
fn turn_at(
    alloc: Global,
    text: &str,
    levels: u8,
    before: Before,
    at: usize,
) -> Result<Turn, SelectorFault>
    ensures { IsRead result (turn_at (selectors_in text.now levels) text.now before at) }
{
    let to = white(text.as_bytes(), at);
    spaced_turn(alloc, text, levels, before, at < to, to)
}

#[cycle(descent)]
#[tactic(auto, unfolding(crate::specs::Reading::spaced_turn))]
fn spaced_turn(
    alloc: Global,
    text: &str,
    levels: u8,
    before: Before,
    spaced: bool,
    at: usize,
) -> Result<Turn, SelectorFault>
    ensures { IsRead result (spaced_turn (selectors_in text.now levels) text.now before spaced at) }
{
    let byte = byte_at(text.as_bytes(), at);
    if ends_complex(byte) {
        return last_turn(before, at);
    }
    match combinator_of(byte) {
        None => plain_turn(alloc, text, levels, before, spaced, at),
        Some(combinator) => combinator_turn(before, combinator, at),
    }
}

fn last_turn(before: Before, at: usize) -> Result<Turn, SelectorFault>
    ensures { IsRead result (last_turn before at) }
{
    if is_simple(before) {
        return Ok(Turn::Stops(at));
    }
    Err(SelectorFault::BadSelector)
}

fn combinator_turn(before: Before, combinator: Combinator, at: usize) -> Result<Turn, SelectorFault>
    requires { at < 2 ^ 63 }
    ensures { IsRead result (combinator_turn before combinator at) }
{
    if is_joined(before) {
        return Err(SelectorFault::BadSelector);
    }
    Ok(Turn::Takes(Part::Combinator(combinator), Before::Combinator, at + 1))
}

#[cycle(descent)]
#[tactic(auto, unfolding(crate::specs::Reading::plain_turn))]
fn plain_turn(
    alloc: Global,
    text: &str,
    levels: u8,
    before: Before,
    spaced: bool,
    at: usize,
) -> Result<Turn, SelectorFault>
    requires { at < length text.now }
    ensures { IsRead result (plain_turn (selectors_in text.now levels) text.now before spaced at) }
{
    if spaced && is_simple(before) {
        return Ok(Turn::Takes(
            Part::Combinator(Combinator::Descendant),
            Before::Combinator,
            at,
        ));
    }
    let (part, to) = simple_at(alloc, text, levels, before, at)?;
    Ok(Turn::Takes(part, Before::Simple, to))
}

#[cycle(descent)]
#[tactic(auto, unfolding(crate::specs::Reading::simple_at))]
fn simple_at(
    alloc: Global,
    text: &str,
    levels: u8,
    before: Before,
    at: usize,
) -> Result<(Part, usize), SelectorFault>
    requires { at < length text.now }
    ensures { IsRead result (simple_at (selectors_in text.now levels) text.now before at) }
{
    let byte = byte_at(text.as_bytes(), at);
    if byte == signs::DOT || byte == signs::HASH {
        return class_at(alloc, text, at);
    }
    if byte == signs::PERCENT {
        return placeholder_at(alloc, text, at);
    }
    if byte == signs::OPEN_BRACKET {
        return attribute_at(alloc, text, at);
    }
    if byte == signs::COLON {
        return pseudo_at(alloc, text, levels, at);
    }
    head_at(alloc, text, before, at)
}

// What only begins a compound: `&`, or a type.
#[tactic(auto, unfolding(crate::specs::Reading::head_at))]
fn head_at(
    alloc: Global,
    text: &str,
    before: Before,
    at: usize,
) -> Result<(Part, usize), SelectorFault>
    requires { at < length text.now }
    ensures { IsRead result (head_at text.now before at) }
{
    if is_simple(before) {
        return Err(SelectorFault::BadSelector);
    }
    if byte_at(text.as_bytes(), at) == signs::AMPERSAND {
        return parent_at(alloc, text, at);
    }
    type_at(alloc, text, at)
}

#[cycle(descent)]
#[tactic(auto, unfolding(crate::specs::Reading::pseudo_at))]
fn pseudo_at(
    alloc: Global,
    text: &str,
    levels: u8,
    at: usize,
) -> Result<(Part, usize), SelectorFault>
    requires { at < length text.now }
    ensures { IsRead result (pseudo_at (selectors_in text.now levels) text.now at) }
{
    let start = colons_end(text.as_bytes(), at);
    if !begins_name(text.as_bytes(), start) {
        return Err(SelectorFault::BadSelector);
    }
    let to = name_end(text.as_bytes(), start);
    let name = name_text(alloc, text, at, start, to)?;
    pseudo_behind(alloc, text, levels, name, to)
}

// A pseudo of this name, which ends at a place.
#[cycle(descent)]
#[tactic(auto, unfolding(crate::specs::Reading::pseudo_behind))]
fn pseudo_behind(
    alloc: Global,
    text: &str,
    levels: u8,
    name: Name,
    at: usize,
) -> Result<(Part, usize), SelectorFault>
    ensures { IsRead result (pseudo_behind (selectors_in text.now levels) text.now name at) }
{
    if byte_at(text.as_bytes(), at) == signs::OPEN_PAREN {
        return argument_at(alloc, text, levels, name, at + 1);
    }
    Ok((Part::Named(name), at))
}

// A pseudo with these selectors as its argument, if it is closed at a place.
#[tactic(auto, unfolding(crate::specs::Reading::closed_by))]
fn closed_by(
    alloc: Global,
    text: &str,
    name: Name,
    list: List<Complex>,
    at: usize,
) -> Result<(Part, usize), SelectorFault>
    ensures { IsRead result (closed_by text.now name (Some (list, at))) }
{
    if byte_at(text.as_bytes(), at) != signs::CLOSE_PAREN {
        return Err(SelectorFault::BadSelector);
    }
    let selectors = Shared::new(alloc, list)?;
    Ok((Part::Pseudo { name, selectors }, at + 1))
}

#[cycle(descent)]
#[tactic(auto, unfolding(crate::specs::Reading::argument_at))]
fn argument_at(
    alloc: Global,
    text: &str,
    levels: u8,
    name: Name,
    at: usize,
) -> Result<(Part, usize), SelectorFault>
    ensures { IsRead result (argument_at (selectors_in text.now levels) text.now name at) }
{
    if !takes_selectors(name.as_str()) {
        return raw_at(alloc, text, name.as_str(), at);
    }
    let (list, to) = selectors_in(alloc, text, levels, at)?;
    closed_by(alloc, text, name, list, to)
}
