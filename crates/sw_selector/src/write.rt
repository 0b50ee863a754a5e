// How selectors are written.
ghost use Rattle.std.specs.Prelude.{◌≡◌, ◌≤◌, ◌++◌, ◌∷◌, [], List, length, IfOk, OnOk, MatchOption, true, codes, if◌then◌else◌};
ghost use Rattle.std.specs.String.{string_bytes};
ghost use Rattle.sw_selector.specs.declared.selector.Part.{Part};
ghost use Rattle.sw_selector.specs.Writing.{combinator_text, part_text, parts_text, separator, list_text, written, text_of};

use crate::holds::{Sought, complex_holds};
use crate::room::{behind_parts, behind_separator};
use crate::{Combinator, Complex, Part, Selectors};
use std::alloc::Global;
use sw_text::{Memory, Name};

impl Selectors {
    /// The selectors as CSS has them, without the complex selectors in which a placeholder stands, also in a pseudo: `,
    /// ` between them, combinators with spaces. The text is empty where all have a placeholder.
    pub fn write(&self, alloc: Global) -> Result<Name, Memory>
        ensures { IfOk result (λ text. text ≡ text_of self.now) }
    {
        let text = text_of(alloc, self.as_slice())?;
        Name::new(alloc, text.as_str())
    }

    /// The same where it has fewer bytes than this; `None` where it has as many, and then no more than these are looked
    /// at or written.
    pub fn write_within(&self, alloc: Global, bytes: usize) -> Result<Option<Name>, Memory>
        ensures { IfOk result (λ text. MatchOption text (bytes ≤ length (text_of self.now))
            (λ whole. whole ≡ text_of self.now)) }
    {
        match text_within(alloc, bytes, self.as_slice())? {
            Some(text) => Ok(Some(Name::new(alloc, text.as_str())?)),
            None => Ok(None),
        }
    }
}

// Each complex selector is counted before it is written.
#[tactic(auto, using(crate::proofs::Rooms::shown_turn, crate::proofs::Rooms::hidden_turn, crate::proofs::Rooms::none_left))]
fn text_within(alloc: Global, bytes: usize, list: &[Complex]) -> Result<Option<String>, Memory>
    ensures { IfOk result (λ text. MatchOption text (bytes ≤ length (text_of list.now))
        (λ whole. string_bytes whole ≡ text_of list.now)) }
{
    let mut out = String::new(alloc);
    let mut left = bytes;
    let mut first = true;
    'list: for complex in list {
        if complex_holds(Sought::Placeholder, complex.as_slice()) {
            continue;
        }
        left = behind_parts(behind_separator(left, first), complex.as_slice());
        if left == 0 {
            return Ok(None);
        }
        separate(&mut out, first)?;
        write_parts(alloc, &mut out, complex.as_slice())?;
        first = false;
    }
    Ok(Some(out))
}

fn text_of(alloc: Global, list: &[Complex]) -> Result<String, Memory>
    ensures { IfOk result (λ text. string_bytes text ≡ text_of list.now) }
{
    let mut out = String::new(alloc);
    let mut first = true;
    'list: for complex in list {
        first = write_shown(alloc, &mut out, first, complex.as_slice())?;
    }
    Ok(out)
}

// Writes a complex selector without a placeholder; whether the next one that is written is the first.
fn write_shown(
    alloc: Global,
    out: &mut String,
    first: bool,
    complex: &[Part],
) -> Result<bool, Memory>
    ensures { IfOk result (λ after. (rest : List (List Part))
        → string_bytes out.new ++ written after rest ≡ string_bytes out.old ++ written first (complex.now ∷ rest)) }
{
    if complex_holds(Sought::Placeholder, complex) {
        return Ok(first);
    }
    separate(out, first)?;
    write_parts(alloc, out, complex)?;
    Ok(false)
}

fn separate(out: &mut String, first: bool) -> Result<(), Memory>
    ensures { OnOk result (string_bytes out.new ≡ string_bytes out.old ++ separator first) }
{
    if !first {
        out.push_str(", ")?;
    }
    Ok(())
}

#[tactic(auto, unfolding(crate::specs::Writing::combinator_text))]
fn write_combinator(out: &mut String, first: bool, combinator: Combinator) -> Result<(), Memory>
    ensures { OnOk result (string_bytes out.new ≡ string_bytes out.old ++ combinator_text first combinator) }
{
    match combinator {
        Combinator::Descendant => {
            out.push_str(" ")?;
            Ok(())
        }
        Combinator::Child => write_sign(out, first, ">"),
        Combinator::Next => write_sign(out, first, "+"),
        Combinator::Subsequent => write_sign(out, first, "~"),
    }
}

fn write_sign(out: &mut String, first: bool, sign: &str) -> Result<(), Memory>
    ensures { OnOk result (string_bytes out.new
        ≡ string_bytes out.old ++ ((if first then [] else codes " ") ++ sign.now ++ codes " ")) }
{
    if !first {
        out.push_str(" ")?;
    }
    out.push_str(sign)?;
    out.push_str(" ")?;
    Ok(())
}

/// Writes a part behind what is written; a sign that comes first in its selector has no space before it.
/// After `Memory`, which comes exactly where none was found, a part of it may be written.
#[cycle(write)]
#[tactic(auto, using(crate::proofs::Unrolled::text_pseudo, crate::proofs::Unrolled::text_parent, crate::proofs::Unrolled::text_placeholder, crate::proofs::Unrolled::text_combinator, crate::proofs::Unrolled::text_named, crate::proofs::Unrolled::text_closed))]
pub fn write_part(alloc: Global, out: &mut String, first: bool, part: &Part) -> Result<(), Memory>
    ensures { OnOk result (string_bytes out.new ≡ string_bytes out.old ++ part_text part.now first) }
{
    match part {
        Part::Combinator(combinator) => write_combinator(out, first, *combinator),
        Part::Parent(suffix) => write_reference(out, suffix),
        Part::Named(name) => push_name(out, name),
        Part::Placeholder(name) => push_name(out, name),
        Part::Closed(text) => push_name(out, text),
        Part::Pseudo { name, selectors } => {
            let argument = list_text(alloc, selectors.get().as_slice())?;
            write_pseudo(out, name, argument.as_str())
        }
    }
}

fn write_reference(out: &mut String, suffix: &Name) -> Result<(), Memory>
    ensures { OnOk result (string_bytes out.new ≡ string_bytes out.old ++ (codes "&" ++ suffix.now)) }
{
    out.push_str("&")?;
    out.push_str(suffix.as_str())?;
    Ok(())
}

fn push_name(out: &mut String, name: &Name) -> Result<(), Memory>
    ensures { OnOk result (string_bytes out.new ≡ string_bytes out.old ++ name.now) }
{
    out.push_str(name.as_str())?;
    Ok(())
}

fn write_pseudo(out: &mut String, name: &Name, argument: &str) -> Result<(), Memory>
    ensures { OnOk result (string_bytes out.new
        ≡ string_bytes out.old ++ (name.now ++ codes "(" ++ argument.now ++ codes ")")) }
{
    out.push_str(name.as_str())?;
    out.push_str("(")?;
    out.push_str(argument)?;
    out.push_str(")")?;
    Ok(())
}

#[cycle(write)]
fn write_parts(alloc: Global, out: &mut String, parts: &[Part]) -> Result<(), Memory>
    ensures { OnOk result (string_bytes out.new ≡ string_bytes out.old ++ parts_text true parts.now) }
{
    let mut first = true;
    'parts: for part in parts {
        write_part(alloc, out, first, part)?;
        first = false;
    }
    Ok(())
}

#[cycle(write)]
fn list_text(alloc: Global, list: &[Complex]) -> Result<String, Memory>
    ensures { IfOk result (λ text. string_bytes text ≡ list_text true list.now) }
{
    let mut out = String::new(alloc);
    let mut first = true;
    'list: for complex in list {
        separate(&mut out, first)?;
        write_parts(alloc, &mut out, complex.as_slice())?;
        first = false;
    }
    Ok(out)
}
