// A parent in the place of `&`.
ghost use Rattle.std.specs.Prelude.{◌≡◌, ◌∷◌, ◌++◌, [], List, map, IfOk, OnOk};
ghost use Rattle.std.specs.String.{string_bytes};
ghost use Rattle.sw_selector.specs.Nesting.{suffixed_part, suffixed, opened, part_spliced, parts_spliced, spliced};
ghost use Rattle.sw_selector.specs.declared.selector.Part.{Part};

use crate::parents::{ends_in_space, is_led};
use crate::{Complex, Part};
use std::alloc::Global;
use sw_text::{List, Memory, Name};

impl Part {
    /// One more owner of the same part, in constant time.
    pub fn share(&self) -> Result<Part, Memory>
        ensures { IfOk result (λ part. part ≡ self.now) }
    {
        match self {
            Part::Combinator(combinator) => Ok(Part::Combinator(*combinator)),
            Part::Parent(suffix) => Ok(Part::Parent(suffix.share()?)),
            Part::Named(name) => Ok(Part::Named(name.share()?)),
            Part::Placeholder(name) => Ok(Part::Placeholder(name.share()?)),
            Part::Closed(text) => Ok(Part::Closed(text.share()?)),
            Part::Pseudo { name, selectors } => Ok(Part::Pseudo {
                name: name.share()?,
                selectors: selectors.share()?,
            }),
        }
    }
}

/// Puts these parts behind others.
pub fn push_parts(out: &mut Complex, parts: &[Part]) -> Result<(), Memory>
    ensures { OnOk result (out.new ≡ out.old ++ parts.now) }
{
    'parts: for part in parts {
        out.push(part.share()?)?;
    }
    Ok(())
}

fn joined_name(alloc: Global, name: &str, suffix: &str) -> Result<Name, Memory>
    ensures { IfOk result (λ text. text ≡ name.now ++ suffix.now) }
{
    let mut text = String::new(alloc);
    text.push_str(name)?;
    text.push_str(suffix)?;
    Name::new(alloc, text.as_str())
}

#[tactic(auto, unfolding(crate::specs::Nesting::suffixed_part))]
fn suffixed_part(alloc: Global, suffix: &str, part: &Part) -> Result<Part, Memory>
    ensures { IfOk result (λ whole. whole ≡ suffixed_part suffix.now part.now) }
{
    match part {
        Part::Named(name) => Ok(Part::Named(joined_name(alloc, name.as_str(), suffix)?)),
        Part::Placeholder(name) => Ok(Part::Placeholder(joined_name(
            alloc,
            name.as_str(),
            suffix,
        )?)),
        _ => part.share(),
    }
}

/// Puts the parent behind other parts, with the suffix added to its last simple selector.
#[tactic(auto, unfolding(crate::specs::Nesting::suffixed))]
fn push_suffixed(
    alloc: Global,
    out: &mut Complex,
    parent: &[Part],
    suffix: &str,
) -> Result<(), Memory>
    ensures { OnOk result (out.new ≡ out.old ++ suffixed parent.now suffix.now) }
{
    if suffix.is_empty() {
        return push_parts(out, parent);
    }
    match parent.last() {
        None => Ok(()),
        Some(last) => {
            push_parts(out, &parent[..parent.len() - 1])?;
            out.push(suffixed_part(alloc, suffix, last)?)
        }
    }
}

// White space before a parent with a combinator in front is that combinator.
#[tactic(auto, unfolding(crate::specs::Nesting::opened))]
fn drop_space(out: &mut Complex, parent: &[Part])
    ensures { out.new ≡ opened parent.now out.old }
{
    if is_led(parent) && ends_in_space(out.as_slice()) {
        let rest = out.len().saturating_sub(1);
        out.truncate(rest);
    }
}

#[tactic(auto, unfolding(crate::specs::Nesting::part_spliced))]
fn push_spliced(
    alloc: Global,
    out: &mut Complex,
    parent: &[Part],
    part: &Part,
) -> Result<(), Memory>
    ensures { OnOk result (out.new ≡ part_spliced parent.now out.old part.now) }
{
    match part {
        Part::Parent(suffix) => {
            drop_space(out, parent);
            push_suffixed(alloc, out, parent, suffix.as_str())
        }
        _ => out.push(part.share()?),
    }
}

/// The complex selector with the parent in the place of each `&` outside its pseudos.
#[tactic(auto, unfolding(crate::specs::Nesting::spliced))]
pub fn spliced(alloc: Global, parent: &[Part], complex: &[Part]) -> Result<Complex, Memory>
    ensures { IfOk result (λ whole. whole ≡ spliced parent.now complex.now) }
{
    let mut out = List::new(alloc);
    'parts: for part in complex {
        push_spliced(alloc, &mut out, parent, part)?;
    }
    Ok(out)
}

/// Puts the complex selector behind others once for each parent.
#[tactic(auto, using(crate::proofs::Turns::map_turn))]
pub fn push_all_spliced(
    alloc: Global,
    list: &mut List<Complex>,
    parents: &[Complex],
    complex: &[Part],
) -> Result<(), Memory>
    ensures { OnOk result (list.new
        ≡ list.old ++ map (λ (parent : List Part). spliced parent complex.now) parents.now) }
{
    'parents: for parent in parents {
        list.push(spliced(alloc, parent.as_slice(), complex)?)?;
    }
    Ok(())
}
