// Selectors nested in each other.
ghost use Rattle.std.specs.Prelude.{◌≡◌, ◌≤◌, ◌∷◌, ◌++◌, [], List, map, IfOk, OnOk, Ok};
ghost use Rattle.std.specs.List.{flat_map};
ghost use Rattle.sw_selector.specs.declared.selector.Part.{Part};
ghost use Rattle.sw_selector.specs.Depth.{list_depth};
ghost use Rattle.sw_selector.specs.Reading.{IsAnswer};
ghost use Rattle.sw_selector.specs.Nesting.{descended, nested, all_nested, too_many, under_by, alone_by, nest_by};

use crate::holds::{Sought, some_holds};
use crate::misfits::{misfits, too_deep};
use crate::parents::is_led;
use crate::prepare::{Prepared, all_prepared};
use crate::reader::{LEVELS, MOST_SELECTORS};
use crate::splice::{push_parts, spliced};
use crate::{Combinator, Complex, Part, SelectorFault, Selectors};
use std::alloc::Global;
use sw_text::{List, Memory};

/// The child's selectors nested in the parent's, with the parents as outer loop: a child without `&` stands behind its
/// parent and white space, or by itself with `at_root`; in any other each `&` is the parent. Refused are, in this
/// order: `NoParent`, an `&` without a parent; `BadSelector`, where a suffix has no name to be added to, a combinator
/// would stand beside another, or more than 128 pseudos would stand in each other; `TooLarge`, exactly where there
/// would be more than 10,000 complex selectors.
pub fn nest(
    alloc: Global,
    parent: Option<&Selectors>,
    child: &Selectors,
    at_root: bool,
) -> Result<Selectors, SelectorFault>
    ensures { IsAnswer result (nest_by at_root parent.entry child.now) }
{
    match parent {
        None => nested_alone(alloc, child.as_slice()),
        Some(parent) => nested_under(alloc, parent.as_slice(), child.as_slice(), at_root),
    }
}

fn nested_alone(alloc: Global, child: &[Complex]) -> Result<Selectors, SelectorFault>
    requires { list_depth 0 child.now ≤ LEVELS }
    ensures { IsAnswer result (alone_by child.now) }
{
    if some_holds(Sought::Parent, child) {
        return Err(SelectorFault::NoParent);
    }
    if child.len() > MOST_SELECTORS {
        return Err(SelectorFault::TooLarge);
    }
    let list = shared(alloc, child)?;
    Ok(Selectors::new(list))
}

fn shared(alloc: Global, list: &[Complex]) -> Result<List<Complex>, Memory>
    ensures { IfOk result (λ whole. whole ≡ list.now) }
{
    let mut out = List::new(alloc);
    'list: for complex in list {
        out.push(shared_complex(alloc, complex.as_slice())?)?;
    }
    Ok(out)
}

fn shared_complex(alloc: Global, complex: &[Part]) -> Result<Complex, Memory>
    ensures { IfOk result (λ whole. whole ≡ complex.now) }
{
    let mut out = List::new(alloc);
    push_parts(&mut out, complex)?;
    Ok(out)
}

fn nested_under(
    alloc: Global,
    parents: &[Complex],
    child: &[Complex],
    at_root: bool,
) -> Result<Selectors, SelectorFault>
    requires { list_depth 0 parents.now ≤ LEVELS }
    ensures { IsAnswer result (under_by at_root parents.now child.now) }
{
    if misfits(parents, child) || too_deep(parents, child) {
        return Err(SelectorFault::BadSelector);
    }
    if too_many(parents, child) {
        return Err(SelectorFault::TooLarge);
    }
    let list = all_nested(alloc, at_root, parents, child)?;
    Ok(Selectors::new(list))
}

fn too_many(parents: &[Complex], child: &[Complex]) -> bool
    ensures { result ≡ too_many parents.now child.now }
{
    match parents.len().checked_mul(child.len()) {
        None => true,
        Some(count) => count > MOST_SELECTORS,
    }
}

#[tactic(auto, unfolding(crate::specs::Nesting::all_nested))]
fn all_nested(
    alloc: Global,
    at_root: bool,
    parents: &[Complex],
    child: &[Complex],
) -> Result<List<Complex>, Memory>
    ensures { IfOk result (λ whole. whole ≡ all_nested at_root parents.now child.now) }
{
    let children = all_prepared(alloc, parents, child)?;
    let mut out = List::new(alloc);
    push_parents(alloc, &mut out, at_root, parents, children.as_slice())?;
    Ok(out)
}

#[tactic(auto, using(crate::proofs::Turns::flat_turn))]
fn push_parents(
    alloc: Global,
    out: &mut List<Complex>,
    at_root: bool,
    parents: &[Complex],
    children: &[Prepared],
) -> Result<(), Memory>
    ensures { OnOk result (out.new
        ≡ out.old ++ flat_map (λ (parent : List Part). map (nested at_root parent) children.now) parents.now) }
{
    'parents: for parent in parents {
        push_children(alloc, out, at_root, parent.as_slice(), children)?;
    }
    Ok(())
}

#[tactic(auto, using(crate::proofs::Turns::map_turn))]
fn push_children(
    alloc: Global,
    out: &mut List<Complex>,
    at_root: bool,
    parent: &[Part],
    children: &[Prepared],
) -> Result<(), Memory>
    ensures { OnOk result (out.new ≡ out.old ++ map (nested at_root parent.now) children.now) }
{
    'children: for child in children {
        out.push(nested(alloc, at_root, parent, child)?)?;
    }
    Ok(())
}

#[tactic(auto, unfolding(crate::specs::Nesting::nested))]
fn nested(
    alloc: Global,
    at_root: bool,
    parent: &[Part],
    child: &Prepared,
) -> Result<Complex, Memory>
    ensures { IfOk result (λ whole. whole ≡ nested at_root parent.now child.now) }
{
    if child.refers {
        return spliced(alloc, parent, child.parts.as_slice());
    }
    if at_root {
        return shared_complex(alloc, child.parts.as_slice());
    }
    descended(alloc, parent, child.parts.as_slice())
}

#[tactic(auto, unfolding(crate::specs::Nesting::descended))]
fn descended(alloc: Global, parent: &[Part], child: &[Part]) -> Result<Complex, Memory>
    ensures { IfOk result (λ whole. whole ≡ descended parent.now child.now) }
{
    let mut out = List::new(alloc);
    push_parts(&mut out, parent)?;
    if !is_led(child) {
        out.push(Part::Combinator(Combinator::Descendant))?;
    }
    push_parts(&mut out, child)?;
    Ok(out)
}
