// Children whose pseudos are nested.
ghost use Rattle.std.specs.Prelude.{◌≡◌, ◌∷◌, ◌++◌, [], map, IfOk, OnOk};
ghost use Rattle.sw_selector.specs.Nesting.{part_prepared, parts_prepared, inner_by, inner_of, inner_nested, prepared};

use crate::holds::{Sought, complex_holds, refers};
use crate::splice::push_all_spliced;
use crate::{Complex, Part};
use std::alloc::Global;
use sw_text::{List, Memory, Shared};

/// A child whose pseudos are nested, and whether `&` stands in it.
#[derive(Drop)]
pub struct Prepared {
    pub refers: bool,
    pub parts: Complex,
}

#[cycle(prepare)]
#[tactic(auto, using(crate::proofs::Unrolled::prepared_pseudo, crate::proofs::Unrolled::prepared_parent, crate::proofs::Unrolled::prepared_placeholder, crate::proofs::Unrolled::prepared_combinator, crate::proofs::Unrolled::prepared_named, crate::proofs::Unrolled::prepared_closed))]
fn part_prepared(alloc: Global, parents: &[Complex], part: &Part) -> Result<Part, Memory>
    ensures { IfOk result (λ whole. whole ≡ part_prepared parents.now part.now) }
{
    match part {
        Part::Pseudo { name, selectors } => {
            let list = inner_nested(alloc, parents, selectors.get().as_slice())?;
            Ok(Part::Pseudo {
                name: name.share()?,
                selectors: Shared::new(alloc, list)?,
            })
        }
        Part::Combinator(_) => part.share(),
        Part::Parent(_) => part.share(),
        Part::Named(_) => part.share(),
        Part::Placeholder(_) => part.share(),
        Part::Closed(_) => part.share(),
    }
}

#[cycle(prepare)]
#[tactic(auto, using(crate::proofs::Turns::map_turn))]
fn parts_prepared(alloc: Global, parents: &[Complex], parts: &[Part]) -> Result<Complex, Memory>
    ensures { IfOk result (λ whole. whole ≡ parts_prepared parents.now parts.now) }
{
    let mut out = List::new(alloc);
    'parts: for part in parts {
        let whole = part_prepared(alloc, parents, part)?;
        out.push(whole)?;
    }
    Ok(out)
}

// Puts a selector of an argument behind others: once for each parent where `&` stands in it.
#[tactic(auto, unfolding(crate::specs::Nesting::inner_by))]
fn push_inner(
    alloc: Global,
    list: &mut List<Complex>,
    parents: &[Complex],
    complex: Complex,
) -> Result<(), Memory>
    ensures { OnOk result (list.new ≡ list.old ++ inner_of parents.now complex) }
{
    if refers(complex.as_slice()) {
        return push_all_spliced(alloc, list, parents, complex.as_slice());
    }
    list.push(complex)
}

#[cycle(prepare)]
#[tactic(auto, using(crate::proofs::Turns::flat_turn))]
fn inner_nested(
    alloc: Global,
    parents: &[Complex],
    list: &[Complex],
) -> Result<List<Complex>, Memory>
    ensures { IfOk result (λ whole. whole ≡ inner_nested parents.now list.now) }
{
    let mut out = List::new(alloc);
    'list: for complex in list {
        let parts = parts_prepared(alloc, parents, complex.as_slice())?;
        push_inner(alloc, &mut out, parents, parts)?;
    }
    Ok(out)
}

#[tactic(auto, unfolding(crate::specs::Nesting::prepared))]
fn prepare_child(alloc: Global, parents: &[Complex], complex: &[Part]) -> Result<Prepared, Memory>
    ensures { IfOk result (λ child. child ≡ prepared parents.now complex.now) }
{
    let refers = complex_holds(Sought::Parent, complex);
    let parts = parts_prepared(alloc, parents, complex)?;
    Ok(Prepared { refers, parts })
}

/// The children, whose pseudos are nested in these parents.
#[tactic(auto, using(crate::proofs::Turns::map_turn))]
pub fn all_prepared(
    alloc: Global,
    parents: &[Complex],
    list: &[Complex],
) -> Result<List<Prepared>, Memory>
    ensures { IfOk result (λ children. children ≡ map (prepared parents.now) list.now) }
{
    let mut out = List::new(alloc);
    'list: for complex in list {
        let child = prepare_child(alloc, parents, complex.as_slice())?;
        out.push(child)?;
    }
    Ok(out)
}
