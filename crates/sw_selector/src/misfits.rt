// Children that can't be nested.
ghost use Rattle.std.specs.Prelude.{◌≡◌, ◌≤◌, false};
ghost use Rattle.sw_selector.specs.Depth.{list_depth};
ghost use Rattle.sw_selector.specs.Nesting.{is_sign_part, part_joined, joined_behind, complex_joined, some_joined, misfits, too_deep};

use crate::depth::list_depth;
use crate::holds::{Sought, is_reference, some_holds};
use crate::parents::{ends_of, is_sign_part};
use crate::reader::LEVELS;
use crate::{Complex, Part};

#[cycle(joined)]
#[tactic(auto, using(crate::proofs::Unrolled::joined_pseudo, crate::proofs::Unrolled::joined_parent, crate::proofs::Unrolled::joined_placeholder, crate::proofs::Unrolled::joined_combinator, crate::proofs::Unrolled::joined_named, crate::proofs::Unrolled::joined_closed))]
fn part_joined(part: &Part) -> bool
    ensures { result ≡ part_joined part.now }
{
    match part {
        Part::Pseudo { selectors, .. } => some_joined(selectors.get().as_slice()),
        Part::Combinator(_) => false,
        Part::Parent(_) => false,
        Part::Named(_) => false,
        Part::Placeholder(_) => false,
        Part::Closed(_) => false,
    }
}

// Whether a part is an `&` behind a combinator's sign, or has one in it.
#[cycle(joined)]
fn joined_behind(before: bool, part: &Part) -> bool
    ensures { result ≡ joined_behind before part.now }
{
    (before && is_reference(part)) || part_joined(part)
}

#[cycle(joined)]
#[tactic(auto, using(crate::proofs::Turns::joined_turn))]
fn complex_joined(complex: &[Part]) -> bool
    ensures { result ≡ complex_joined false complex.now }
{
    let mut found = false;
    let mut before = false;
    'parts: for part in complex {
        found = found || joined_behind(before, part);
        before = is_sign_part(part);
    }
    found
}

// Whether a combinator's sign stands before an `&` in one of these.
#[cycle(joined)]
#[tactic(auto, using(crate::proofs::Turns::any_turn))]
fn some_joined(list: &[Complex]) -> bool
    ensures { result ≡ some_joined list.now }
{
    let mut found = false;
    'list: for complex in list {
        found = found || complex_joined(complex.as_slice());
    }
    found
}

/// Whether a child can't be nested in these parents: it has a suffix and a parent doesn't end in a name, or a
/// combinator would stand beside another.
pub fn misfits(parents: &[Complex], child: &[Complex]) -> bool
    ensures { result ≡ misfits parents.now child.now }
{
    let ends = ends_of(parents);
    (!ends.named && some_holds(Sought::Suffix, child)) || (ends.led && some_joined(child))
}

/// Whether too many pseudos would stand in each other.
pub fn too_deep(parents: &[Complex], child: &[Complex]) -> bool
    requires { list_depth 0 parents.now ≤ LEVELS }
    ensures { result ≡ too_deep parents.now child.now }
{
    list_depth(list_depth(0, parents), child) > LEVELS
}
