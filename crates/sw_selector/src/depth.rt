// How deep pseudos with selectors stand in each other.
ghost use Rattle.std.specs.Prelude.{◌≡◌, min};
ghost use Rattle.sw_selector.specs.Depth.{part_depth, complex_depth, list_depth};

use crate::{Complex, Part};

#[cycle(depth)]
#[tactic(auto, using(crate::proofs::Unrolled::depth_parent, crate::proofs::Unrolled::depth_placeholder, crate::proofs::Unrolled::depth_pseudo, crate::proofs::Unrolled::depth_combinator, crate::proofs::Unrolled::depth_named, crate::proofs::Unrolled::depth_closed))]
fn part_depth(under: u8, part: &Part) -> u8
    ensures { result ≡ min u8.MAX (part_depth under part.now) }
{
    match part {
        Part::Parent(_) => under,
        Part::Pseudo { selectors, .. } => {
            list_depth(under, selectors.get().as_slice()).saturating_add(1)
        }
        Part::Combinator(_) => 0,
        Part::Named(_) => 0,
        Part::Placeholder(_) => 0,
        Part::Closed(_) => 0,
    }
}

#[cycle(depth)]
#[tactic(auto, using(crate::proofs::Turns::greatest_turn))]
fn complex_depth(under: u8, complex: &[Part]) -> u8
    ensures { result ≡ min u8.MAX (complex_depth under complex.now) }
{
    let mut deepest = 0;
    'parts: for part in complex {
        deepest = deepest.max(part_depth(under, part));
    }
    deepest
}

/// How deep pseudos with selectors stand in each other in these complex selectors, where so deep a parent stands for
/// each `&`; 255 where they are deeper.
#[cycle(depth)]
#[tactic(auto, using(crate::proofs::Turns::greatest_turn))]
pub fn list_depth(under: u8, list: &[Complex]) -> u8
    ensures { result ≡ min u8.MAX (list_depth under list.now) }
{
    let mut deepest = 0;
    'list: for complex in list {
        deepest = deepest.max(complex_depth(under, complex.as_slice()));
    }
    deepest
}
