// What stands in selectors, also inside pseudos.
ghost use Rattle.std.specs.Prelude.{◌≡◌};
ghost use Rattle.std.specs.List.{list_any};
ghost use Rattle.sw_selector.specs.Holds.{is_parent, is_placeholder, part_has, complex_holds, some_holds, is_reference, refers};

use crate::{Complex, Part};

/// What is looked for.
#[derive(Clone, Copy, Debug, PartialEq, Eq)]
pub enum Sought {
    /// `&`
    Parent,
    /// `&` with name characters directly behind it.
    Suffix,
    Placeholder,
}

fn is_parent(sought: Sought, suffix: &str) -> bool
    ensures { result ≡ is_parent sought suffix.now }
{
    match sought {
        Sought::Parent => true,
        Sought::Suffix => !suffix.is_empty(),
        Sought::Placeholder => false,
    }
}

fn is_placeholder(sought: Sought) -> bool
    ensures { result ≡ is_placeholder sought }
{
    match sought {
        Sought::Placeholder => true,
        _ => false,
    }
}

#[cycle(holds)]
#[tactic(auto, using(crate::proofs::Unrolled::has_parent, crate::proofs::Unrolled::has_placeholder, crate::proofs::Unrolled::has_pseudo, crate::proofs::Unrolled::has_combinator, crate::proofs::Unrolled::has_named, crate::proofs::Unrolled::has_closed))]
fn part_has(sought: Sought, part: &Part) -> bool
    ensures { result ≡ part_has sought part.now }
{
    match part {
        Part::Parent(suffix) => is_parent(sought, suffix.as_str()),
        Part::Placeholder(_) => is_placeholder(sought),
        Part::Pseudo { selectors, .. } => some_holds(sought, selectors.get().as_slice()),
        Part::Combinator(_) => false,
        Part::Named(_) => false,
        Part::Closed(_) => false,
    }
}

/// Whether it stands in a complex selector.
#[cycle(holds)]
#[tactic(auto, using(crate::proofs::Turns::any_turn))]
pub fn complex_holds(sought: Sought, complex: &[Part]) -> bool
    ensures { result ≡ complex_holds sought complex.now }
{
    let mut found = false;
    'parts: for part in complex {
        found = found || part_has(sought, part);
    }
    found
}

/// Whether it stands in one of these complex selectors.
#[cycle(holds)]
#[tactic(auto, using(crate::proofs::Turns::any_turn))]
pub fn some_holds(sought: Sought, list: &[Complex]) -> bool
    ensures { result ≡ some_holds sought list.now }
{
    let mut found = false;
    'list: for complex in list {
        found = found || complex_holds(sought, complex.as_slice());
    }
    found
}

/// Whether a part is an `&`.
#[tactic(auto, unfolding(crate::specs::Holds::is_reference))]
pub fn is_reference(part: &Part) -> bool
    ensures { result ≡ is_reference part.now }
{
    match part {
        Part::Parent(_) => true,
        _ => false,
    }
}

/// Whether `&` stands in a complex selector outside pseudos.
#[tactic(auto, using(crate::proofs::Turns::any_turn))]
pub fn refers(complex: &[Part]) -> bool
    ensures { result ≡ refers complex.now }
{
    let mut found = false;
    'parts: for part in complex {
        found = found || is_reference(part);
    }
    found
}
