// What a list of parents allows an `&` in a child.
ghost use Rattle.std.specs.Prelude.{◌≡◌, true, false};
ghost use Rattle.sw_selector.specs.Nesting.{is_sign, is_sign_part, is_space_part, has_name, is_led, ends_in_name, ends_in_space, ends_with, ends_of};

use crate::{Combinator, Complex, Part};

/// How the parents begin and end: whether all end in a name, and whether one has a combinator in front.
#[derive(Clone, Copy)]
pub struct Ends {
    pub named: bool,
    pub led: bool,
}

fn is_sign(combinator: Combinator) -> bool
    ensures { result ≡ is_sign combinator }
{
    match combinator {
        Combinator::Descendant => false,
        _ => true,
    }
}

/// Whether a part is a combinator that is written with a sign.
#[tactic(auto, unfolding(crate::specs::Nesting::is_sign_part))]
pub fn is_sign_part(part: &Part) -> bool
    ensures { result ≡ is_sign_part part.now }
{
    match part {
        Part::Combinator(combinator) => is_sign(*combinator),
        _ => false,
    }
}

#[tactic(auto, unfolding(crate::specs::Nesting::is_space_part))]
fn is_space_part(part: &Part) -> bool
    ensures { result ≡ is_space_part part.now }
{
    match part {
        Part::Combinator(combinator) => !is_sign(*combinator),
        _ => false,
    }
}

#[tactic(auto, unfolding(crate::specs::Nesting::has_name))]
fn has_name(part: &Part) -> bool
    ensures { result ≡ has_name part.now }
{
    match part {
        Part::Named(_) => true,
        Part::Placeholder(_) => true,
        _ => false,
    }
}

/// Whether a combinator stands in front of a complex selector.
#[tactic(auto, unfolding(crate::specs::Nesting::is_led))]
pub fn is_led(complex: &[Part]) -> bool
    ensures { result ≡ is_led complex.now }
{
    match complex.first() {
        None => false,
        Some(part) => is_sign_part(part),
    }
}

#[tactic(auto, unfolding(crate::specs::Nesting::ends_in_name))]
fn ends_in_name(complex: &[Part]) -> bool
    ensures { result ≡ ends_in_name complex.now }
{
    match complex.last() {
        None => false,
        Some(part) => has_name(part),
    }
}

/// Whether the last part is the combinator that is written as white space; in the empty selector none is.
#[tactic(auto, unfolding(crate::specs::Nesting::ends_in_space))]
pub fn ends_in_space(complex: &[Part]) -> bool
    ensures { result ≡ ends_in_space complex.now }
{
    match complex.last() {
        None => false,
        Some(part) => is_space_part(part),
    }
}

fn ends_with(ends: Ends, complex: &[Part]) -> Ends
    ensures { result ≡ ends_with ends complex.now }
{
    Ends {
        named: ends.named && ends_in_name(complex),
        led: ends.led || is_led(complex),
    }
}

/// How these parents begin and end. Of no parents, all end in a name and none has a combinator in front.
#[tactic(auto, unfolding(crate::specs::Nesting::ends_of))]
pub fn ends_of(list: &[Complex]) -> Ends
    ensures { result ≡ ends_of list.now }
{
    let mut ends = Ends {
        named: true,
        led: false,
    };
    'list: for complex in list {
        ends = ends_with(ends, complex.as_slice());
    }
    ends
}
