// How much of a limit is left behind what is written, with no look at more parts than the limit has bytes.
ghost use Rattle.std.specs.Prelude.{◌≡◌, ◌+◌, ◌-◌, length, true, if◌then◌else◌};
ghost use Rattle.sw_selector.specs.Writing.{combinator_text, part_text, parts_text, list_text, separator};

use crate::{Combinator, Complex, Part};
use sw_text::Name;

#[tactic(auto, unfolding(crate::specs::Writing::combinator_text))]
fn combinator_size(first: bool, combinator: Combinator) -> usize
    ensures { result ≡ length (combinator_text first combinator) }
{
    match combinator {
        Combinator::Descendant => 1,
        Combinator::Child => sign_size(first),
        Combinator::Next => sign_size(first),
        Combinator::Subsequent => sign_size(first),
    }
}

// A sign with its spaces.
fn sign_size(first: bool) -> usize
    ensures { result ≡ (if first then 2 else 3) }
{
    if first { 2 } else { 3 }
}

// What is left of a room behind a name and some more bytes.
fn behind_name(room: usize, name: &Name, more: usize) -> usize
    ensures { result ≡ room - (length name.now + more) }
{
    room.saturating_sub(name.as_str().len())
        .saturating_sub(more)
}

/// What is left behind what stands before a complex selector.
pub fn behind_separator(room: usize, first: bool) -> usize
    ensures { result ≡ room - length (separator first) }
{
    if first { room } else { room.saturating_sub(2) }
}

#[cycle(room)]
#[tactic(auto, using(crate::proofs::Rooms::pseudo_room, crate::proofs::Rooms::size_parent, crate::proofs::Rooms::size_placeholder, crate::proofs::Rooms::size_combinator, crate::proofs::Rooms::size_named, crate::proofs::Rooms::size_closed))]
fn behind_part(room: usize, first: bool, part: &Part) -> usize
    ensures { result ≡ room - length (part_text part.now first) }
{
    match part {
        Part::Combinator(combinator) => room.saturating_sub(combinator_size(first, *combinator)),
        Part::Parent(suffix) => behind_name(room, suffix, 1),
        Part::Named(name) => behind_name(room, name, 0),
        Part::Placeholder(name) => behind_name(room, name, 0),
        Part::Closed(text) => behind_name(room, text, 0),
        Part::Pseudo { name, selectors } => {
            behind_list(behind_name(room, name, 2), selectors.get().as_slice())
        }
    }
}

/// What is left behind a complex selector.
#[cycle(room)]
#[tactic(auto, using(crate::proofs::Rooms::parts_turn))]
pub fn behind_parts(room: usize, parts: &[Part]) -> usize
    ensures { result ≡ room - length (parts_text true parts.now) }
{
    let mut left = room;
    let mut first = true;
    'parts: for part in parts {
        if left == 0 {
            return 0;
        }
        left = behind_part(left, first, part);
        first = false;
    }
    left
}

#[cycle(room)]
#[tactic(auto, using(crate::proofs::Rooms::list_turn))]
fn behind_list(room: usize, list: &[Complex]) -> usize
    ensures { result ≡ room - length (list_text true list.now) }
{
    let mut left = room;
    let mut first = true;
    'list: for complex in list {
        if left == 0 {
            return 0;
        }
        left = behind_parts(behind_separator(left, first), complex.as_slice());
        first = false;
    }
    left
}
