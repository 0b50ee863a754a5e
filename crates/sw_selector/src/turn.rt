// Where in a complex selector a reader stands.
ghost use Rattle.std.specs.Prelude.{◌≡◌};
ghost use Rattle.sw_selector.specs.Reading.{is_simple, is_joined, combinator_of, ends_complex};

use crate::{Combinator, Part};
use sw_text_scan::signs;

/// What stands before a place in a complex selector.
#[derive(Clone, Copy, Debug, PartialEq, Eq)]
pub enum Before {
    Nothing,
    Combinator,
    Simple,
}

/// What stands at a place in a complex selector: its end, or one more part, with what is before the place behind it.
#[derive(Drop)]
pub enum Turn {
    Stops(usize),
    Takes(Part, Before, usize),
}

/// Whether a simple selector stands before the place.
pub fn is_simple(before: Before) -> bool
    ensures { result ≡ is_simple before }
{
    match before {
        Before::Simple => true,
        _ => false,
    }
}

/// Whether a combinator stands before the place, which a compound has to follow.
pub fn is_joined(before: Before) -> bool
    ensures { result ≡ is_joined before }
{
    match before {
        Before::Combinator => true,
        _ => false,
    }
}

/// The combinator that a sign is.
pub fn combinator_of(byte: u16) -> Option<Combinator>
    ensures { result ≡ combinator_of byte }
{
    match byte {
        signs::GREATER => Some(Combinator::Child),
        signs::PLUS => Some(Combinator::Next),
        signs::TILDE => Some(Combinator::Subsequent),
        _ => None,
    }
}

/// Whether a complex selector ends before this byte.
pub fn ends_complex(byte: u16) -> bool
    ensures { result ≡ ends_complex byte }
{
    byte == signs::END || byte == signs::COMMA || byte == signs::CLOSE_PAREN
}
