// Numbers as the text of a special function has them.
ghost use Rattle.std.specs.Prelude.{◌≡◌, ◌≤◌, length, IfOk};
ghost use Rattle.sw_eval_raw_text.specs.Numerals.{sign_length, unit_from, numeral};

use std::alloc::Global;
use sw_fixed::Fixed;
use sw_text::{Memory, Name};
use sw_text_scan::{piece, unit_start};
use sw_tree::Number;

fn sign_length(text: &[u8]) -> usize
    ensures length { result ≡ sign_length text.now }
    ensures within { result ≤ length text.now }
{
    match text {
        [b'+' | b'-', ..] => 1,
        _ => 0,
    }
}

fn unit_from(text: &[u8]) -> usize
    ensures { result ≡ unit_from text.now }
{
    unit_start(text, sign_length(text))
}

/// The number that a text with a sign and a unit stands for.
#[tactic(auto, unfolding(crate::specs::Numerals::numeral))]
pub(crate) fn numeral(alloc: Global, text: &str) -> Result<Number, Memory>
    ensures { IfOk result (λ number. number ≡ numeral text.now) }
{
    let from = unit_from(text.as_bytes());
    let value = match Fixed::read(piece(text, 0, from)) {
        Ok(value) => Some(value),
        Err(_) => None,
    };
    Ok(Number {
        value,
        unit: Name::new(alloc, piece(text, from, text.len()))?,
    })
}
