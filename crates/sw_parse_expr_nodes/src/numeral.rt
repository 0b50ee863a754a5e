// Numbers as a sheet writes them.
ghost use Rattle.std.specs.Prelude.{◌≡◌, ◌≤◌, length, IfOk};
ghost use Rattle.std.specs.Str.{IsCharBoundary};
ghost use Rattle.sw_parse_table.specs.Numerals.{sign_length, unit_from, numeral};

use std::alloc::Global;
use sw_fixed::Fixed;
use sw_text::{Memory, Name};
use sw_text_scan::unit_start;
use sw_tree::Number;

fn sign_length(text: &[u8]) -> usize
    ensures length { result ≡ sign_length text.now }
    ensures within { result ≤ length text.now }
{
    match text {
        [b'+' | b'-', ..] => 1,
        _ => 0,
    }
}

fn unit_from(text: &str) -> usize
    ensures from { result ≡ unit_from text.now }
    ensures cut { IsCharBoundary text.now result }
{
    let bytes = text.as_bytes();
    unit_start(bytes, sign_length(bytes))
}

/// The number that a text with a sign and a unit stands for.
#[tactic(auto, unfolding(sw_parse_table::specs::Numerals::numeral))]
pub(crate) fn numeral(alloc: Global, text: &str) -> Result<Number, Memory>
    ensures { IfOk result (λ number. number ≡ numeral text.now) }
{
    let from = unit_from(text);
    let value = match Fixed::read(&text[..from]) {
        Ok(value) => Some(value),
        Err(_) => None,
    };
    Ok(Number {
        value,
        unit: Name::new(alloc, &text[from..])?,
    })
}
