// Maps.
ghost use Rattle.std.specs.Prelude.{◌≡◌};
ghost use Rattle.sw_eval_literals.specs.Answers.{Returns};
ghost use Rattle.sw_eval_literals.specs.Maps.{key_place, map_value};

use crate::refused::{Refused, fails};
use std::alloc::Global;
use sw_text::{FaultCode, Span};
use sw_tree::Pair;
use sw_values::{Value, ValueFault, map_of};

// Where the key of a pair is written.
fn key_place<'a>(written: &'a [Pair], number: usize, span: &'a Span) -> &'a Span
    ensures { result.now ≡ key_place written.now number span.now }
{
    match written.get(number) {
        Some(pair) => &pair.key.span,
        None => span,
    }
}

/// The map of these pairs, each with one more owner, which stands here: `DuplicateKey` at the first key that is equal to
/// one before, else `TooLarge` where the map is too heavy or too deep. The pairs are written as `written`.
pub fn map_value(
    alloc: Global,
    pairs: &[(Value, Value)],
    written: &[Pair],
    span: &Span,
) -> Result<Value, Refused>
    ensures { Returns result (map_value pairs.now written.now span.now) }
{
    match map_of(alloc, pairs) {
        Ok(value) => Ok(value),
        Err(ValueFault::DuplicateKey(number)) => {
            fails(FaultCode::DuplicateKey, key_place(written, number, span))
        }
        Err(ValueFault::TooLarge) => fails(FaultCode::TooLarge, span),
        Err(ValueFault::NotCss) => unreachable!(),
        Err(ValueFault::Memory) => Err(Refused::Memory),
    }
}
