// What a turn over a list gives its variables.
ghost use Rattle.std.specs.Prelude.{◌≡◌, IfOk, slice_get};
ghost use Rattle.sw_eval_literals.specs.Answers.{Returns};
ghost use Rattle.sw_eval_literals.specs.Elements.{or_null, filled, parts_of, all_plain, taken_apart};

use crate::quotients::plain_at;
use crate::refused::Refused;
use std::alloc::Global;
use sw_text::{List, Memory, Span};
use sw_values::Value;

// The value at a place, or null.
fn part_at(values: &[Value], at: usize) -> Result<Value, Memory>
    ensures { IfOk result (λ part. part ≡ or_null (slice_get values.now at)) }
{
    match values.get(at) {
        Some(value) => value.share(),
        None => Ok(Value::null()),
    }
}

// The first so many values, and null for each that is missing.
fn filled(alloc: Global, count: usize, values: &[Value]) -> Result<List<Value>, Memory>
    ensures { IfOk result (λ parts. parts ≡ filled count values.now) }
{
    let mut parts = List::new(alloc);
    'parts: for at in 0..count {
        parts.push(part_at(values, at)?)?;
    }
    Ok(parts)
}

fn parts_of(alloc: Global, count: usize, element: &Value) -> Result<List<Value>, Memory>
    ensures { IfOk result (λ parts. parts ≡ parts_of count element.now) }
{
    if count == 1 {
        let mut parts = List::new(alloc);
        parts.push(element.share()?)?;
        return Ok(parts);
    }
    let items = element.items(alloc)?;
    filled(alloc, count, items.as_slice())
}

// Each without the sides that a quotient keeps.
fn all_plain(alloc: Global, values: &[Value], span: &Span) -> Result<List<Value>, Refused>
    ensures { Returns result (all_plain values.now span.now) }
{
    let mut all = List::new(alloc);
    'values: for value in values {
        let plain = plain_at(value, span)?;
        all.push(plain)?;
    }
    Ok(all)
}

/// The values of so many variables in a turn over a list that stands here: one is given the element itself, several its
/// items, and null where one is missing. A quotient loses the sides that it keeps; `DivideByZero` where it is one over
/// zero.
#[tactic(auto, unfolding(crate::specs::Elements::taken_apart))]
pub fn taken_apart(
    alloc: Global,
    count: usize,
    element: &Value,
    span: &Span,
) -> Result<List<Value>, Refused>
    ensures { Returns result (taken_apart count element.now span.now) }
{
    let parts = parts_of(alloc, count, element)?;
    all_plain(alloc, parts.as_slice(), span)
}
