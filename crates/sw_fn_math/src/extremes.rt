// The least and the greatest of numbers, and a number between two others.
ghost use Rattle.std.specs.Prelude.{◌≡◌, Ok, Err, IfOk, MatchResult};
ghost use Rattle.sw_fn_call.specs.Answers.{IsAnswer, with};
ghost use Rattle.sw_fn_math.specs.Extremes.{replaces, further as further_of, extreme_from as extreme_in, extreme_of as extreme_of_values, extreme_among as extreme_of_rest, min, max, plain_of as plain_value, bounds_of as bounds_in, are_alike, between as between_by, clamped as clamped_by, clamp, compared as compared_of};

use std::cmp::Ordering;
use sw_fn_call::{Argument, FnFault, fault_of, number, number_of, one, rest, three};
use sw_text::Memory;
use sw_units::{Number, compare};
use sw_values::Value;

/// Which of some numbers is looked for.
#[derive(Clone, Copy, Debug, PartialEq, Eq)]
pub(crate) enum Extreme {
    Least,
    Greatest,
}

// Whether a number of which the one so far is less, equal or greater takes its place.
fn replaces(extreme: Extreme, order: Ordering) -> bool
    ensures { result ≡ replaces extreme order }
{
    match extreme {
        Extreme::Least => order.is_gt(),
        Extreme::Greatest => order.is_lt(),
    }
}

// The order of two numbers.
fn compared(a: &Number, b: &Number) -> Result<Ordering, FnFault>
    ensures { result ≡ compared_of a.now b.now }
{
    match compare(a, b) {
        Ok(order) => Ok(order),
        Err(fault) => Err(fault_of(fault)),
    }
}

// The number so far, or the next value in its place.
#[tactic(auto, unfolding(crate::specs::Extremes::further))]
fn further<'a>(extreme: Extreme, best: &'a Number, next: &'a Value) -> Result<&'a Number, FnFault>
    ensures { MatchResult result (λ number. further_of extreme best.now next.now ≡ Ok number.now)
        (λ fault. further_of extreme best.now next.now ≡ Err fault) }
{
    let next = number_of(next)?;
    let order = compared(best, next)?;
    Ok(if replaces(extreme, order) { next } else { best })
}

// The first of the least, or of the greatest, of a number and those behind it.
fn extreme_from<'a>(
    extreme: Extreme,
    first: &'a Number,
    items: &'a [Value],
) -> Result<&'a Number, FnFault>
    ensures { MatchResult result (λ number. extreme_in extreme first.now items.now ≡ Ok number.now)
        (λ fault. extreme_in extreme first.now items.now ≡ Err fault) }
{
    let mut best = first;
    'items: for at in 0..items.len() {
        best = further(extreme, best, &items[at])?;
    }
    Ok(best)
}

// The number itself, without the sides that a quotient keeps.
fn plain_of(given: &Number) -> Result<Value, Memory>
    ensures { IfOk result (λ value. plain_value given.now ≡ Ok value) }
{
    number(given.value, &given.units)
}

fn extreme_of(extreme: Extreme, values: &[Value]) -> Result<Value, FnFault>
    ensures { IsAnswer result (extreme_of_values extreme values.now) }
{
    match values {
        [] => Err(FnFault::ArgumentFault),
        [first, others @ ..] => {
            let first = number_of(first)?;
            let best = extreme_from(extreme, first, others)?;
            Ok(plain_of(best)?)
        }
    }
}

fn extreme_among(extreme: Extreme, args: &[Argument]) -> Result<Value, FnFault>
    ensures { IsAnswer result (extreme_of_rest extreme args.now) }
{
    let value = one(args)?;
    let values = rest(value)?;
    extreme_of(extreme, values)
}

pub(crate) fn min(args: &[Argument]) -> Result<Value, FnFault>
    ensures { IsAnswer result (min args.now) }
{
    extreme_among(Extreme::Least, args)
}

pub(crate) fn max(args: &[Argument]) -> Result<Value, FnFault>
    ensures { IsAnswer result (max args.now) }
{
    extreme_among(Extreme::Greatest, args)
}

// ---- a number between two others

// The three arguments, which are numbers: the lower bound, the number and the upper bound.
#[tactic(auto, unfolding(crate::specs::Extremes::bounds_of))]
fn bounds_of(args: &[Argument]) -> Result<(&Number, &Number, &Number), FnFault>
    ensures { MatchResult result
        (λ given. bounds_in args.now ≡ Ok (record { min = given.0.now; number = given.1.now; max = given.2.now }))
        (λ fault. bounds_in args.now ≡ Err fault) }
{
    let (min, number, max) = three(args)?;
    let min = number_of(min)?;
    let number = number_of(number)?;
    let max = number_of(max)?;
    Ok((min, number, max))
}

fn are_alike(first: bool, second: bool, third: bool) -> bool
    ensures { result ≡ are_alike first second third }
{
    if first {
        second && third
    } else {
        !second && !third
    }
}

// The number, or the bound in its place, by the order of the bounds, of the lower one and the number, and of the number
// and the upper one.
fn between<'a>(
    min: &'a Number,
    number: &'a Number,
    max: &'a Number,
    of_bounds: Ordering,
    above_min: Ordering,
    below_max: Ordering,
) -> &'a Number
    ensures { result.now
        ≡ between_by (record { min = min.now; number = number.now; max = max.now }) of_bounds above_min below_max }
{
    if !of_bounds.is_lt() || !above_min.is_lt() {
        min
    } else if below_max.is_lt() {
        number
    } else {
        max
    }
}

fn clamped(min: &Number, number: &Number, max: &Number) -> Result<Value, FnFault>
    ensures { IsAnswer result (clamped_by (record { min = min.now; number = number.now; max = max.now })) }
{
    if !are_alike(
        min.units.is_unitless(),
        number.units.is_unitless(),
        max.units.is_unitless(),
    ) {
        return Err(FnFault::UnitFault);
    }
    let of_bounds = compared(min, max)?;
    let above_min = compared(min, number)?;
    let below_max = compared(number, max)?;
    Ok(plain_of(between(min, number, max, of_bounds, above_min, below_max))?)
}

pub(crate) fn clamp(args: &[Argument]) -> Result<Value, FnFault>
    ensures { IsAnswer result (clamp args.now) }
{
    let (min, number, max) = bounds_of(args)?;
    clamped(min, number, max)
}
