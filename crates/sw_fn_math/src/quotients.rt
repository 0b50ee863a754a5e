// Quotients, percentages and units.
ghost use Rattle.std.specs.Prelude.{◌≡◌, ◌++◌, Ok, Err, IfOk, OnOk, MatchResult};
ghost use Rattle.std.specs.String.{string_bytes};
ghost use Rattle.sw_values.specs.Texts.{names_text, under_text};
ghost use Rattle.sw_fn_call.specs.Answers.{IsAnswer, of_number as answer_of};
ghost use Rattle.sw_fn_math.specs.Quotients.{two_numbers as two_numbers_of, div, hundredfold as hundredfold_of, percents, percentage, units_text as text_of_units, unit, is_unitless, compatible};

use crate::rounding::one_number;
use std::alloc::{AllocError, Global};
use sw_fixed::{Fixed, NumberFault};
use sw_fn_call::{Argument, FnFault, fault_of, number_of, text, two};
use sw_text::{Memory, Name};
use sw_units::{Number, UnitNames, Units};
use sw_values::Value;

// The two arguments, which are numbers.
#[tactic(auto, unfolding(crate::specs::Quotients::two_numbers))]
fn two_numbers(args: &[Argument]) -> Result<(&Number, &Number), FnFault>
    ensures { MatchResult result (λ numbers. two_numbers_of args.now ≡ Ok (numbers.0.now, numbers.1.now))
        (λ fault. two_numbers_of args.now ≡ Err fault) }
{
    let (first, second) = two(args)?;
    let first = number_of(first)?;
    let second = number_of(second)?;
    Ok((first, second))
}

// A number that was computed.
fn of_number(number: Result<Number, NumberFault>) -> Result<Value, FnFault>
    ensures { IsAnswer result (answer_of number) }
{
    match number {
        Ok(number) => {
            let Number { value, units, .. } = number;
            Ok(Value::number(value, units))
        }
        Err(fault) => Err(fault_of(fault)),
    }
}

pub(crate) fn div(args: &[Argument]) -> Result<Value, FnFault>
    ensures { IsAnswer result (div args.now) }
{
    let (dividend, divisor) = two_numbers(args)?;
    of_number(sw_units::div(dividend, divisor))
}

// A hundred times a number.
fn hundredfold(value: Fixed) -> Result<Fixed, NumberFault>
    ensures { result ≡ hundredfold_of value }
{
    value.mul(Fixed::from_whole(100))
}

fn percents(alloc: Global) -> Result<Units, Memory>
    ensures { IfOk result (λ units. units ≡ percents) }
{
    Ok(Units {
        over: UnitNames::One(Name::new(alloc, "%")?),
        under: UnitNames::Empty,
    })
}

pub(crate) fn percentage(alloc: Global, args: &[Argument]) -> Result<Value, FnFault>
    ensures { IsAnswer result (percentage args.now) }
{
    let given = one_number(args)?;
    if !given.units.is_unitless() {
        return Err(FnFault::ArgumentFault);
    }
    match hundredfold(given.value) {
        Ok(value) => Ok(Value::number(value, percents(alloc)?)),
        Err(fault) => Err(fault_of(fault)),
    }
}

fn write_names(out: &mut String, names: &UnitNames) -> Result<(), AllocError>
    ensures { OnOk result (string_bytes out.new ≡ string_bytes out.old ++ names_text names.now) }
{
    match names {
        UnitNames::Empty => Ok(()),
        UnitNames::One(first) => out.push_str(first.as_str()),
        UnitNames::Two(first, second) => {
            out.push_str(first.as_str())?;
            out.push_str("*")?;
            out.push_str(second.as_str())
        }
    }
}

fn write_under(out: &mut String, names: &UnitNames) -> Result<(), AllocError>
    ensures { OnOk result (string_bytes out.new ≡ string_bytes out.old ++ under_text names.now) }
{
    match names {
        UnitNames::Empty => Ok(()),
        UnitNames::One(_) => {
            out.push_str("/")?;
            write_names(out, names)
        }
        UnitNames::Two(_, _) => {
            out.push_str("/")?;
            write_names(out, names)
        }
    }
}

// The units as they are written behind a number.
fn units_text(alloc: Global, units: &Units) -> Result<String, AllocError>
    ensures { IfOk result (λ text. string_bytes text ≡ text_of_units units.now) }
{
    let mut out = String::new(alloc);
    write_names(&mut out, &units.over)?;
    write_under(&mut out, &units.under)?;
    Ok(out)
}

pub(crate) fn unit(alloc: Global, args: &[Argument]) -> Result<Value, FnFault>
    ensures { IsAnswer result (unit args.now) }
{
    let given = one_number(args)?;
    match units_text(alloc, &given.units) {
        Ok(units) => text(alloc, units.as_str(), true),
        Err(_) => Err(FnFault::Memory),
    }
}

pub(crate) fn is_unitless(args: &[Argument]) -> Result<Value, FnFault>
    ensures { IsAnswer result (is_unitless args.now) }
{
    let given = one_number(args)?;
    Ok(Value::of_truth(given.units.is_unitless()))
}

pub(crate) fn compatible(args: &[Argument]) -> Result<Value, FnFault>
    ensures { IsAnswer result (compatible args.now) }
{
    let (first, second) = two_numbers(args)?;
    Ok(Value::of_truth(sw_units::compatible(&first.units, &second.units)))
}
