// What operators see of their sides.
ghost use Rattle.std.specs.Prelude.{◌≡◌, false, Ok, IfOk, IfSome};
ghost use Rattle.std.specs.Option.{option_copied};
ghost use Rattle.sw_units.specs.Numbers.{plain as without_sides, quotient};
ghost use Rattle.sw_values.specs.declared.plain.Plain.TheVariants as P;
ghost use Rattle.sw_ops.specs.Answers.{IsAnswer};
ghost use Rattle.sw_ops.specs.Sides.{number_in, is_colour, quotes_in, is_zero, plain_number, plain as plain_value, keeps_sides, within, sides_of, zero, kept_of, kept_quotient as kept_value};

use crate::OpFault;
use crate::fault::fault_of;
use std::alloc::Global;
use sw_fixed::Fixed;
use sw_text::{Memory, Shared};
use sw_units::{Number, Slash, UnitNames, Units, div};
use sw_values::{Node, Value, ValueFault};

/// The number that a value is.
#[inline(always)]
pub(crate) fn number_in(value: &Value) -> Option<&Number>
    ensures number { option_copied result ≡ number_in value.now }
    ensures is { IfSome result (λ number. value.now ≡ P.Number number.now) }
{
    match value.node() {
        Node::Number(number) => Some(number),
        Node::Text { .. } => None,
        Node::Colour(_) => None,
        Node::List { .. } => None,
        Node::Map(_) => None,
        Node::Bool(_) => None,
        Node::Null => None,
        Node::Args { .. } => None,
    }
}

pub(crate) fn is_colour(value: &Value) -> bool
    ensures { result ≡ is_colour value.now }
{
    match value.node() {
        Node::Number(_) => false,
        Node::Text { .. } => false,
        Node::Colour(_) => true,
        Node::List { .. } => false,
        Node::Map(_) => false,
        Node::Bool(_) => false,
        Node::Null => false,
        Node::Args { .. } => false,
    }
}

/// Whether a string is quoted; none where the value is no string.
pub(crate) fn quotes_in(value: &Value) -> Option<bool>
    ensures { result ≡ quotes_in value.now }
{
    match value.node() {
        Node::Number(_) => None,
        Node::Text { quoted, .. } => Some(*quoted),
        Node::Colour(_) => None,
        Node::List { .. } => None,
        Node::Map(_) => None,
        Node::Bool(_) => None,
        Node::Null => None,
        Node::Args { .. } => None,
    }
}

fn is_zero(value: Fixed) -> bool
    ensures { result ≡ is_zero value }
{
    value.mantissa().unsigned_abs() == 0
}

fn without_sides(number: &Number) -> Result<Number, Memory>
    ensures { IfOk result (λ plain. plain ≡ without_sides number.now.units number.now.value) }
{
    Ok(Number::plain(number.value, number.units.share()?))
}

#[tactic(auto, unfolding(crate::specs::Sides::plain_number))]
fn plain_number(number: &Number) -> Result<Number, OpFault>
    ensures { IsAnswer result (plain_number number.now) }
{
    match &number.slash {
        Slash::Plain => Ok(number.share()?),
        Slash::Sides(sides) => {
            if is_zero(sides.get().1.value) {
                return Err(OpFault::DivideByZero);
            }
            Ok(without_sides(number)?)
        }
    }
}

/// Whether a value is a quotient that keeps its two sides. Any other is plain as it is.
#[tactic(auto, unfolding(crate::specs::Sides::plain_number, crate::specs::Sides::sides_in))]
#[inline(always)]
pub fn keeps_sides(value: &Value) -> bool
    ensures sides { result ≡ keeps_sides value.now }
    ensures plain { result ≡ false → plain_value value.now ≡ Ok value.now }
{
    match number_in(value) {
        None => false,
        Some(number) => match &number.slash {
            Slash::Plain => false,
            Slash::Sides(_) => true,
        },
    }
}

/// The value without the sides that a quotient keeps, as it is stored, passed to a function, returned or computed with;
/// `DivideByZero` where that is a quotient over zero.
#[tactic(auto, unfolding(crate::specs::Sides::plain_number))]
#[inline(always)]
pub fn plain(value: &Value) -> Result<Value, OpFault>
    ensures { IsAnswer result (plain_value value.now) }
{
    match number_in(value) {
        None => Ok(value.share()?),
        Some(number) => match &number.slash {
            Slash::Plain => Ok(value.share()?),
            Slash::Sides(sides) => {
                if is_zero(sides.get().1.value) {
                    return Err(OpFault::DivideByZero);
                }
                Ok(Value::number(number.value, number.units.share()?))
            }
        },
    }
}

// A value that is a number, unless it nests too deep.
fn within(number: Number) -> Result<Value, OpFault>
    ensures { IsAnswer result (within (P.Number number)) }
{
    match Value::of(Node::Number(number)) {
        Ok(value) => Ok(value),
        Err(ValueFault::TooLarge) => Err(OpFault::TooLarge),
        Err(ValueFault::NotCss) => unreachable!(),
        Err(ValueFault::DuplicateKey(_)) => unreachable!(),
        Err(ValueFault::Memory) => unreachable!(),
    }
}

// A number with these sides.
fn sides_of(alloc: Global, left: &Number, right: &Number, number: Number) -> Result<Value, OpFault>
    ensures { IsAnswer result (sides_of left.now right.now number) }
{
    let Number { value, units, .. } = number;
    let sides = Shared::new(alloc, (left.share()?, right.share()?))?;
    within(Number {
        value,
        units,
        slash: Slash::Sides(sides),
    })
}

fn zero() -> Number
    ensures { result ≡ zero }
{
    let units = Units {
        over: UnitNames::Empty,
        under: UnitNames::Empty,
    };
    Number::plain(Fixed::from_mantissa(0), units)
}

// The quotient of two numbers, of which the right one isn't zero.
fn kept_of(alloc: Global, left: &Number, right: &Number, over: &Number) -> Result<Value, OpFault>
    ensures { IsAnswer result (kept_of left.now right.now (quotient over.now right.now)) }
{
    match div(over, right) {
        Ok(number) => sides_of(alloc, left, right, number),
        Err(fault) => Err(fault_of(fault)),
    }
}

/// The quotient of two literals, or of a chain of them and another, which keeps its two sides. Over zero it is no fault
/// and counts as 0.
#[tactic(auto, unfolding(crate::specs::Sides::kept_quotient))]
pub fn kept_quotient(alloc: Global, left: &Number, right: &Number) -> Result<Value, OpFault>
    ensures { IsAnswer result (kept_value left.now right.now) }
{
    match plain_number(left) {
        Err(fault) => Err(fault),
        Ok(number) => {
            if is_zero(right.value) {
                sides_of(alloc, left, right, zero())
            } else {
                kept_of(alloc, left, right, &number)
            }
        }
    }
}
