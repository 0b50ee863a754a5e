// Operators with two sides.
ghost use Rattle.std.specs.Prelude.{◌≡◌};
ghost use Rattle.sw_ops.specs.Answers.{IsAnswer, of_number, with};
ghost use Rattle.sw_ops.specs.Sides.{plain as plain_value};
ghost use Rattle.sw_ops.specs.Operators.{computed, clash, spelled, unlike, arithmetic, plus, times, remainder, holds, compared, operation, takes_sides, binary};

use crate::OpFault;
use crate::fault::fault_of;
use crate::joining::{Sign, bare_joined, css_joined, sign_between};
use crate::sides::{is_colour, keeps_sides, number_in, plain, quotes_in};
use std::alloc::Global;
use std::cmp::Ordering;
use sw_fixed::NumberFault;
use sw_units::{Number, add, compare, div, modulo, mul, sub};
use sw_values::Value;

/// An operator with two sides.
#[derive(Clone, Copy, Debug, PartialEq, Eq)]
pub enum Op2 {
    Add,
    Sub,
    Mul,
    Div,
    Rem,
    Less,
    LessEqual,
    Greater,
    GreaterEqual,
    Equal,
    NotEqual,
}

// A number that was computed.
fn of_number(number: Result<Number, NumberFault>) -> Result<Value, OpFault>
    ensures { IsAnswer result (of_number number) }
{
    match number {
        Ok(number) => {
            let Number { value, units, .. } = number;
            Ok(Value::number(value, units))
        }
        Err(fault) => Err(fault_of(fault)),
    }
}

#[inline(always)]
fn computed(sign: Sign, x: &Number, y: &Number) -> Result<Value, OpFault>
    ensures { IsAnswer result (of_number (computed sign x.now y.now)) }
{
    match sign {
        Sign::Plus => of_number(add(x, y)),
        Sign::Minus => of_number(sub(x, y)),
        Sign::Slash => of_number(div(x, y)),
    }
}

// A colour with a colour or a number.
fn clash(a: &Value, b: &Value) -> bool
    ensures { result ≡ clash a.now b.now }
{
    (is_colour(a) && (is_colour(b) || number_in(b).is_some()))
        || (number_in(a).is_some() && is_colour(b))
}

fn spelled(alloc: Global, sign: Sign, a: &Value, b: &Value) -> Result<Value, OpFault>
    ensures { IsAnswer result (spelled sign a.now b.now) }
{
    css_joined(alloc, a, sign_between(sign), b)
}

// What two sides make of which one is no number.
fn unlike(alloc: Global, sign: Sign, a: &Value, b: &Value) -> Result<Value, OpFault>
    ensures { IsAnswer result (unlike sign a.now b.now) }
{
    if clash(a, b) {
        return Err(OpFault::TypeFault);
    }
    spelled(alloc, sign, a, b)
}

#[inline(always)]
fn arithmetic(alloc: Global, sign: Sign, a: &Value, b: &Value) -> Result<Value, OpFault>
    ensures { IsAnswer result (arithmetic sign a.now b.now) }
{
    match (number_in(a), number_in(b)) {
        (Some(x), Some(y)) => computed(sign, x, y),
        (Some(_), None) => unlike(alloc, sign, a, b),
        (None, _) => unlike(alloc, sign, a, b),
    }
}

fn plus(alloc: Global, a: &Value, b: &Value) -> Result<Value, OpFault>
    ensures { IsAnswer result (plus a.now b.now) }
{
    match (quotes_in(a), quotes_in(b)) {
        (Some(quoted), _) => bare_joined(alloc, quoted, a, b),
        (None, Some(quoted)) => bare_joined(alloc, quoted, a, b),
        (None, None) => arithmetic(alloc, Sign::Plus, a, b),
    }
}

fn times(a: &Value, b: &Value) -> Result<Value, OpFault>
    ensures { IsAnswer result (times a.now b.now) }
{
    match (number_in(a), number_in(b)) {
        (Some(x), Some(y)) => of_number(mul(x, y)),
        (Some(_), None) => Err(OpFault::TypeFault),
        (None, _) => Err(OpFault::TypeFault),
    }
}

fn remainder(a: &Value, b: &Value) -> Result<Value, OpFault>
    ensures { IsAnswer result (remainder a.now b.now) }
{
    match (number_in(a), number_in(b)) {
        (Some(x), Some(y)) => of_number(modulo(x, y)),
        (Some(_), None) => Err(OpFault::TypeFault),
        (None, _) => Err(OpFault::TypeFault),
    }
}

/// How the left side has to stand to the right one.
#[derive(Clone, Copy, Debug, PartialEq, Eq)]
enum Relation {
    Less,
    LessEqual,
    Greater,
    GreaterEqual,
}

fn holds(relation: Relation, order: Ordering) -> bool
    ensures { result ≡ holds relation order }
{
    match relation {
        Relation::Less => order.is_lt(),
        Relation::LessEqual => order.is_le(),
        Relation::Greater => order.is_gt(),
        Relation::GreaterEqual => order.is_ge(),
    }
}

#[inline(always)]
fn compared(relation: Relation, a: &Value, b: &Value) -> Result<Value, OpFault>
    ensures { IsAnswer result (compared relation a.now b.now) }
{
    match (number_in(a), number_in(b)) {
        (Some(x), Some(y)) => match compare(x, y) {
            Ok(order) => Ok(Value::of_truth(holds(relation, order))),
            Err(fault) => Err(fault_of(fault)),
        },
        (Some(_), None) => Err(OpFault::TypeFault),
        (None, _) => Err(OpFault::TypeFault),
    }
}

// What an operator makes of sides that keep none of their own.
#[inline(always)]
fn operation(alloc: Global, op: Op2, a: &Value, b: &Value) -> Result<Value, OpFault>
    ensures { IsAnswer result (operation op a.now b.now) }
{
    match op {
        Op2::Add => plus(alloc, a, b),
        Op2::Sub => arithmetic(alloc, Sign::Minus, a, b),
        Op2::Mul => times(a, b),
        Op2::Div => arithmetic(alloc, Sign::Slash, a, b),
        Op2::Rem => remainder(a, b),
        Op2::Less => compared(Relation::Less, a, b),
        Op2::LessEqual => compared(Relation::LessEqual, a, b),
        Op2::Greater => compared(Relation::Greater, a, b),
        Op2::GreaterEqual => compared(Relation::GreaterEqual, a, b),
        Op2::Equal => Ok(Value::of_truth(a.equals(b))),
        Op2::NotEqual => Ok(Value::of_truth(!a.equals(b))),
    }
}

// `==` and `!=` take quotients with the sides that they keep.
fn takes_sides(op: Op2) -> bool
    ensures { result ≡ takes_sides op }
{
    match op {
        Op2::Add => false,
        Op2::Sub => false,
        Op2::Mul => false,
        Op2::Div => false,
        Op2::Rem => false,
        Op2::Less => false,
        Op2::LessEqual => false,
        Op2::Greater => false,
        Op2::GreaterEqual => false,
        Op2::Equal => true,
        Op2::NotEqual => true,
    }
}

// The same of sides that may keep some, the left one first.
fn of_plain(alloc: Global, op: Op2, a: &Value, b: &Value) -> Result<Value, OpFault>
    ensures { IsAnswer result (with (plain_value a.now) (λ x. with (plain_value b.now) (λ y. operation op x y))) }
{
    match plain(a) {
        Err(fault) => Err(fault),
        Ok(x) => match plain(b) {
            Err(fault) => Err(fault),
            Ok(y) => operation(alloc, op, &x, &y),
        },
    }
}

/// What an operator makes of two values. The sides that a quotient keeps are lost before, but for `==` and `!=`.
#[tactic(auto, unfolding(crate::specs::Operators::binary))]
pub fn binary(alloc: Global, op: Op2, a: &Value, b: &Value) -> Result<Value, OpFault>
    ensures { IsAnswer result (binary op a.now b.now) }
{
    if takes_sides(op) {
        return operation(alloc, op, a, b);
    }
    if keeps_sides(a) || keeps_sides(b) {
        return of_plain(alloc, op, a, b);
    }
    operation(alloc, op, a, b)
}
