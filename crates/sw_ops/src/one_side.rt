// Operators with one side.
ghost use Rattle.std.specs.Prelude.{◌≡◌};
ghost use Rattle.sw_ops.specs.Answers.{IsAnswer};
ghost use Rattle.sw_ops.specs.Operators.{unary, unchanged, negated, operation_on};

use crate::OpFault;
use crate::joining::headed;
use crate::sides::{number_in, plain};
use std::alloc::Global;
use sw_values::Value;

/// An operator with one side.
#[derive(Clone, Copy, Debug, PartialEq, Eq)]
pub enum Op1 {
    Plus,
    Minus,
    Slash,
    Not,
}

fn unchanged(alloc: Global, a: &Value) -> Result<Value, OpFault>
    ensures { IsAnswer result (unchanged a.now) }
{
    match number_in(a) {
        Some(_) => Ok(a.share()?),
        None => headed(alloc, "+", a),
    }
}

fn negated(alloc: Global, a: &Value) -> Result<Value, OpFault>
    ensures { IsAnswer result (negated a.now) }
{
    match number_in(a) {
        Some(number) => Ok(Value::number(number.value.negate(), number.units.share()?)),
        None => headed(alloc, "-", a),
    }
}

// What an operator makes of a side that keeps none of its own.
fn operation_on(alloc: Global, op: Op1, a: &Value) -> Result<Value, OpFault>
    ensures { IsAnswer result (operation_on op a.now) }
{
    match op {
        Op1::Plus => unchanged(alloc, a),
        Op1::Minus => negated(alloc, a),
        Op1::Slash => headed(alloc, "/", a),
        Op1::Not => Ok(Value::of_truth(!a.truth())),
    }
}

/// What an operator makes of a value. The sides that a quotient keeps are lost before.
#[tactic(auto, unfolding(crate::specs::Operators::unary))]
pub fn unary(alloc: Global, op: Op1, a: &Value) -> Result<Value, OpFault>
    ensures { IsAnswer result (unary op a.now) }
{
    match plain(a) {
        Err(fault) => Err(fault),
        Ok(a) => operation_on(alloc, op, &a),
    }
}
