// Values that stand somewhere.
ghost use Rattle.std.specs.Prelude.{◌≡◌, Result};
ghost use Rattle.sw_ops.specs.Answers.{IsAnswer};
ghost use Rattle.sw_values.specs.Shape.{plain_of};
ghost use Rattle.sw_values.specs.declared.plain.Plain.{Plain};
ghost use Rattle.sw_ops.specs.declared.fault.OpFault.{OpFault};
ghost use Rattle.sw_eval_literals.specs.Answers.{Returns, within, of_op, number_code};

use crate::refused::{Refused, fails};
use sw_fixed::NumberFault;
use sw_ops::OpFault;
use sw_text::{FaultCode, Span};
use sw_values::{Node, Value, ValueFault};

/// The value of a node, unless it is too heavy or too deep.
#[inline(always)]
pub(crate) fn within(node: Node, span: &Span) -> Result<Value, Refused>
    ensures { Returns result (within (plain_of node) span.now) }
{
    match Value::of(node) {
        Ok(value) => Ok(value),
        Err(ValueFault::TooLarge) => fails(FaultCode::TooLarge, span),
        Err(ValueFault::NotCss) => unreachable!(),
        Err(ValueFault::DuplicateKey(_)) => unreachable!(),
        Err(ValueFault::Memory) => unreachable!(),
    }
}

/// What an operator answered, here.
#[inline(always)]
pub(crate) fn of_op(answer: Result<Value, OpFault>, span: &Span) -> Result<Value, Refused>
    ensures { (right : Result Plain OpFault) → IsAnswer answer right → Returns result (of_op span.now right) }
{
    match answer {
        Ok(value) => Ok(value),
        Err(OpFault::TypeFault) => fails(FaultCode::TypeFault, span),
        Err(OpFault::UnitFault) => fails(FaultCode::UnitFault, span),
        Err(OpFault::DivideByZero) => fails(FaultCode::DivideByZero, span),
        Err(OpFault::NumberRange) => fails(FaultCode::NumberRange, span),
        Err(OpFault::NotCss) => fails(FaultCode::NotCss, span),
        Err(OpFault::TooLarge) => fails(FaultCode::TooLarge, span),
        Err(OpFault::Memory) => Err(Refused::Memory),
    }
}

/// The code of a fault of numbers. Want of memory, of which no operation tells that takes none, counts as too large.
pub(crate) fn number_code(fault: NumberFault) -> FaultCode
    ensures { result ≡ number_code fault }
{
    match fault {
        NumberFault::NumberRange => FaultCode::NumberRange,
        NumberFault::DivideByZero => FaultCode::DivideByZero,
        NumberFault::UnitFault => FaultCode::UnitFault,
        NumberFault::Memory => FaultCode::TooLarge,
    }
}
