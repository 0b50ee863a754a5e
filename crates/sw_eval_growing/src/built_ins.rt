// Calls of built-in functions that make their first argument grow.
ghost use Rattle.std.specs.Prelude.{◌≡◌, true, Result};
ghost use Rattle.sw_values.specs.declared.plain.Plain.{Plain};
ghost use Rattle.sw_scope.specs.Passed.{none_passed};
ghost use Rattle.sw_fn_call.specs.declared.fault.FnFault.{FnFault};
ghost use Rattle.sw_fn_call.specs.Answers.{IsAnswer};
ghost use Rattle.sw_builtins.specs.Calls.{answer};
ghost use Rattle.sw_eval_literals.specs.Answers.{Returns, with};
ghost use Rattle.sw_eval_literals.specs.Quotients.{plain_at};
ghost use Rattle.sw_eval_calls.specs.Placing.{all_passed};
ghost use Rattle.sw_eval_built_in_calls.specs.BuiltIns.{of_fn, built_in_arguments, built_in_call};
ghost use Rattle.sw_eval_growing.specs.Growth.{grows};

use crate::calls::call_grown;
use std::alloc::Global;
use sw_builtins::BuiltIn;
use sw_eval_built_in_calls::built_in_arguments;
use sw_eval_calls::{all_passed, at_argument};
use sw_eval_literals::{Refused, fails as refuses, into_plain_at};
use sw_fn_call::FnFault;
use sw_text::{FaultCode, List, Name, Span};
use sw_tree::Argument;
use sw_values::Value;

// What a function answered, here.
fn of_fn(answer: Result<Value, FnFault>, span: &Span) -> Result<Value, Refused>
    ensures { (right : Result Plain FnFault) → IsAnswer answer right → Returns result (of_fn span.now right) }
{
    match answer {
        Ok(value) => Ok(value),
        Err(FnFault::ArgumentFault) => refuses(FaultCode::ArgumentFault, span),
        Err(FnFault::TypeFault) => refuses(FaultCode::TypeFault, span),
        Err(FnFault::UnitFault) => refuses(FaultCode::UnitFault, span),
        Err(FnFault::DivideByZero) => refuses(FaultCode::DivideByZero, span),
        Err(FnFault::NumberRange) => refuses(FaultCode::NumberRange, span),
        Err(FnFault::NotCss) => refuses(FaultCode::NotCss, span),
        Err(FnFault::TooLarge) => refuses(FaultCode::TooLarge, span),
        Err(FnFault::Index) => refuses(FaultCode::Index, span),
        Err(FnFault::Memory) => Err(Refused::Memory),
    }
}

// What the function gives for these values of its parameters, which keeps no sides.
fn grown_value(
    alloc: Global,
    function: BuiltIn,
    filled: List<(Name, Value)>,
    span: &Span,
) -> Result<Value, Refused>
    ensures { Returns result (with (of_fn span.now (answer function filled)) (λ v. plain_at v span.now)) }
{
    let value = of_fn(call_grown(alloc, function, filled), span)?;
    into_plain_at(value, span)
}

// What fills the parameters of a function by a call with these arguments, which have these values.
fn filled_by(
    alloc: Global,
    function: BuiltIn,
    arguments: &[Argument],
    values: &[Value],
    span: &Span,
) -> Result<List<(Name, Value)>, Refused>
    ensures { Returns result (built_in_arguments function (all_passed none_passed arguments.now values.now) span.now) }
{
    let passed = all_passed(alloc, arguments, values)?;
    built_in_arguments(alloc, function, &passed, span)
}

/// What a call gives of a function that makes its first argument grow. The values of its arguments are given up before
/// the function is asked, so that what nobody else holds isn't copied.
pub fn built_in_grown(
    alloc: Global,
    function: BuiltIn,
    arguments: &[Argument],
    values: List<Value>,
    span: &Span,
) -> Result<Value, Refused>
    requires { grows function ≡ true }
    ensures { Returns result (built_in_call function arguments.now values span.now) }
{
    match filled_by(alloc, function, arguments, values.as_slice(), span) {
        Err(refused) => at_argument(alloc, false, arguments, values.as_slice(), Err(refused)),
        Ok(filled) => {
            drop(values);
            grown_value(alloc, function, filled, span)
        }
    }
}
