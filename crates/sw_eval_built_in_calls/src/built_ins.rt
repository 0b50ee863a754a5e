// Built-in functions and variables.
ghost use Rattle.std.specs.Prelude.{◌≡◌, [], IfOk};
ghost use Rattle.std.specs.Option.{option_copied};
ghost use Rattle.sw_fn_call.specs.Answers.{IsAnswer};
ghost use Rattle.sw_fn_call.specs.declared.fault.FnFault.{FnFault};
ghost use Rattle.sw_values.specs.declared.plain.Plain.{Plain};
ghost use Rattle.std.specs.Prelude.{Result};
ghost use Rattle.sw_eval_literals.specs.Answers.{Returns};
ghost use Rattle.sw_eval_built_in_calls.specs.BuiltIns.{of_fn, word_by, constant_by, constant_of, filled_with, filled, names_of, built_in_arguments, built_in_value, built_in_call, built_in_variable};
ghost use Rattle.sw_tree.specs.declared.expr.ExprKind.{out-ExprKind};
ghost use Rattle.sw_tree.specs.declared.text.Parts.{out-Parts};

use std::alloc::Global;
use sw_builtins::{BuiltIn, call, params, variable};
use sw_eval_calls::{all_passed, at_argument, bound_by, default_at, plain_passed};
use sw_eval_literals::{
    Refused, constant_value, fails as refuses, into_plain_at, number_value, word_value,
};
use sw_fn_call::FnFault;
use sw_scope::{Passed, Slot};
use sw_text::{FaultCode, List, Memory, Name, Span};
use sw_tree::{Argument, Expr, ExprKind, Number, Param, Parts};
use sw_values::Value;

// What a function answered, here.
fn of_fn(answer: Result<Value, FnFault>, span: &Span) -> Result<Value, Refused>
    ensures { (right : Result Plain FnFault) → IsAnswer answer right → Returns result (of_fn span.now right) }
{
    match answer {
        Ok(value) => Ok(value),
        Err(FnFault::ArgumentFault) => refuses(FaultCode::ArgumentFault, span),
        Err(FnFault::TypeFault) => refuses(FaultCode::TypeFault, span),
        Err(FnFault::UnitFault) => refuses(FaultCode::UnitFault, span),
        Err(FnFault::DivideByZero) => refuses(FaultCode::DivideByZero, span),
        Err(FnFault::NumberRange) => refuses(FaultCode::NumberRange, span),
        Err(FnFault::NotCss) => refuses(FaultCode::NotCss, span),
        Err(FnFault::TooLarge) => refuses(FaultCode::TooLarge, span),
        Err(FnFault::Index) => refuses(FaultCode::Index, span),
        Err(FnFault::Memory) => Err(Refused::Memory),
    }
}

// A word without values in it.
fn word_by(alloc: Global, parts: &Parts, span: &Span) -> Result<Value, Refused>
    ensures { Returns result (word_by (out-Parts parts.now) span.now) }
{
    match parts {
        Parts::Plain(text) => word_value(alloc, text, span),
        Parts::Mixed(_) => Ok(Value::null()),
    }
}

// The value of a default of a built-in function: a number, a constant or a word.
fn constant_by(alloc: Global, kind: &ExprKind, span: &Span) -> Result<Value, Refused>
    ensures { Returns result (constant_by (out-ExprKind kind.now) span.now) }
{
    match kind {
        ExprKind::Number(number) => number_value(number, span),
        ExprKind::Constant(constant) => Ok(constant_value(*constant)),
        ExprKind::Word(parts) => word_by(alloc, parts, span),
        _ => Ok(Value::null()),
    }
}

fn constant_of(alloc: Global, default: Option<&Expr>, span: &Span) -> Result<Value, Refused>
    ensures { Returns result (constant_of (option_copied default.entry) span.now) }
{
    match default {
        Some(e) => constant_by(alloc, &e.kind, span),
        None => Ok(Value::null()),
    }
}

fn filled_with(alloc: Global, params: &[Param], slot: &Slot, span: &Span) -> Result<Value, Refused>
    ensures { Returns result (filled_with params.now slot.now span.now) }
{
    match slot {
        Slot::Filled(value) => Ok(value.share()?),
        Slot::Default(place) => constant_of(alloc, default_at(params, *place), span),
    }
}

// The parameters with the values that fill them.
fn filled(
    alloc: Global,
    params: &[Param],
    slots: &[(Name, Slot)],
    span: &Span,
) -> Result<List<(Name, Value)>, Refused>
    ensures { Returns result (filled [] params.now slots.now span.now) }
{
    let mut done = List::new(alloc);
    'slots: for one in slots {
        let value = filled_with(alloc, params, &one.1, span)?;
        let name = one.0.share()?;
        done.push((name, value))?;
    }
    Ok(done)
}

#[tactic(auto, using(crate::proofs::Filled::name_next, crate::proofs::Filled::names_end))]
fn names_of(alloc: Global, named: &[(Name, Value)]) -> Result<List<Name>, Memory>
    ensures { IfOk result (λ names. names ≡ names_of named.now) }
{
    let mut names = List::new(alloc);
    'named: for one in named {
        names.push(one.0.share()?)?;
    }
    Ok(names)
}

/// The parameters of a built-in function with the values that fill them, by plain arguments of a call that stands here.
#[tactic(auto, unfolding(crate::specs::BuiltIns::built_in_arguments))]
pub fn built_in_arguments(
    alloc: Global,
    function: BuiltIn,
    passed: &Passed,
    span: &Span,
) -> Result<List<(Name, Value)>, Refused>
    ensures { Returns result (built_in_arguments function passed.now span.now) }
{
    let plain = plain_passed(alloc, passed, span)?;
    let names = names_of(alloc, plain.named.as_slice())?;
    let params = params(alloc, function, plain.items.len(), names.as_slice())?;
    let slots = bound_by(alloc, &params, &plain, span)?;
    filled(alloc, params.items.as_slice(), slots.as_slice(), span)
}

/// What a built-in function gives for the arguments of a call that stands here.
#[tactic(auto, unfolding(crate::specs::BuiltIns::built_in_value))]
pub fn built_in_value(
    alloc: Global,
    function: BuiltIn,
    passed: &Passed,
    span: &Span,
) -> Result<Value, Refused>
    ensures { Returns result (built_in_value function passed.now span.now) }
{
    let arguments = built_in_arguments(alloc, function, passed, span)?;
    let value = of_fn(call(alloc, function, arguments.as_slice()), span)?;
    into_plain_at(value, span)
}

/// The same of a call with these arguments, which have these values. What can't be written in CSS is a fault at its
/// argument.
pub fn built_in_call(
    alloc: Global,
    function: BuiltIn,
    arguments: &[Argument],
    values: &[Value],
    span: &Span,
) -> Result<Value, Refused>
    ensures { Returns result (built_in_call function arguments.now values.now span.now) }
{
    let passed = all_passed(alloc, arguments, values)?;
    let value = built_in_value(alloc, function, &passed, span);
    at_argument(alloc, false, arguments, values, value)
}

/// The value of a variable of a built-in module, which stands here; without one, this fault.
pub fn built_in_variable(
    alloc: Global,
    unknown: FaultCode,
    module: &Name,
    name: &Name,
    span: &Span,
) -> Result<Value, Refused>
    ensures { Returns result (built_in_variable unknown module.now name.now span.now) }
{
    match variable(module.as_str(), name.as_str()) {
        Some(value) => {
            let unit = Name::new(alloc, "")?;
            let number = Number {
                value: Some(value),
                unit,
            };
            number_value(&number, span)
        }
        None => refuses(unknown, span),
    }
}
