// What the arguments of a call pass, and where the fault of one stands.
ghost use Rattle.std.specs.Prelude.{◌≡◌, IfOk};
ghost use Rattle.sw_values.specs.declared.plain.Plain.{Plain};
ghost use Rattle.sw_scope.specs.Passed.{none_passed};
ghost use Rattle.sw_text.specs.declared.fault.FaultCode.TheVariants.{NotCss};
ghost use Rattle.sw_eval_literals.specs.Answers.{Answer, Returns, refused};
ghost use Rattle.sw_eval_calls.specs.Placing.{all_passed, is_css, are_css, named_css, passes_css, is_writable, unwritable, is_not_css, at_argument};

use crate::passing::{pass_on, plain_passed};
use std::alloc::Global;
use sw_eval_literals::{Refused, fails as refuses};
use sw_scope::Passed;
use sw_text::{FaultCode, List, Memory, Name, Span};
use sw_tree::Argument;
use sw_values::{Value, ValueFault};

/// What arguments of these values pass.
#[tactic(auto, using(crate::proofs::Placed::passed_next, crate::proofs::Placed::passed_none, crate::proofs::Placed::passed_end))]
pub fn all_passed(alloc: Global, arguments: &[Argument], values: &[Value]) -> Result<Passed, Memory>
    ensures { IfOk result (λ passed. passed ≡ all_passed none_passed arguments.now values.now) }
{
    let mut passed = Passed::new(alloc);
    'arguments: for place in 0..arguments.len() {
        if place >= values.len() {
            return Ok(passed);
        }
        let value = values[place].share()?;
        pass_on(alloc, &mut passed, &arguments[place], value)?;
    }
    Ok(passed)
}

// ---- what can be written in CSS

fn is_css(alloc: Global, value: &Value) -> Result<bool, Memory>
    ensures { IfOk result (λ written. written ≡ is_css value.now) }
{
    match value.css_text(alloc, true) {
        Ok(_) => Ok(true),
        Err(ValueFault::TooLarge) => Ok(true),
        Err(ValueFault::NotCss) => Ok(false),
        Err(ValueFault::DuplicateKey(_)) => unreachable!(),
        Err(ValueFault::Memory) => Err(Memory),
    }
}

fn are_css(alloc: Global, values: &[Value]) -> Result<bool, Memory>
    ensures { IfOk result (λ written. written ≡ are_css values.now) }
{
    'values: for value in values {
        if !is_css(alloc, value)? {
            return Ok(false);
        }
    }
    Ok(true)
}

fn named_css(alloc: Global, named: &[(Name, Value)]) -> Result<bool, Memory>
    ensures { IfOk result (λ written. written ≡ named_css named.now) }
{
    'named: for one in named {
        if !is_css(alloc, &one.1)? {
            return Ok(false);
        }
    }
    Ok(true)
}

fn passes_css(alloc: Global, passed: &Passed) -> Result<bool, Memory>
    ensures { IfOk result (λ written. written ≡ passes_css passed.now) }
{
    if are_css(alloc, passed.items.as_slice())? {
        named_css(alloc, passed.named.as_slice())
    } else {
        Ok(false)
    }
}

// Whether all that an argument of this value passes can be written, with the sides that quotients keep or without them.
fn is_writable(
    alloc: Global,
    sides: bool,
    argument: &Argument,
    value: &Value,
) -> Result<bool, Memory>
    ensures { IfOk result (λ written. written ≡ is_writable sides argument.now value.now) }
{
    let mut passed = Passed::new(alloc);
    pass_on(alloc, &mut passed, argument, value.share()?)?;
    if sides {
        return passes_css(alloc, &passed);
    }
    match plain_passed(alloc, &passed, &argument.value.span) {
        Ok(plain) => passes_css(alloc, &plain),
        Err(Refused::Fault(_)) => Ok(true),
        Err(Refused::Memory) => Err(Memory),
    }
}

// ---- places

// Where the first argument stands that can't be written; here where there is none.
#[tactic(auto, using(crate::proofs::Placed::writable_next, crate::proofs::Placed::writable_wrong, crate::proofs::Placed::writable_none, crate::proofs::Placed::writable_end))]
fn unwritable(
    alloc: Global,
    sides: bool,
    arguments: &[Argument],
    values: &[Value],
    span: &Span,
) -> Result<Span, Memory>
    ensures { IfOk result (λ place. place ≡ unwritable sides arguments.now values.now span.now) }
{
    'arguments: for place in 0..arguments.len() {
        if place >= values.len() {
            return span.share();
        }
        if !is_writable(alloc, sides, &arguments[place], &values[place])? {
            return arguments[place].value.span.share();
        }
    }
    span.share()
}

fn is_not_css(code: FaultCode) -> bool
    ensures { result ≡ is_not_css code }
{
    code == FaultCode::NotCss
}

// The fault that something can't be written, at the first argument that can't be.
fn refuse_unwritable(
    alloc: Global,
    sides: bool,
    arguments: &[Argument],
    values: &[Value],
    span: &Span,
) -> Result<Value, Refused>
    ensures { Returns result (refused NotCss (unwritable sides arguments.now values.now span.now)) }
{
    let place = unwritable(alloc, sides, arguments, values, span)?;
    refuses(FaultCode::NotCss, &place)
}

/// What a call of these arguments and values answers: the fault that something can't be written stands at the first
/// argument that can't be. With `sides` quotients are written with the sides that they keep.
pub fn at_argument(
    alloc: Global,
    sides: bool,
    arguments: &[Argument],
    values: &[Value],
    answer: Result<Value, Refused>,
) -> Result<Value, Refused>
    ensures { (right : Answer Plain) → Returns answer right → Returns result (at_argument sides arguments.now values.now
        right) }
{
    match answer {
        Ok(value) => Ok(value),
        Err(Refused::Fault(fault)) => {
            if is_not_css(fault.code) {
                return refuse_unwritable(alloc, sides, arguments, values, &fault.span);
            }
            Err(Refused::Fault(fault))
        }
        Err(Refused::Memory) => Err(Refused::Memory),
    }
}
