// What a call passes, and what its parameters are given.
ghost use Rattle.std.specs.Prelude.{◌≡◌, [], OnOk};
ghost use Rattle.std.specs.Option.{option_copied};
ghost use Rattle.sw_eval_literals.specs.Answers.{Returns};
ghost use Rattle.sw_eval_calls.specs.Passing.{passed_on, plains, plain_named, plain_passed, bound_by, bound, default_at};

use std::alloc::Global;
use sw_eval_literals::{Refused, fails as refuses, plain_at};
use sw_scope::{BindFault, Passed, Slots, bind};
use sw_text::{FaultCode, List, Memory, Name, Span};
use sw_tree::{Argument, Expr, Param, Params};
use sw_values::Value;

/// Passes the value of an argument.
#[tactic(auto, unfolding(crate::specs::Passing::passed_on))]
pub fn pass_on(
    alloc: Global,
    passed: &mut Passed,
    argument: &Argument,
    value: Value,
) -> Result<(), Memory>
    ensures { OnOk result (passed.new ≡ passed_on passed.old argument.now value) }
{
    if argument.spread {
        return passed.spread(alloc, &value);
    }
    match &argument.name {
        Some(name) => passed.pass_named(name.share()?, value),
        None => passed.pass(value),
    }
}

fn plains(alloc: Global, values: &[Value], span: &Span) -> Result<List<Value>, Refused>
    ensures { Returns result (plains [] values.now span.now) }
{
    let mut done = List::new(alloc);
    'values: for value in values {
        let plain = plain_at(value, span)?;
        done.push(plain)?;
    }
    Ok(done)
}

fn plain_named(
    alloc: Global,
    named: &[(Name, Value)],
    span: &Span,
) -> Result<List<(Name, Value)>, Refused>
    ensures { Returns result (plain_named [] named.now span.now) }
{
    let mut done = List::new(alloc);
    'named: for one in named {
        let plain = plain_at(&one.1, span)?;
        let name = one.0.share()?;
        done.push((name, plain))?;
    }
    Ok(done)
}

/// The arguments as they are bound: each quotient that keeps its sides as its number (docs/LANGUAGE.md, Arguments).
/// `DivideByZero` at `span` where one is over zero; `Memory` exactly where none was found.
#[tactic(auto, unfolding(crate::specs::Passing::plain_passed))]
pub fn plain_passed(alloc: Global, passed: &Passed, span: &Span) -> Result<Passed, Refused>
    ensures { Returns result (plain_passed passed.now span.now) }
{
    let items = plains(alloc, passed.items.as_slice(), span)?;
    let named = plain_named(alloc, passed.named.as_slice(), span)?;
    Ok(Passed {
        items,
        named,
        by_name: passed.by_name,
        faulty: passed.faulty,
    })
}

/// What parameters are given by plain arguments, or why they can't be, at `span`: `ArgumentFault` where they don't fit,
/// `TooLarge` where a rest is too large. `Memory` exactly where none was found.
pub fn bound_by(
    alloc: Global,
    params: &Params,
    passed: &Passed,
    span: &Span,
) -> Result<Slots, Refused>
    ensures { Returns result (bound_by params.now passed.now span.now) }
{
    match bind(alloc, params, passed) {
        Ok(slots) => Ok(slots),
        Err(BindFault::ArgumentFault) => refuses(FaultCode::ArgumentFault, span),
        Err(BindFault::TooLarge) => refuses(FaultCode::TooLarge, span),
        Err(BindFault::Memory) => Err(Refused::Memory),
    }
}

/// What parameters are given by the arguments of a call.
#[tactic(auto, unfolding(crate::specs::Passing::bound))]
pub fn bound(alloc: Global, params: &Params, passed: &Passed, span: &Span) -> Result<Slots, Refused>
    ensures { Returns result (bound params.now passed.now span.now) }
{
    let plain = plain_passed(alloc, passed, span)?;
    bound_by(alloc, params, &plain, span)
}

/// The default of the parameter at a place.
pub fn default_at(params: &[Param], place: usize) -> Option<&Expr>
    ensures { option_copied result ≡ default_at params.now place }
{
    match params.get(place) {
        Some(param) => param.default.as_ref(),
        None => None,
    }
}
