// Calls of functions.
ghost use Rattle.sw_eval_questions.specs.Did.{IsReturn};
ghost use Rattle.sw_eval_state.specs.Entering.{returned};
ghost use Rattle.sw_eval_state.specs.declared.state.State.{State};
ghost use Rattle.sw_eval_walk.specs.Going.{Goes_on};
ghost use Rattle.sw_eval_expressions.specs.Calls.{sheet_call, built_in_call, built_in_by, call_by, call_value};

use crate::choosing::has_spread;
use crate::functions::{css_called, if_called};
use sw_builtins::BuiltIn;
use sw_eval_questions::{Stop, stopped};
use sw_eval_state::{Called, Found, function_entry, returned};
use sw_eval_walk::{Below, Body, Level, Returned, Walk, argument_values, arguments_of};
use sw_text::Span;
use sw_tree::{Argument, Callee};
use sw_values::Value;
use sw_world::World;

/// A call, which stands here.
#[derive(Clone, Copy)]
pub(crate) struct CallExpression<'a> {
    /// What is called.
    pub callee: &'a Callee,
    /// What it is given, in order.
    pub arguments: &'a [Argument],
    /// Where the call stands.
    pub span: &'a Span,
}

// What the body of a function gives, whose call stands here.
fn given(value: Returned, span: &Span) -> Result<Value, Stop>
    ensures { (s : State) → IsReturn result s (returned value span.now s) }
{
    match value {
        Some(value) => {
            let value = value.get().share()?;
            returned(Some(value), span)
        }
        None => returned(None, span),
    }
}

// The call of a function of a sheet.
#[inline(never)]
fn sheet_call<W: World, B: Below<W>>(
    walk: &mut Walk,
    level: Level<B>,
    function: &Found,
    one: CallExpression<'_>,
    world: &mut W,
) -> Result<Value, Stop>
    requires { B.fits level.below }
    ensures { Goes_on W.gives (sheet_call (B.values level.below) (B.bodies level.below) level.parens function.now
        one.entry.arguments.now one.entry.span.now) walk.old world.old result walk.new world.new }
{
    let passed = arguments_of(walk, level.deeper(), one.arguments, world)?;
    let entry = stopped(function_entry(walk.alloc, function, &passed, one.span))?;
    let callable = function.callable.get();
    let body = Body {
        start: &entry,
        params: callable.params.items.as_slice(),
        block: callable.block.as_slice(),
    };
    let value = level.below.enter(walk, one.span, body, world)?;
    given(value, one.span)
}

// A built-in function, which is given its arguments.
#[inline(never)]
fn built_in_call<W: World, B: Below<W>>(
    walk: &mut Walk,
    level: Level<B>,
    function: BuiltIn,
    one: CallExpression<'_>,
    world: &mut W,
) -> Result<Value, Stop>
    requires { B.fits level.below }
    ensures { Goes_on W.gives (built_in_call (B.values level.below) (B.bodies level.below) level.parens function
        one.entry.arguments.now one.entry.span.now) walk.old world.old result walk.new world.new }
{
    let values = argument_values(walk, level.deeper(), one.arguments, world)?;
    walk.built_in_called(function, one.arguments, values.as_slice(), one.span, world)
}

// Of the arguments of `if()` it is given one at most, unless a value is written with `...`.
fn built_in_by<W: World, B: Below<W>>(
    walk: &mut Walk,
    level: Level<B>,
    function: BuiltIn,
    one: CallExpression<'_>,
    world: &mut W,
) -> Result<Value, Stop>
    requires { B.fits level.below }
    ensures { Goes_on W.gives (built_in_by (B.values level.below) (B.bodies level.below) level.parens function
        one.entry.arguments.now one.entry.span.now) walk.old world.old result walk.new world.new }
{
    match function {
        BuiltIn::If => {
            if has_spread(one.arguments) {
                return built_in_call(walk, level, function, one, world);
            }
            if_called(walk, level, one.arguments, one.span, world)
        }
        _ => built_in_call(walk, level, function, one, world),
    }
}

// A call of what was found.
#[inline(always)]
pub(crate) fn call_by<W: World, B: Below<W>>(
    walk: &mut Walk,
    level: Level<B>,
    called: &Called,
    one: CallExpression<'_>,
    world: &mut W,
) -> Result<Value, Stop>
    requires { B.fits level.below }
    ensures { Goes_on W.gives (call_by (B.values level.below) (B.bodies level.below) level.parens one.entry.callee.now
        one.entry.arguments.now one.entry.span.now called.now) walk.old world.old result walk.new world.new }
{
    match called {
        Called::Sheet(function) => sheet_call(walk, level, function, one, world),
        Called::BuiltIn(function) => built_in_by(walk, level, *function, one, world),
        Called::Css => css_called(walk, level, one, world),
    }
}

// The value of a call.
#[inline(never)]
pub(crate) fn call<W: World, B: Below<W>>(
    walk: &mut Walk,
    level: Level<B>,
    one: CallExpression<'_>,
    world: &mut W,
) -> Result<Value, Stop>
    requires { B.fits level.below }
    ensures { Goes_on W.gives (call_value (B.values level.below) (B.bodies level.below) level.parens
        one.entry.callee.now one.entry.arguments.now one.entry.span.now) walk.old world.old result walk.new world.new }
{
    let called = walk.called(one.callee, one.span, world)?;
    call_by(walk, level, &called, one, world)
}
