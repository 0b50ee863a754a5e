// Calls of functions of CSS, and `if()`.
ghost use Rattle.std.specs.Prelude.{◌≡◌, IfOk};
ghost use Rattle.sw_eval_walk.specs.Going.{Goes_on};
ghost use Rattle.sw_eval_expressions.specs.Functions.{written_name, css_with, css_called, one_of, chosen, if_called};
ghost use Rattle.sw_eval_expressions.specs.Choosing.{choice_of};

use crate::calls::CallExpression;
use crate::choosing::{Chosen, choice, one_by};
use std::alloc::Global;
use sw_eval_calls::{all_passed, css_call, names_any};
use sw_eval_literals::{into_plain_at, whole_text};
use sw_eval_questions::{Stop, stopped};
use sw_eval_state::fails;
use sw_eval_walk::{Below, Level, TextKind, Walk, argument_values, text, value_of};
use sw_text::{FaultCode, Memory, Name, Span};
use sw_tree::{Argument, Namespaced};
use sw_values::Value;
use sw_world::World;

// The name of a function that is written out: as the sheet writes it, with its namespace.
fn written_name(alloc: Global, space: &Option<Namespaced>, name: Name) -> Result<Name, Memory>
    ensures { IfOk result (λ whole. whole ≡ written_name space.now name) }
{
    match space {
        None => Ok(name),
        Some(space) => {
            let point = Name::new(alloc, ".")?;
            whole_text(alloc, &[space.name.share()?, point, name])
        }
    }
}

// The call of a function of CSS by this name with these values: the host's function, or else it is written out.
#[inline(never)]
fn css_with<W: World>(
    walk: &mut Walk,
    one: CallExpression<'_>,
    name: Name,
    values: &[Value],
    world: &mut W,
) -> Result<Value, Stop>
    ensures { Goes_on W.gives (css_with one.entry.callee.now name one.entry.arguments.now values.now
        one.entry.span.now) walk.old world.old result walk.new world.new }
{
    let passed = all_passed(walk.alloc, one.arguments, values)?;
    if names_any(&passed) {
        return fails(FaultCode::ArgumentFault, one.span);
    }
    if let Some(value) = walk.hosted_value(one.callee, &name, passed.items, one.span, world)? {
        return Ok(value);
    }
    let whole = written_name(walk.alloc, &one.callee.namespace, name)?;
    stopped(css_call(walk.alloc, whole, one.arguments, values, one.span))
}

// The call of a function of CSS, which takes no arguments by name.
#[inline(never)]
pub(crate) fn css_called<W: World, B: Below<W>>(
    walk: &mut Walk,
    level: Level<B>,
    one: CallExpression<'_>,
    world: &mut W,
) -> Result<Value, Stop>
    requires { B.fits level.below }
    ensures { Goes_on W.gives (css_called (B.values level.below) level.parens one.entry.callee.now
        one.entry.arguments.now one.entry.span.now) walk.old world.old result walk.new world.new }
{
    let written = &one.callee.name;
    let name = text(
        walk,
        level,
        TextKind::Expression,
        &written.parts,
        &written.span,
        world,
    )?;
    let values = argument_values(walk, level.deeper(), one.arguments, world)?;
    css_with(walk, one, name, values.as_slice(), world)
}

// What a condition chooses, which keeps no sides.
fn one_of<W: World, B: Below<W>>(
    walk: &mut Walk,
    level: Level<B>,
    holds: bool,
    choice: &Chosen<'_>,
    span: &Span,
    world: &mut W,
) -> Result<Value, Stop>
    requires { B.fits level.below }
    ensures { Goes_on W.gives (one_of (B.values level.below) level.parens holds (choice_of choice.now) span.now)
        walk.old world.old result walk.new world.new }
{
    let value = value_of(walk, level, one_by(choice, holds), world)?;
    stopped(into_plain_at(value, span))
}

// The condition, and what it chooses.
fn chosen<W: World, B: Below<W>>(
    walk: &mut Walk,
    level: Level<B>,
    choice: &Chosen<'_>,
    span: &Span,
    world: &mut W,
) -> Result<Value, Stop>
    requires { B.fits level.below }
    ensures { Goes_on W.gives (chosen (B.values level.below) level.parens (choice_of choice.now) span.now) walk.old
        world.old result walk.new world.new }
{
    let condition = value_of(walk, level, choice.condition, world)?;
    one_of(walk, level, condition.truth(), choice, span, world)
}

// `if()`, of whose arguments one is evaluated at most beside the condition.
#[inline(never)]
pub(crate) fn if_called<W: World, B: Below<W>>(
    walk: &mut Walk,
    level: Level<B>,
    arguments: &[Argument],
    span: &Span,
    world: &mut W,
) -> Result<Value, Stop>
    requires { B.fits level.below }
    ensures { Goes_on W.gives (if_called (B.values level.below) level.parens arguments.now span.now) walk.old
        world.old result walk.new world.new }
{
    match choice(arguments) {
        Some(choice) => chosen(walk, level.deeper(), &choice, span, world),
        None => fails(FaultCode::ArgumentFault, span),
    }
}
