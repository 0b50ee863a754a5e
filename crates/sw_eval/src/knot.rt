// Levels over one another: the only functions that call themselves. Each makes the level below of three closures, since
// a closure can't be handed out of the function that makes it.
ghost use Rattle.std.specs.Prelude.{◌≡◌, ◌<◌, false};
ghost use Rattle.sw_eval_walk.specs.Going.{Goes_on};
ghost use Rattle.sw_eval_statements.specs.Assignments.{variable_set};
ghost use Rattle.sw_eval.specs.Means.{value_to, does_to, enter_to};
ghost use Rattle.sw_eval.specs.Growing.{Went};

use crate::growing::{ValuePlace, assigned, growing};
use crate::lower::Lower;
use sw_eval_expressions::{value_given_up, value_one};
use sw_eval_literals::Parens;
use sw_eval_questions::Stop;
use sw_eval_state::fails;
use sw_eval_statements::{does_placed, place_of, run_body};
use sw_eval_walk::{Body, Level, Returned, Walk};
use sw_text::{FaultCode, Span};
use sw_tree::{Expr, Statement, Variable};
use sw_values::Value;
use sw_world::World;

// The value of an expression that is nested no deeper, where it stands.
#[cycle(knot)]
pub(crate) fn value_at<W: World>(
    walk: &mut Walk,
    depth: u32,
    place: ValuePlace<'_>,
    e: &Expr,
    world: &mut W,
) -> Result<Value, Stop>
    ensures { Went W.gives place.entry depth e.now walk.old world.old result walk.new world.new }
{
    if depth == 0 {
        return fails(FaultCode::Depth, &e.span);
    }
    let lower = depth - 1;
    let below = Lower {
        depth: lower,
        value: move |walk: &mut Walk, parens: Parens, e: &Expr, world: &mut W| -> Result<
            Value,
            Stop,
        >
            requires { lower < depth }
            ensures { Goes_on W.gives (value_to lower parens e.now) walk.old world.old result walk.new world.new }
        {
            let _ = &depth;
            value_at(walk, lower, ValuePlace::Within(parens), e, world)
        },
        does: move |walk: &mut Walk, one: &Statement, world: &mut W| -> Result<Returned, Stop>
            requires { lower < depth }
            ensures { Goes_on W.gives (does_to lower one.now) walk.old world.old result walk.new world.new }
        {
            let _ = &depth;
            does_at(walk, lower, one, world)
        },
        enter: move |walk: &mut Walk, span: &Span, body: Body<'_>, world: &mut W| -> Result<
            Returned,
            Stop,
        >
            requires { lower < depth }
            ensures { Goes_on W.gives (enter_to lower span.now body.entry.start.now body.entry.params.now
                body.entry.block.now) walk.old world.old result walk.new world.new }
        {
            let _ = &depth;
            enter_at(walk, lower, span, body, world)
        },
    };
    match place {
        ValuePlace::Within(parens) => value_one(walk, Level { below, parens }, e, world),
        ValuePlace::Assigned(name) => {
            value_given_up(walk, Level::outside(below), name, e, world)
        }
    }
}

// The body of what is called, which is nested no deeper. The call stands here.
#[cycle(knot)]
pub(crate) fn enter_at<W: World>(
    walk: &mut Walk,
    depth: u32,
    span: &Span,
    body: Body<'_>,
    world: &mut W,
) -> Result<Returned, Stop>
    ensures { Goes_on W.gives (enter_to depth span.now body.entry.start.now body.entry.params.now
        body.entry.block.now) walk.old world.old result walk.new world.new }
{
    if depth == 0 {
        return fails(FaultCode::Depth, span);
    }
    let lower = depth - 1;
    let below = Lower {
        depth: lower,
        value: move |walk: &mut Walk, parens: Parens, e: &Expr, world: &mut W| -> Result<
            Value,
            Stop,
        >
            requires { lower < depth }
            ensures { Goes_on W.gives (value_to lower parens e.now) walk.old world.old result walk.new world.new }
        {
            let _ = &depth;
            value_at(walk, lower, ValuePlace::Within(parens), e, world)
        },
        does: move |walk: &mut Walk, one: &Statement, world: &mut W| -> Result<Returned, Stop>
            requires { lower < depth }
            ensures { Goes_on W.gives (does_to lower one.now) walk.old world.old result walk.new world.new }
        {
            let _ = &depth;
            does_at(walk, lower, one, world)
        },
        enter: move |walk: &mut Walk, span: &Span, body: Body<'_>, world: &mut W| -> Result<
            Returned,
            Stop,
        >
            requires { lower < depth }
            ensures { Goes_on W.gives (enter_to lower span.now body.entry.start.now body.entry.params.now
                body.entry.block.now) walk.old world.old result walk.new world.new }
        {
            let _ = &depth;
            enter_at(walk, lower, span, body, world)
        },
    };
    run_body(walk, below, span, body, world)
}

// An assignment without flags, whose value is nested no deeper.
#[cycle(knot)]
#[inline(never)]
fn set_at<W: World>(
    walk: &mut Walk,
    depth: u32,
    one: &Variable,
    world: &mut W,
) -> Result<Returned, Stop>
    requires default { one.now.flags.default ≡ false }
    requires global { one.now.flags.global ≡ false }
    ensures { Goes_on W.gives (variable_set (value_to depth) one.now) walk.old world.old result walk.new world.new }
{
    let value = value_at(
        walk,
        depth,
        ValuePlace::Assigned(&one.name),
        &one.value,
        world,
    )?;
    assigned(walk, one, value)
}

// A statement that is nested no deeper. A value that it gives ends what is around it.
#[cycle(knot)]
pub(crate) fn does_at<W: World>(
    walk: &mut Walk,
    depth: u32,
    statement: &Statement,
    world: &mut W,
) -> Result<Returned, Stop>
    ensures { Goes_on W.gives (does_to depth statement.now) walk.old world.old result walk.new world.new }
{
    if depth == 0 {
        return fails(FaultCode::Depth, place_of(statement));
    }
    let lower = depth - 1;
    if let Some(one) = growing(statement) {
        return set_at(walk, lower, one, world);
    }
    let below = Lower {
        depth: lower,
        value: move |walk: &mut Walk, parens: Parens, e: &Expr, world: &mut W| -> Result<
            Value,
            Stop,
        >
            requires { lower < depth }
            ensures { Goes_on W.gives (value_to lower parens e.now) walk.old world.old result walk.new world.new }
        {
            let _ = &depth;
            value_at(walk, lower, ValuePlace::Within(parens), e, world)
        },
        does: move |walk: &mut Walk, one: &Statement, world: &mut W| -> Result<Returned, Stop>
            requires { lower < depth }
            ensures { Goes_on W.gives (does_to lower one.now) walk.old world.old result walk.new world.new }
        {
            let _ = &depth;
            does_at(walk, lower, one, world)
        },
        enter: move |walk: &mut Walk, span: &Span, body: Body<'_>, world: &mut W| -> Result<
            Returned,
            Stop,
        >
            requires { lower < depth }
            ensures { Goes_on W.gives (enter_to lower span.now body.entry.start.now body.entry.params.now
                body.entry.block.now) walk.old world.old result walk.new world.new }
        {
            let _ = &depth;
            enter_at(walk, lower, span, body, world)
        },
    };
    does_placed(walk, below, statement, world)
}
