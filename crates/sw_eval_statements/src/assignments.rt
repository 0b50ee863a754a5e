// Assignments.
ghost use Rattle.sw_eval_walk.specs.Going.{Goes_on};
ghost use Rattle.sw_eval_statements.specs.Assignments.{variable_set, assigned, assigned_always, assigned_default};

use crate::names::name_span;
use sw_eval_questions::Stop;
use sw_eval_state::is_null;
use sw_eval_walk::{Below, Level, Returned, Walk, plain_value};
use sw_tree::{Assignment, Variable};
use sw_world::World;

// An assignment to a variable without a namespace.
#[inline(never)]
pub(crate) fn variable_set<W: World, B: Below<W>>(
    walk: &mut Walk,
    below: B,
    statement: &Variable,
    world: &mut W,
) -> Result<Returned, Stop>
    requires { B.fits below }
    ensures { Goes_on W.gives (variable_set (B.values below) statement.now) walk.old world.old result
        walk.new world.new }
{
    let name_span = name_span(statement)?;
    let kept = walk.kept(
        statement.flags,
        &statement.name,
        &name_span,
        &statement.span,
        world,
    )?;
    if kept {
        return Ok(None);
    }
    let value = plain_value(walk, Level::outside(below), &statement.value, world)?;
    walk.stored(
        statement.flags.global,
        &statement.name,
        value,
        &name_span,
        &statement.span,
        world,
    )?;
    Ok(None)
}

fn assigned_always<W: World, B: Below<W>>(
    walk: &mut Walk,
    below: B,
    statement: &Assignment,
    world: &mut W,
) -> Result<Returned, Stop>
    requires { B.fits below }
    ensures { Goes_on W.gives (assigned_always (B.values below) statement.now) walk.old world.old result
        walk.new world.new }
{
    let value = plain_value(walk, Level::outside(below), &statement.value, world)?;
    let owner = walk.targeted(
        &statement.target,
        &statement.target_span,
        &statement.span,
        world,
    )?;
    walk.putting(owner, value, &statement.span, world)?;
    Ok(None)
}

// An assignment with `!default` to a variable behind a namespace.
fn assigned_default<W: World, B: Below<W>>(
    walk: &mut Walk,
    below: B,
    statement: &Assignment,
    world: &mut W,
) -> Result<Returned, Stop>
    requires { B.fits below }
    ensures { Goes_on W.gives (assigned_default (B.values below) statement.now) walk.old world.old result
        walk.new world.new }
{
    let owner = walk.targeted(
        &statement.target,
        &statement.target_span,
        &statement.span,
        world,
    )?;
    let old = walk.getting(owner, &statement.span, world)?;
    if !is_null(&old) {
        return Ok(None);
    }
    let value = plain_value(walk, Level::outside(below), &statement.value, world)?;
    walk.putting(owner, value, &statement.span, world)?;
    Ok(None)
}

// An assignment to a variable behind a namespace.
#[inline(never)]
pub(crate) fn assigned<W: World, B: Below<W>>(
    walk: &mut Walk,
    below: B,
    statement: &Assignment,
    world: &mut W,
) -> Result<Returned, Stop>
    requires { B.fits below }
    ensures { Goes_on W.gives (assigned (B.values below) statement.now) walk.old world.old result
        walk.new world.new }
{
    if statement.flags.default {
        assigned_default(walk, below, statement, world)
    } else {
        assigned_always(walk, below, statement, world)
    }
}
