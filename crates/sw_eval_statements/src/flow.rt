// Blocks, branches and loops with a condition.
ghost use Rattle.sw_eval_walk.specs.Going.{Goes_on};
ghost use Rattle.sw_eval_statements.specs.Flow.{block, framed, holds, branches, repeats, repeat_in};

use sw_eval_questions::Stop;
use sw_eval_state::fails;
use sw_eval_walk::{Below, Level, Returned, Walk, value_of};
use sw_scope::FrameKind;
use sw_text::{FaultCode, List};
use sw_tree::{Branch, Expr, Statement, While};
use sw_world::World;

pub(crate) fn block<W: World, B: Below<W>>(
    walk: &mut Walk,
    below: B,
    all: &[Statement],
    world: &mut W,
) -> Result<Returned, Stop>
    requires { B.fits below }
    ensures { Goes_on W.gives (block (B.statements below) all.now) walk.old world.old result walk.new world.new }
{
    for one in all {
        if let Some(value) = below.does(walk, one, world)? {
            return Ok(Some(value));
        }
    }
    Ok(None)
}

// A block in a frame of its own.
pub(crate) fn framed<W: World, B: Below<W>>(
    walk: &mut Walk,
    below: B,
    kind: FrameKind,
    all: &[Statement],
    world: &mut W,
) -> Result<Returned, Stop>
    requires { B.fits below }
    ensures { Goes_on W.gives (framed (B.statements below) kind all.now) walk.old world.old result walk.new world.new }
{
    walk.state.enter(kind)?;
    let value = block(walk, below, all, world)?;
    walk.state.leave();
    Ok(value)
}

// Whether a condition holds: only false and null don't.
fn holds<W: World, B: Below<W>>(
    walk: &mut Walk,
    below: B,
    e: &Expr,
    world: &mut W,
) -> Result<bool, Stop>
    requires { B.fits below }
    ensures { Goes_on W.gives (holds (B.values below) e.now) walk.old world.old result walk.new world.new }
{
    let test = value_of(walk, Level::outside(below), e, world)?;
    Ok(test.truth())
}

// The block of the first condition that holds, or else the last one.
#[inline(never)]
pub(crate) fn branches<W: World, B: Below<W>>(
    walk: &mut Walk,
    below: B,
    all: &[Branch],
    otherwise: &Option<List<Statement>>,
    world: &mut W,
) -> Result<Returned, Stop>
    requires { B.fits below }
    ensures { Goes_on W.gives (branches (B.values below) (B.statements below) otherwise.now all.now) walk.old
        world.old result walk.new world.new }
{
    for one in all {
        let holds = holds(walk, below, &one.condition, world)?;
        if holds {
            return framed(walk, below, FrameKind::Flow, one.block.as_slice(), world);
        }
    }
    match otherwise {
        Some(block) => framed(walk, below, FrameKind::Flow, block.as_slice(), world),
        None => Ok(None),
    }
}

// A turn as long as the condition holds. There is a test more than turns.
fn repeats<W: World, B: Below<W>>(
    walk: &mut Walk,
    below: B,
    statement: &While,
    world: &mut W,
) -> Result<Returned, Stop>
    requires { B.fits below }
    ensures { Goes_on W.gives (repeats (B.values below) (B.statements below) statement.now) walk.old world.old result
        walk.new world.new }
{
    let mut left = u64::from(walk.state.turns) + 1;
    while left > 0 {
        let goes_on = holds(walk, below, &statement.condition, world)?;
        if !goes_on {
            return Ok(None);
        }
        walk.state.spend(&statement.span)?;
        if let Some(value) = block(walk, below, statement.block.as_slice(), world)? {
            return Ok(Some(value));
        }
        left -= 1;
    }
    fails(FaultCode::Turns, &statement.span)
}

// In one frame for all turns.
#[inline(never)]
pub(crate) fn repeat_in<W: World, B: Below<W>>(
    walk: &mut Walk,
    below: B,
    statement: &While,
    world: &mut W,
) -> Result<Returned, Stop>
    requires { B.fits below }
    ensures { Goes_on W.gives (repeat_in (B.values below) (B.statements below) statement.now) walk.old world.old
        result walk.new world.new }
{
    walk.state.enter(FrameKind::Flow)?;
    let value = repeats(walk, below, statement, world)?;
    walk.state.leave();
    Ok(value)
}
