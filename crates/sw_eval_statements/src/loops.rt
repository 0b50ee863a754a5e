// Loops over lists and numbers.
ghost use Rattle.sw_eval_walk.specs.Going.{Goes_on};
ghost use Rattle.sw_eval_statements.specs.Loops.{each, each_over, elements, each_in, bounds, counts, count_over, count_in};

use crate::flow::block;
use sw_eval_literals::Counting;
use sw_eval_questions::{Stop, stopped};
use sw_eval_state::fails;
use sw_eval_walk::{Below, Level, Returned, Walk, plain_value, value_of};
use sw_scope::FrameKind;
use sw_text::{FaultCode, List};
use sw_tree::{Each, For};
use sw_values::Value;
use sw_world::World;

// A turn for each element.
fn each<W: World, B: Below<W>>(
    walk: &mut Walk,
    below: B,
    statement: &Each,
    elements: &[Value],
    world: &mut W,
) -> Result<Returned, Stop>
    requires { B.fits below }
    ensures { Goes_on W.gives (each (B.statements below) statement.now elements.now) walk.old world.old result
        walk.new world.new }
{
    for one in elements {
        walk.state.spend(&statement.span)?;
        walk.state.take_apart(
            walk.alloc,
            statement.names.as_slice(),
            one,
            &statement.value.span,
        )?;
        if let Some(value) = block(walk, below, statement.block.as_slice(), world)? {
            return Ok(Some(value));
        }
    }
    Ok(None)
}

// In one frame for all turns.
fn each_over<W: World, B: Below<W>>(
    walk: &mut Walk,
    below: B,
    statement: &Each,
    elements: &[Value],
    world: &mut W,
) -> Result<Returned, Stop>
    requires { B.fits below }
    ensures { Goes_on W.gives (each_over (B.statements below) statement.now elements.now) walk.old world.old result
        walk.new world.new }
{
    walk.state.enter(FrameKind::Flow)?;
    walk.state.declare_nulls(statement.names.as_slice())?;
    let value = each(walk, below, statement, elements, world)?;
    walk.state.leave();
    Ok(value)
}

// The elements of a list.
fn elements<W: World, B: Below<W>>(
    walk: &mut Walk,
    below: B,
    statement: &Each,
    world: &mut W,
) -> Result<List<Value>, Stop>
    requires { B.fits below }
    ensures { Goes_on W.gives (elements (B.values below) statement.now) walk.old world.old result walk.new
        world.new }
{
    let list = value_of(walk, Level::outside(below), &statement.value, world)?;
    Ok(list.items(walk.alloc)?)
}

// The list is evaluated before the frame is opened.
#[inline(never)]
pub(crate) fn each_in<W: World, B: Below<W>>(
    walk: &mut Walk,
    below: B,
    statement: &Each,
    world: &mut W,
) -> Result<Returned, Stop>
    requires { B.fits below }
    ensures { Goes_on W.gives (each_in (B.values below) (B.statements below) statement.now) walk.old world.old result
        walk.new world.new }
{
    let elements = elements(walk, below, statement, world)?;
    each_over(walk, below, statement, elements.as_slice(), world)
}

// A turn for each number. There is a test more than turns.
fn counts<W: World, B: Below<W>>(
    walk: &mut Walk,
    below: B,
    statement: &For,
    numbers: &Counting,
    world: &mut W,
) -> Result<Returned, Stop>
    requires { B.fits below }
    ensures { Goes_on W.gives (counts (B.statements below) statement.now numbers.now) walk.old world.old result
        walk.new world.new }
{
    let tests = u64::from(walk.state.turns) + 1;
    let mut turn = 0_u64;
    while turn < tests {
        if u128::from(turn) >= numbers.turns() {
            return Ok(None);
        }
        walk.state.spend(&statement.span)?;
        walk.state.count_to(&statement.name, numbers, turn as u32)?;
        if let Some(value) = block(walk, below, statement.block.as_slice(), world)? {
            return Ok(Some(value));
        }
        turn += 1;
    }
    fails(FaultCode::Turns, &statement.span)
}

// In one frame for all turns.
fn count_over<W: World, B: Below<W>>(
    walk: &mut Walk,
    below: B,
    statement: &For,
    numbers: &Counting,
    world: &mut W,
) -> Result<Returned, Stop>
    requires { B.fits below }
    ensures { Goes_on W.gives (count_over (B.statements below) statement.now numbers.now) walk.old world.old result
        walk.new world.new }
{
    walk.state.enter(FrameKind::Flow)?;
    walk.state.declare_null(&statement.name)?;
    let value = counts(walk, below, statement, numbers, world)?;
    walk.state.leave();
    Ok(value)
}

// The numbers that are counted.
fn bounds<W: World, B: Below<W>>(
    walk: &mut Walk,
    below: B,
    statement: &For,
    world: &mut W,
) -> Result<Counting, Stop>
    requires { B.fits below }
    ensures { Goes_on W.gives (bounds (B.values below) statement.now) walk.old world.old result walk.new world.new }
{
    let bounds = statement.bounds.get();
    let from = plain_value(walk, Level::outside(below), &bounds.from, world)?;
    let to = plain_value(walk, Level::outside(below), &bounds.to, world)?;
    stopped(Counting::between(&from, &to, bounds.through, &statement.span))
}

// Both bounds are evaluated before the frame is opened.
#[inline(never)]
pub(crate) fn count_in<W: World, B: Below<W>>(
    walk: &mut Walk,
    below: B,
    statement: &For,
    world: &mut W,
) -> Result<Returned, Stop>
    requires { B.fits below }
    ensures { Goes_on W.gives (count_in (B.values below) (B.statements below) statement.now) walk.old world.old result
        walk.new world.new }
{
    let numbers = bounds(walk, below, statement, world)?;
    count_over(walk, below, statement, &numbers, world)
}
