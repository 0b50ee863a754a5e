// Mixins and content blocks, and the bodies of all that is called.
ghost use Rattle.std.specs.Option.{option_copied};
ghost use Rattle.sw_eval_walk.specs.Going.{Goes_on};
ghost use Rattle.sw_eval_statements.specs.Parameters.{default_value, slot_value, fill};
ghost use Rattle.sw_eval_statements.specs.Includes.{run_body, include, content_run, content};

use crate::flow::block;
use sw_eval_calls::default_at;
use sw_eval_questions::{Stop, stopped};
use sw_eval_state::{Block, block_entry};
use sw_eval_walk::{Below, Body, Level, Returned, Walk, arguments_of, plain_value};
use sw_scope::Slot;
use sw_text::{Name, Shared, Span};
use sw_tree::{Argument, Content, ContentCall, Expr, Mixin, Param};
use sw_values::Value;
use sw_world::World;

fn default_value<W: World, B: Below<W>>(
    walk: &mut Walk,
    below: B,
    default: Option<&Expr>,
    world: &mut W,
) -> Result<Value, Stop>
    requires { B.fits below }
    ensures { Goes_on W.gives (default_value (B.values below) (option_copied default.entry)) walk.old world.old
        result walk.new world.new }
{
    match default {
        Some(e) => plain_value(walk, Level::outside(below), e, world),
        None => Ok(Value::null()),
    }
}

fn slot_value<W: World, B: Below<W>>(
    walk: &mut Walk,
    below: B,
    params: &[Param],
    slot: &Slot,
    world: &mut W,
) -> Result<Value, Stop>
    requires { B.fits below }
    ensures { Goes_on W.gives (slot_value (B.values below) params.now slot.now) walk.old world.old result
        walk.new world.new }
{
    match slot {
        Slot::Filled(value) => Ok(value.share()?),
        Slot::Default(place) => default_value(walk, below, default_at(params, *place), world),
    }
}

// The parameters, in order: a default may use those before it.
fn fill<W: World, B: Below<W>>(
    walk: &mut Walk,
    below: B,
    params: &[Param],
    slots: &[(Name, Slot)],
    world: &mut W,
) -> Result<(), Stop>
    requires { B.fits below }
    ensures { Goes_on W.gives (fill (B.values below) params.now slots.now) walk.old world.old result walk.new
        world.new }
{
    for one in slots {
        let value = slot_value(walk, below, params, &one.1, world)?;
        walk.state.give(&one.0, value)?;
    }
    Ok(())
}

/// The body of what is called, whose call stands here: the parameters get their values, and the statements run in
/// frames of their own; answers what they return. `docs/LANGUAGE.md`, "Evaluation", on functions and mixins.
pub fn run_body<W: World, B: Below<W>>(
    walk: &mut Walk,
    below: B,
    span: &Span,
    body: Body<'_>,
    world: &mut W,
) -> Result<Returned, Stop>
    requires { B.fits below }
    ensures { Goes_on W.gives (run_body (B.values below) (B.statements below) span.now body.entry.start.now body.entry.params.now
        body.entry.block.now) walk.old world.old result walk.new world.new }
{
    walk.state.spend(span)?;
    walk.state.open(&body.start.here, body.start.mark)?;
    fill(walk, below, body.params, body.start.slots.as_slice(), world)?;
    let value = block(walk, below, body.block, world)?;
    walk.state.close();
    Ok(value)
}

// `@include`, which stands here.
#[inline(never)]
pub(crate) fn include<W: World, B: Below<W>>(
    walk: &mut Walk,
    below: B,
    mixin: &Mixin,
    content: &Option<Shared<Content>>,
    span: &Span,
    world: &mut W,
) -> Result<Returned, Stop>
    requires { B.fits below }
    ensures { Goes_on W.gives (include (B.values below) (B.bodies below) mixin.now content.now span.now) walk.old
        world.old result walk.new world.new }
{
    let found = walk.mixin_called(mixin, span, world)?;
    let arguments = mixin.arguments.as_slice();
    let passed = arguments_of(walk, Level::outside(below), arguments, world)?;
    let entry = walk
        .state
        .mixin_entry(walk.alloc, &found, content, &passed, span)?;
    let callable = found.callable.get();
    let body = Body {
        start: &entry,
        params: callable.params.items.as_slice(),
        block: callable.block.as_slice(),
    };
    below.enter(walk, span, body, world)
}

// The body of the content block that the running mixin was given.
fn content_run<W: World, B: Below<W>>(
    walk: &mut Walk,
    below: B,
    block: &Block,
    arguments: &[Argument],
    span: &Span,
    world: &mut W,
) -> Result<Returned, Stop>
    requires { B.fits below }
    ensures { Goes_on W.gives (content_run (B.values below) (B.bodies below) block.now arguments.now span.now)
        walk.old world.old result walk.new world.new }
{
    let passed = arguments_of(walk, Level::outside(below), arguments, world)?;
    let entry = stopped(block_entry(walk.alloc, block, &passed, span))?;
    let content = block.content.get();
    let body = Body {
        start: &entry,
        params: content.params.items.as_slice(),
        block: content.block.as_slice(),
    };
    below.enter(walk, span, body, world)
}

// `@content`: nothing where the mixin was given no block.
#[inline(never)]
pub(crate) fn content<W: World, B: Below<W>>(
    walk: &mut Walk,
    below: B,
    statement: &ContentCall,
    world: &mut W,
) -> Result<Returned, Stop>
    requires { B.fits below }
    ensures { Goes_on W.gives (content (B.values below) (B.bodies below) statement.now) walk.old world.old result
        walk.new world.new }
{
    let here = walk.state.here.share()?;
    match &here.content {
        Some(block) => {
            let arguments = statement.arguments.as_slice();
            content_run(walk, below, block.get(), arguments, &statement.span, world)
        }
        None => Ok(None),
    }
}
