// At-rules.
ghost use Rattle.sw_eval_walk.specs.Going.{Goes_on};
ghost use Rattle.sw_eval_statements.specs.AtRules.{media, supports, root_with, root_without, at_root, block_by, at_rule};

use crate::styles::nested_block;
use crate::texts::{raw_text, statement_text};
use sw_eval_questions::Stop;
use sw_eval_state::{bare_name, fails};
use sw_eval_walk::{Below, Returned, Walk};
use sw_text::{FaultCode, Name, Span};
use sw_tree::{AtRoot, AtRule, Media, Statement, Supports, Text};
use sw_world::World;

// `@media`: where no query is left, its block isn't evaluated.
#[inline(never)]
pub(crate) fn media<W: World, B: Below<W>>(
    walk: &mut Walk,
    below: B,
    statement: &Media,
    world: &mut W,
) -> Result<Returned, Stop>
    requires { B.fits below }
    ensures { Goes_on W.gives (media (B.values below) (B.statements below) statement.now) walk.old world.old result
        walk.new world.new }
{
    if walk.state.nesting.prefix.is_some() {
        return fails(FaultCode::BadPlace, &statement.span);
    }
    let text = statement_text(walk, below, &statement.queries, world)?;
    let goes_on = walk.state.enter_media(
        walk.alloc,
        &text,
        &statement.queries.span,
        &statement.span,
    )?;
    if !goes_on {
        return Ok(None);
    }
    nested_block(walk, below, statement.block.as_slice(), world)
}

#[inline(never)]
pub(crate) fn supports<W: World, B: Below<W>>(
    walk: &mut Walk,
    below: B,
    statement: &Supports,
    world: &mut W,
) -> Result<Returned, Stop>
    requires { B.fits below }
    ensures { Goes_on W.gives (supports (B.values below) (B.statements below) statement.now) walk.old world.old result
        walk.new world.new }
{
    if walk.state.nesting.prefix.is_some() {
        return fails(FaultCode::BadPlace, &statement.span);
    }
    let text = statement_text(walk, below, &statement.condition, world)?;
    let name = Name::new(walk.alloc, "supports")?;
    walk.state.enter_at_rule(name, text, &statement.span)?;
    nested_block(walk, below, statement.block.as_slice(), world)
}

// `@at-root` with a selector.
fn root_with<W: World, B: Below<W>>(
    walk: &mut Walk,
    below: B,
    selector: &Text,
    block: &[Statement],
    span: &Span,
    world: &mut W,
) -> Result<Returned, Stop>
    requires { B.fits below }
    ensures { Goes_on W.gives (root_with (B.values below) (B.statements below) selector.now block.now span.now) walk.old
        world.old result walk.new world.new }
{
    let text = statement_text(walk, below, selector, world)?;
    walk.state
        .enter_rule(walk.alloc, true, &text, &selector.span, span)?;
    nested_block(walk, below, block, world)
}

fn root_without<W: World, B: Below<W>>(
    walk: &mut Walk,
    below: B,
    block: &[Statement],
    world: &mut W,
) -> Result<Returned, Stop>
    requires { B.fits below }
    ensures { Goes_on W.gives (root_without (B.statements below) block.now) walk.old world.old result walk.new
        world.new }
{
    walk.state.enter_root()?;
    nested_block(walk, below, block, world)
}

#[inline(never)]
pub(crate) fn at_root<W: World, B: Below<W>>(
    walk: &mut Walk,
    below: B,
    statement: &AtRoot,
    world: &mut W,
) -> Result<Returned, Stop>
    requires { B.fits below }
    ensures { Goes_on W.gives (at_root (B.values below) (B.statements below) statement.now) walk.old world.old result
        walk.new world.new }
{
    if walk.state.nesting.prefix.is_some() {
        return fails(FaultCode::BadPlace, &statement.span);
    }
    let block = statement.block.as_slice();
    match &statement.selector {
        Some(selector) => root_with(walk, below, selector, block, &statement.span, world),
        None => root_without(walk, below, block, world),
    }
}

// An at-rule of this name and prelude, with its block or without one.
fn block_by<W: World, B: Below<W>>(
    walk: &mut Walk,
    below: B,
    name: Name,
    prelude: Name,
    statement: &AtRule,
    world: &mut W,
) -> Result<Returned, Stop>
    requires { B.fits below }
    ensures { Goes_on W.gives (block_by (B.statements below) name prelude statement.now.block statement.now.span)
        walk.old world.old result walk.new world.new }
{
    match &statement.block {
        Some(block) => {
            walk.state.enter_at_rule(name, prelude, &statement.span)?;
            nested_block(walk, below, block.as_slice(), world)
        }
        None => {
            walk.state.line_at_rule(name, prelude, &statement.span)?;
            Ok(None)
        }
    }
}

// An at-rule that has no meaning of its own.
#[inline(never)]
pub(crate) fn at_rule<W: World, B: Below<W>>(
    walk: &mut Walk,
    below: B,
    statement: &AtRule,
    world: &mut W,
) -> Result<Returned, Stop>
    requires { B.fits below }
    ensures { Goes_on W.gives (at_rule (B.values below) (B.statements below) statement.now) walk.old world.old result
        walk.new world.new }
{
    if walk.state.nesting.prefix.is_some() {
        return fails(FaultCode::BadPlace, &statement.span);
    }
    let name = statement_text(walk, below, &statement.name, world)?;
    let prelude = raw_text(walk, below, &statement.prelude, world)?;
    let bare = bare_name(walk.alloc, &name)?;
    block_by(walk, below, bare, prelude, statement, world)
}
