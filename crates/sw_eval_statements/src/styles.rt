// Rules and declarations.
ghost use Rattle.sw_eval_walk.specs.Going.{Goes_on};
ghost use Rattle.sw_eval_statements.specs.Styles.{property, valued, declaration, custom, maybe_valued, nested_block, rule_opened, rule, properties};
ghost use Rattle.sw_eval_questions.specs.Did.{IsReturn};

use crate::flow::framed;
use crate::places::is_css;
use crate::texts::{raw_text, statement_text};
use std::alloc::Global;
use sw_eval_questions::Stop;
use sw_eval_state::{State, fails};
use sw_eval_walk::{Below, Level, Returned, Walk, value_of};
use sw_scope::FrameKind;
use sw_text::{FaultCode, Name, Span};
use sw_tree::{Custom, Declaration, Expr, Properties, Rule, Statement, Text};
use sw_world::World;

// The whole name of a property.
fn property<W: World, B: Below<W>>(
    walk: &mut Walk,
    below: B,
    it: &Text,
    world: &mut W,
) -> Result<Name, Stop>
    requires { B.fits below }
    ensures { Goes_on W.gives (property (B.values below) it.now) walk.old world.old result walk.new world.new }
{
    let name = statement_text(walk, below, it, world)?;
    Ok(walk.state.full_name(walk.alloc, name)?)
}

// A value that is written as a property; the statement stands here.
fn valued<W: World, B: Below<W>>(
    walk: &mut Walk,
    below: B,
    name: &Name,
    e: &Expr,
    span: &Span,
    world: &mut W,
) -> Result<(), Stop>
    requires { B.fits below }
    ensures { Goes_on W.gives (valued (B.values below) name.now e.now span.now) walk.old world.old result walk.new
        world.new }
{
    let value = value_of(walk, Level::outside(below), e, world)?;
    let name = name.share()?;
    walk.state.written(walk.alloc, name, &value, &e.span, span)
}

// A declaration, which stands in a rule or an at-rule.
#[inline(never)]
pub(crate) fn declaration<W: World, B: Below<W>>(
    walk: &mut Walk,
    below: B,
    statement: &Declaration,
    world: &mut W,
) -> Result<Returned, Stop>
    requires { B.fits below }
    ensures { Goes_on W.gives (declaration (B.values below) statement.now) walk.old world.old result
        walk.new world.new }
{
    if !walk.state.nesting.takes_lines() {
        return fails(FaultCode::BadPlace, &statement.span);
    }
    let name = property(walk, below, &statement.property, world)?;
    valued(walk, below, &name, &statement.value, &statement.span, world)?;
    Ok(None)
}

// A custom property is its text.
#[inline(never)]
pub(crate) fn custom<W: World, B: Below<W>>(
    walk: &mut Walk,
    below: B,
    statement: &Custom,
    world: &mut W,
) -> Result<Returned, Stop>
    requires { B.fits below }
    ensures { Goes_on W.gives (custom (B.values below) statement.now) walk.old world.old result walk.new world.new }
{
    if !walk.state.nesting.takes_lines() {
        return fails(FaultCode::BadPlace, &statement.span);
    }
    let name = property(walk, below, &statement.property, world)?;
    let text = raw_text(walk, below, &statement.value, world)?;
    walk.state.declaring(name, text, &statement.span)?;
    Ok(None)
}

// The value of nested properties, where there is one.
fn maybe_valued<W: World, B: Below<W>>(
    walk: &mut Walk,
    below: B,
    name: &Name,
    e: &Option<Expr>,
    span: &Span,
    world: &mut W,
) -> Result<(), Stop>
    requires { B.fits below }
    ensures { Goes_on W.gives (maybe_valued (B.values below) name.now e.now span.now) walk.old world.old result
        walk.new world.new }
{
    match e {
        Some(e) => valued(walk, below, name, e, span, world),
        None => Ok(()),
    }
}

// The block of what was opened last, in a frame of its own; that is closed then.
pub(crate) fn nested_block<W: World, B: Below<W>>(
    walk: &mut Walk,
    below: B,
    block: &[Statement],
    world: &mut W,
) -> Result<Returned, Stop>
    requires { B.fits below }
    ensures { Goes_on W.gives (nested_block (B.statements below) block.now) walk.old world.old result walk.new
        world.new }
{
    let value = framed(walk, below, FrameKind::Block, block, world)?;
    walk.state.leave_rule();
    Ok(value)
}

// Opens a rule whose selectors have this text; in a file of plain CSS they are written as they stand.
fn open_rule(alloc: Global, state: &mut State, statement: &Rule, text: &Name) -> Result<(), Stop>
    ensures { IsReturn result state.new (rule_opened statement.now text.now state.old) }
{
    if is_css(&statement.span) {
        let text = text.share()?;
        return state.enter_plain(text, &statement.span);
    }
    state.enter_rule(
        alloc,
        false,
        text,
        &statement.selector.span,
        &statement.span,
    )
}

// A rule, which doesn't stand among nested properties.
#[inline(never)]
pub(crate) fn rule<W: World, B: Below<W>>(
    walk: &mut Walk,
    below: B,
    statement: &Rule,
    world: &mut W,
) -> Result<Returned, Stop>
    requires { B.fits below }
    ensures { Goes_on W.gives (rule (B.values below) (B.statements below) statement.now) walk.old world.old result
        walk.new world.new }
{
    if walk.state.nesting.prefix.is_some() {
        return fails(FaultCode::BadPlace, &statement.span);
    }
    let text = statement_text(walk, below, &statement.selector, world)?;
    open_rule(walk.alloc, &mut walk.state, statement, &text)?;
    nested_block(walk, below, statement.block.as_slice(), world)
}

// Nested properties: the value, and then those in the block.
#[inline(never)]
pub(crate) fn properties<W: World, B: Below<W>>(
    walk: &mut Walk,
    below: B,
    statement: &Properties,
    world: &mut W,
) -> Result<Returned, Stop>
    requires { B.fits below }
    ensures { Goes_on W.gives (properties (B.values below) (B.statements below) statement.now) walk.old world.old
        result walk.new world.new }
{
    if !walk.state.nesting.takes_lines() {
        return fails(FaultCode::BadPlace, &statement.span);
    }
    let name = property(walk, below, &statement.property, world)?;
    maybe_valued(walk, below, &name, &statement.value, &statement.span, world)?;
    walk.state.enter_properties(name)?;
    let value = framed(
        walk,
        below,
        FrameKind::Block,
        statement.block.as_slice(),
        world,
    )?;
    walk.state.unnest();
    Ok(value)
}
