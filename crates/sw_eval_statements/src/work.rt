// Statements.
ghost use Rattle.sw_eval_walk.specs.Going.{Goes_on};
ghost use Rattle.sw_eval_statements.specs.Statements.{comment, returning, does_one, does_placed};

use crate::assignments::{assigned, variable_set};
use crate::at_rules::{at_root, at_rule, media, supports};
use crate::flow::{branches, repeat_in};
use crate::imports::import;
use crate::includes::{content, include};
use crate::loops::{count_in, each_in};
use crate::messages::saying;
use crate::places::place_of;
use crate::styles::{custom, declaration, properties, rule};
use crate::texts::statement_text;
use sw_eval_questions::Stop;
use sw_eval_state::{fails, is_function, misplaced};
use sw_eval_walk::{Below, Level, Returned, Walk, plain_value};
use sw_text::{FaultCode, Shared};
use sw_tree::{Return, Statement, Text};
use sw_world::World;

// A comment, with the values in it, but for one of a function.
#[inline(never)]
fn comment<W: World, B: Below<W>>(
    walk: &mut Walk,
    below: B,
    it: &Text,
    world: &mut W,
) -> Result<Returned, Stop>
    requires { B.fits below }
    ensures { Goes_on W.gives (comment (B.values below) it.now) walk.old world.old result walk.new world.new }
{
    if is_function(walk.state.here.inside) {
        return Ok(None);
    }
    let text = statement_text(walk, below, it, world)?;
    walk.state.commented(text, &it.span)?;
    Ok(None)
}

// What a function gives.
#[inline(never)]
fn returning<W: World, B: Below<W>>(
    walk: &mut Walk,
    below: B,
    statement: &Return,
    world: &mut W,
) -> Result<Returned, Stop>
    requires { B.fits below }
    ensures { Goes_on W.gives (returning (B.values below) statement.now) walk.old world.old result walk.new
        world.new }
{
    let value = plain_value(walk, Level::outside(below), &statement.value, world)?;
    let shared = Shared::new(walk.alloc, value)?;
    Ok(Some(shared))
}

fn does_one<W: World, B: Below<W>>(
    walk: &mut Walk,
    below: B,
    statement: &Statement,
    world: &mut W,
) -> Result<Returned, Stop>
    requires { B.fits below }
    ensures { Goes_on W.gives (does_one (B.values below) (B.statements below) (B.bodies below) statement.now) walk.old
        world.old result walk.new world.new }
{
    match statement {
        Statement::Variable(one) => variable_set(walk, below, one, world),
        Statement::Assignment(one) => assigned(walk, below, one, world),
        Statement::Declaration(one) => declaration(walk, below, one, world),
        Statement::Properties(one) => properties(walk, below, one, world),
        Statement::Custom(one) => custom(walk, below, one, world),
        Statement::Rule(one) => rule(walk, below, one, world),
        Statement::Include {
            mixin,
            content,
            span,
        } => include(walk, below, mixin, content, span, world),
        Statement::Content(one) => content(walk, below, one, world),
        Statement::Return(one) => returning(walk, below, one, world),
        Statement::Media(one) => media(walk, below, one, world),
        Statement::Supports(one) => supports(walk, below, one, world),
        Statement::AtRoot(one) => at_root(walk, below, one, world),
        Statement::Import(one) => import(walk, below, one, world),
        Statement::Extend(one) => fails(FaultCode::Extend, &one.span),
        Statement::AtRule(one) => at_rule(walk, below, one, world),
        Statement::If {
            branches: all,
            otherwise,
            ..
        } => branches(walk, below, all.as_slice(), otherwise, world),
        Statement::Each(one) => each_in(walk, below, one, world),
        Statement::For(one) => count_in(walk, below, one, world),
        Statement::While(one) => repeat_in(walk, below, one, world),
        Statement::Say(one) => saying(walk, below, one, world),
        Statement::Charset(_) => Ok(None),
        Statement::Comment(text) => comment(walk, below, text, world),
        Statement::Use(_) | Statement::Forward(_) | Statement::Callable(_) => fails(
            FaultCode::BadPlace,
            place_of(statement),
        ),
    }
}

/// What a statement does, over what evaluates the level below it, if it may stand in the running code's text; a value
/// that it gives ends what is around it. `docs/LANGUAGE.md`, "Evaluation".
pub fn does_placed<W: World, B: Below<W>>(
    walk: &mut Walk,
    below: B,
    statement: &Statement,
    world: &mut W,
) -> Result<Returned, Stop>
    requires { B.fits below }
    ensures { Goes_on W.gives (does_placed (B.values below) (B.statements below) (B.bodies below) statement.now)
        walk.old world.old result walk.new world.new }
{
    if misplaced(walk.state.here.inside, statement) {
        return fails(FaultCode::BadPlace, place_of(statement));
    }
    does_one(walk, below, statement, world)
}
