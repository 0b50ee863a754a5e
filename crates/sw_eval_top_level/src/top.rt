// The statements of the top level.
ghost use Rattle.std.specs.Prelude.{◌≡◌, ◌<◌, IfOk, IfSome, IsTrue};
ghost use Rattle.sw_eval_questions.specs.Did.{stand};
ghost use Rattle.sw_eval_walk.specs.Going.{Goes_on};
ghost use Rattle.sw_eval_configurations.specs.Loads.{seen};
ghost use Rattle.sw_eval_state.specs.Left.{callable_of};
ghost use Rattle.sw_eval_top_level.specs.Tops.{ends_loads, marked, other, top, rest};
ghost use Rattle.sw_eval_top_level.specs.Loading.{load};
ghost use Rattle.sw_eval_top_level.specs.Walks.{TopDid, Walked};

use crate::loads::{end_load, prepared};
use crate::taking::preset;
use sw_eval_configurations::{Load, load_of, load_op};
use sw_eval_questions::{Stop, known};
use sw_eval_state::{State, callable_of, numbered};
use sw_eval_walk::{Below, Walk};
use sw_text::Name;
use sw_tree::Statement;
use sw_values::Value;
use sw_world::{Question, World};

// How many questions a body may ask.
const MOST_ASKED: usize = 1_000_000;

// No load may stand behind a statement, but behind assignments, comments and other loads.
#[tactic(auto, unfolding(crate::specs::Tops::ends_loads))]
fn ends_loads(statement: &Statement) -> bool
    ensures { result ≡ ends_loads statement.now }
{
    !matches!(
        statement,
        Statement::Variable(_)
            | Statement::Assignment(_)
            | Statement::Use(_)
            | Statement::Forward(_)
            | Statement::Charset(_)
            | Statement::Comment(_)
    )
}

#[tactic(auto, unfolding(crate::specs::Tops::marked))]
fn mark(number: usize, statement: &Statement, state: &mut State)
    ensures { state.new ≡ marked number statement.now state.old }
{
    numbered(&mut state.css, number);
    if ends_loads(statement) {
        state.late = true;
    }
}

// A statement that loads no module: a function or a mixin is known from here on, and a variable may have its configured
// value.
fn other<W: World, B: Below<W>>(
    walk: &mut Walk,
    below: B,
    config: &[(Name, Value)],
    statement: &Statement,
    world: &mut W,
) -> Result<(), Stop>
    requires { B.fits below }
    ensures { Goes_on W.gives
        (other (B.values below) (B.statements below) config.now statement.now (callable_of statement.now)) walk.old
        world.old result walk.new world.new }
{
    if let Some(callable) = callable_of(statement) {
        return walk.state.declare_callable(callable);
    }
    let ready = preset(&mut walk.state, config, statement)?;
    if ready {
        return Ok(());
    }
    let _value = below.does(walk, statement, world)?;
    Ok(())
}

// A statement that loads a module. It stops where the load's answer isn't known.
fn load<W: World, B: Below<W>>(
    walk: &mut Walk,
    below: B,
    config: &[(Name, Value)],
    it: Load<'_>,
    world: &mut W,
) -> Result<Option<Question>, Stop>
    requires { B.fits below }
    ensures did { TopDid W.gives (load (B.values below) config.now (seen it.entry)) walk.old.state
        (stand walk.old.asked) world.old result walk.new.state (stand walk.new.asked) world.new }
    ensures room { IfOk result (λ o. IfSome o (λ _. IsTrue walk.new.asked.pairs.has_room)) }
{
    let given = prepared(walk, below, config, it, world)?;
    if walk.asked.at < MOST_ASKED && walk.asked.at >= walk.asked.pairs.len() {
        walk.asked.pairs.reserve(walk.alloc)?;
        return Ok(Some(load_op(walk.alloc, &walk.asked.path, it, given)?));
    }
    let answer = known(&mut walk.asked, it.span(), world)?;
    end_load(walk.alloc, &mut walk.state, config, it, &answer.1)?;
    Ok(None)
}

// A statement with its number. It stops at a load whose answer isn't known.
fn top<W: World, B: Below<W>>(
    walk: &mut Walk,
    below: B,
    config: &[(Name, Value)],
    number: usize,
    statement: &Statement,
    world: &mut W,
) -> Result<Option<Question>, Stop>
    requires { B.fits below }
    ensures did { TopDid W.gives (top (B.values below) (B.statements below) config.now number statement.now)
        walk.old.state (stand walk.old.asked) world.old result walk.new.state (stand walk.new.asked) world.new }
    ensures room { IfOk result (λ o. IfSome o (λ _. IsTrue walk.new.asked.pairs.has_room)) }
{
    if let Some(it) = load_of(statement) {
        return load(walk, below, config, it, world);
    }
    mark(number, statement, &mut walk.state);
    other(walk, below, config, statement, world)?;
    Ok(None)
}

/// The statements of a sheet's top level from a number on, up to a load whose answer isn't known; the number is then
/// that of the load. The walk's module has this configuration.
pub fn walk_on<W: World, B: Below<W>>(
    walk: &mut Walk,
    below: B,
    config: &[(Name, Value)],
    all: &[Statement],
    next: &mut usize,
    world: &mut W,
) -> Result<Option<Question>, Stop>
    requires { B.fits below }
    ensures walked { Walked W.gives (rest (B.values below) (B.statements below) config.now all.now) next.old
        walk.old.state (stand walk.old.asked) world.old result next.new walk.new.state (stand walk.new.asked)
        world.new }
    ensures room { IfOk result (λ o. IfSome o (λ _. IsTrue walk.new.asked.pairs.has_room)) }
{
    while *next < all.len() {
        let statement = &all[*next];
        if let Some(op) = top(walk, below, config, *next, statement, world)? {
            return Ok(Some(op));
        }
        *next += 1;
    }
    Ok(None)
}
