// Loads of modules with their configurations.
ghost use Rattle.std.specs.Prelude.{◌≡◌, Some, IfOk};
ghost use Rattle.sw_eval_questions.specs.Did.{IsReturn};
ghost use Rattle.sw_eval_questions.specs.Talk.{Gives};
ghost use Rattle.sw_eval_walk.specs.Going.{Goes_on};
ghost use Rattle.sw_eval_configurations.specs.Loads.{seen, entries_of};
ghost use Rattle.sw_eval_configurations.specs.Passing.{passed};
ghost use Rattle.sw_eval_top_level.specs.Loading.{entry_value, entries, configuration, prepared, load_ended};

use crate::taking::take_all;
use std::alloc::Global;
use sw_eval_configurations::{Load, given_of, passed, share_given, taken_by, value_passed};
use sw_eval_questions::Stop;
use sw_eval_state::{State, fails};
use sw_eval_walk::{Below, Level, Walk, plain_value};
use sw_text::{FaultCode, List, Name, Shared};
use sw_tree::Given as Entry;
use sw_values::Value;
use sw_world::{Answer, Given, World};

// An entry with a default is the value that is passed on, where there is one.
fn entry_value<W: World, B: Below<W>>(
    walk: &mut Walk,
    below: B,
    passed: &[Given],
    entry: &Entry,
    world: &mut W,
) -> Result<Value, Stop>
    requires { B.fits below }
    ensures { Goes_on W.gives (entry_value (B.values below) passed.now entry.now) walk.old world.old result walk.new
        world.new }
{
    match value_passed(passed, entry) {
        Some(value) => Ok(value.share()?),
        None => plain_value(walk, Level::outside(below), &entry.value, world),
    }
}

// The entries of a load behind what is passed on.
fn entries<W: World, B: Below<W>>(
    walk: &mut Walk,
    below: B,
    passed: &[Given],
    all: &[Entry],
    world: &mut W,
) -> Result<List<Given>, Stop>
    requires { B.fits below }
    ensures { Goes_on W.gives (entries (B.values below) passed.now all.now passed.now) walk.old world.old result
        walk.new world.new }
{
    let mut done = share_given(walk.alloc, passed)?;
    'all: for one in all {
        let value = entry_value(walk, below, passed, one, world)?;
        let given = given_of(one, value)?;
        done.push(given)?;
    }
    Ok(done)
}

// What a load gives.
fn configuration<W: World, B: Below<W>>(
    walk: &mut Walk,
    below: B,
    config: &[(Name, Value)],
    load: Load<'_>,
    world: &mut W,
) -> Result<List<Given>, Stop>
    requires { B.fits below }
    ensures { Goes_on W.gives (configuration (B.values below) config.now (seen load.entry)) walk.old world.old result
        walk.new world.new }
{
    let passed = passed(walk.alloc, config, load)?;
    entries(walk, below, passed.as_slice(), load.entries(), world)
}

/// What a load gives, which is evaluated once and kept until the load is answered.
#[tactic(auto, unfolding(crate::specs::Loading::prepared))]
pub(crate) fn prepared<W: World, B: Below<W>>(
    walk: &mut Walk,
    below: B,
    config: &[(Name, Value)],
    load: Load<'_>,
    world: &mut W,
) -> Result<Shared<List<Given>>, Stop>
    requires { B.fits below }
    ensures did { Goes_on W.gives (prepared (B.values below) config.now (seen load.entry)) walk.old world.old result
        walk.new world.new }
    ensures kept { IfOk result (λ given. walk.new.state.given ≡ Some given) }
{
    if let Some(given) = &walk.state.given {
        return Ok(given.share()?);
    }
    if walk.state.late {
        return fails(FaultCode::LateUse, load.span());
    }
    let given = configuration(walk, below, config, load, world)?;
    let given = Shared::new(walk.alloc, given)?;
    walk.state.given = Some(given.share()?);
    Ok(given)
}

/// The module is loaded.
#[tactic(auto, unfolding(crate::specs::Loading::load_ended))]
pub(crate) fn end_load(
    alloc: Global,
    state: &mut State,
    config: &[(Name, Value)],
    load: Load<'_>,
    answer: &Answer,
) -> Result<(), Stop>
    ensures { IsReturn result state.new (Gives (tt, load_ended config.now (seen load.entry) answer.now state.old)) }
{
    let names = taken_by(alloc, config, load, answer)?;
    state.given = None;
    take_all(state, names.as_slice())?;
    Ok(())
}
