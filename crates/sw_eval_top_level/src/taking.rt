// What a module takes of its configuration.
ghost use Rattle.std.specs.Prelude.{◌≡◌, OnOk};
ghost use Rattle.sw_eval_questions.specs.Did.{IsReturn};
ghost use Rattle.sw_eval_questions.specs.Talk.{Gives};
ghost use Rattle.sw_eval_top_level.specs.Taking.{took, took_all, preset_to, preset_variable, preset};

use sw_eval_configurations::{has_name, value_in};
use sw_eval_questions::Stop;
use sw_eval_state::{State, is_null};
use sw_text::{Memory, Name};
use sw_tree::{Statement, Variable};
use sw_values::Value;

// A name of the configuration is taken.
fn take(state: &mut State, name: &Name) -> Result<(), Memory>
    ensures { OnOk result (state.new ≡ took name.now state.old) }
{
    if has_name(state.taken.as_slice(), name) {
        return Ok(());
    }
    state.taken.push(name.share()?)
}

// Names of the configuration are taken.
pub(crate) fn take_all(state: &mut State, names: &[Name]) -> Result<(), Memory>
    ensures { OnOk result (state.new ≡ took_all names.now state.old) }
{
    for name in names {
        take(state, name)?;
    }
    Ok(())
}

// A variable takes this value of the configuration, which it has where that isn't null.
fn preset_to(state: &mut State, variable: &Variable, value: &Value) -> Result<bool, Stop>
    ensures { IsReturn result state.new (Gives (preset_to variable.now value.now state.old)) }
{
    take(state, &variable.name)?;
    if is_null(value) {
        return Ok(false);
    }
    state.set_own(&variable.name, value.share()?)?;
    Ok(true)
}

// A variable with a default takes its configured value, where there is one.
fn preset_variable(
    state: &mut State,
    config: &[(Name, Value)],
    variable: &Variable,
) -> Result<bool, Stop>
    ensures { IsReturn result state.new (Gives (preset_variable config.now variable.now state.old)) }
{
    if !variable.flags.default {
        return Ok(false);
    }
    match value_in(config, &variable.name) {
        Some(value) => preset_to(state, variable, value),
        None => Ok(false),
    }
}

/// Whether a statement of the top level has its configured value.
#[tactic(auto, unfolding(crate::specs::Taking::preset))]
pub(crate) fn preset(
    state: &mut State,
    config: &[(Name, Value)],
    statement: &Statement,
) -> Result<bool, Stop>
    ensures { IsReturn result state.new (Gives (preset config.now statement.now state.old)) }
{
    match statement {
        Statement::Variable(variable) => preset_variable(state, config, variable),
        _ => Ok(false),
    }
}
