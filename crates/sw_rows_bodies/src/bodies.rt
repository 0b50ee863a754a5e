// Bodies of any engine that find no memory, and then do.
ghost use Rattle.std.specs.Prelude.{◌≡◌, IfOk, OnOk, None};
ghost use Rattle.sw_world.specs.declared.question.Question.{Question};
ghost use Rattle.sw_world.specs.declared.end.Turn.TheVariants.{Load};
ghost use Rattle.sw_rows_bodies.specs.Ready.{AnswersLoads, IsReady, IsStopped};

use crate::broken::Broken;
use crate::module::Module;
use crate::told::Told;
use std::alloc::Global;
use sw_text::Memory;
use sw_world::{Answer, End, Engine, Pairs, Turn};

// A body here stops at fewer loads.
const MOST_LOADS: u32 = 100;

/// A body that has begun.
pub fn begin<E: Engine>(alloc: Global, engine: &E, module: &Module) -> Result<E::Body, Memory>
    ensures { IfOk result (λ body. IsReady E.body (E.progress body)) }
{
    let none = Pairs::new(alloc);
    let body = engine.start(alloc, &module.sheet, &module.config, &module.path, &none)?;
    Ok(body)
}

// Runs a body on to where it stops. Where it finds no memory its world is fed, and it is run again.
fn go_fed<E: Engine>(
    alloc: Global,
    engine: &mut E,
    body: &mut E::Body,
    world: &mut Told,
) -> Result<Turn, Memory>
    requires { IsReady E.body (E.progress body.old) }
    ensures { IfOk result (λ turn. IsStopped E.body (E.progress body.new) turn) }
{
    match engine.go(alloc, body, world) {
        Ok(turn) => Ok(turn),
        Err(_) => {
            world.feed();
            let turn = engine.go(alloc, body, world)?;
            Ok(turn)
        }
    }
}

// Gives a body that stopped at a load this answer.
fn give_to<E: Engine>(engine: &E, body: &mut E::Body, answer: &Answer) -> Result<(), Memory>
    requires stopped { (op : Question) × IsStopped E.body (E.progress body.old) (Load op) }
    requires answers { AnswersLoads answer.now }
    ensures { OnOk result (IsReady E.body (E.progress body.new)) }
{
    let answer = answer.share()?;
    engine.give(body, answer);
    Ok(())
}

// Runs a body on to its end, or to a load, to which it gives this answer.
fn stop<E: Engine>(
    alloc: Global,
    engine: &mut E,
    body: &mut E::Body,
    world: &mut Told,
    answer: &Answer,
) -> Result<Option<End>, Memory>
    requires ready { IsReady E.body (E.progress body.old) }
    requires answers { AnswersLoads answer.now }
    ensures { IfOk result (λ end. end ≡ None → IsReady E.body (E.progress body.new)) }
{
    match go_fed(alloc, engine, body, world)? {
        Turn::Load(_) => {
            give_to(engine, body, answer)?;
            Ok(None)
        }
        Turn::Ended(end) => Ok(Some(end)),
    }
}

/// Runs a body to its end, where each load has this answer.
pub fn to_end<E: Engine>(
    alloc: Global,
    engine: &mut E,
    body: &mut E::Body,
    world: &mut Told,
    answer: &Answer,
) -> Result<End, Broken>
    requires ready { IsReady E.body (E.progress body.old) }
    requires answers { AnswersLoads answer.now }
{
    'loads: for _ in 0..MOST_LOADS {
        if let Some(end) = stop(alloc, engine, body, world, answer)? {
            return Ok(end);
        }
    }
    Err(Broken::Loads)
}
