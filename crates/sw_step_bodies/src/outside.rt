// How the innermost body goes on, over what is outside.
ghost use Rattle.std.specs.Prelude.{◌≡◌, ◌≤◌, ◌++◌, ◌∷◌, ℕ, List, [], length, IfOk, OnErr};
ghost use Rattle.sw_world.specs.Laws.{most_asked};
ghost use Rattle.sw_world.specs.Progress.{Running, IsBody, stops, ran_by};
ghost use Rattle.sw_modules.specs.Settings.{hostless};
ghost use Rattle.sw_step_bodies.specs.Standing.{};
ghost use Rattle.sw_step_bodies.specs.Bodies.{IsPlace, Inner, job_of, standing_of, asks_at};
ghost use Rattle.sw_step_bodies.specs.Moves.{IsOn, WentOn, Reaches, ran_at};

use crate::body::{Innermost, Place, Work};
use std::alloc::Global;
use std::mem;
use sw_modules::{Asked, Live, Reader};
use sw_text::Memory;
use sw_world::{End, Engine, NoHosts, Pairs, Turn};

/// What stays as it is during a step.
#[derive(Drop)]
pub struct Within<'c, R: Reader> {
    pub alloc: Global,
    pub reader: &'c R,
}

/// A body goes on up to a load or to its end, and what is outside answers the questions between.
fn go_asked<R: Reader, E: Engine>(
    within: &Within<'_, R>,
    asked: &mut Asked<'_, '_, NoHosts>,
    engine: &mut E,
    body: &mut E::Body,
) -> Result<Turn, Memory>
    requires runs { (E.progress body.old).status ≡ Running }
    requires is_body { IsBody E.body (E.progress body.old) }
    ensures went { WentOn (hostless R.reads E.body) (E.progress body.old) (E.progress body.new) asked.old.live.now
        asked.new.live.now }
    ensures same_live { asked.new.live.ghost_name ≡ asked.old.live.ghost_name }
    ensures same_hosts { asked.new.hosts.ghost_name ≡ asked.old.hosts.ghost_name }
    ensures is_body { IsBody E.body (E.progress body.new) }
    ensures stopped { IfOk result (λ turn. ((E.progress body.new).status ≡ stops turn)
        × ((E.progress body.new).left ≡ [])) }
    ensures running { OnErr result ((E.progress body.new).status ≡ Running) }
    ensures ran { IfOk result (λ turn. E.ran engine.new
        ≡ E.ran engine.old ++ ran_by turn (E.progress body.new).job.path) }
    ensures ran_same { OnErr result (E.ran engine.new ≡ E.ran engine.old) }
{
    engine.go(within.alloc, body, asked)
}

/// A body goes on, over a state that is lent for it.
fn go_outside<R: Reader, E: Engine>(
    within: &Within<'_, R>,
    live: &mut Live<'_>,
    engine: &mut E,
    body: &mut E::Body,
) -> Result<Turn, Memory>
    requires runs { (E.progress body.old).status ≡ Running }
    requires is_body { IsBody E.body (E.progress body.old) }
    ensures went { WentOn (hostless R.reads E.body) (E.progress body.old) (E.progress body.new) live.old live.new }
    ensures is_body { IsBody E.body (E.progress body.new) }
    ensures stopped { IfOk result (λ turn. ((E.progress body.new).status ≡ stops turn)
        × ((E.progress body.new).left ≡ [])) }
    ensures running { OnErr result ((E.progress body.new).status ≡ Running) }
    ensures ran { IfOk result (λ turn. E.ran engine.new
        ≡ E.ran engine.old ++ ran_by turn (E.progress body.new).job.path) }
    ensures ran_same { OnErr result (E.ran engine.new ≡ E.ran engine.old) }
{
    let mut hosts = NoHosts;
    let mut asked = Asked {
        live,
        hosts: &mut hosts,
    };
    go_asked(within, &mut asked, engine, body)
}

/// A running body goes on. Where it ended its pairs are kept, so that it can be begun again before its end.
fn go_on<R: Reader, E: Engine>(
    within: &Within<'_, R>,
    live: &mut Live<'_>,
    engine: &mut E,
    work: &Work,
    body: E::Body,
) -> (Place<E::Body>, Result<Option<End>, Memory>)
    requires { IsPlace E.body E.progress (job_of work.now) (Place.Running body) }
    ensures is_place { IsPlace E.body E.progress (job_of work.now) result.0 }
    ensures on { IsOn (hostless R.reads E.body) (standing_of E.progress work.now (Place.Running body))
        (standing_of E.progress work.now result.0) live.old live.new }
    ensures reached { IfOk result.1 (λ end. Reaches E.body
        (record { standing = standing_of E.progress work.now result.0; asks = asks_at result.0 }) end) }
    ensures ran { IfOk result.1 (λ end. E.ran engine.new ≡ E.ran engine.old ++ ran_at end work.now.path) }
    ensures ran_same { OnErr result.1 (E.ran engine.new ≡ E.ran engine.old) }
{
    let mut body = body;
    match go_outside(within, live, engine, &mut body) {
        Ok(Turn::Load(op)) => (Place::Asking(body, op), Ok(None)),
        Ok(Turn::Ended(end)) => (Place::Known(engine.close(body)), Ok(Some(end))),
        Err(memory) => (Place::Running(body), Err(memory)),
    }
}

/// A body goes on from where it is to its next load or to its end.
fn reach<R: Reader, E: Engine>(
    within: &Within<'_, R>,
    live: &mut Live<'_>,
    engine: &mut E,
    work: &Work,
    place: Place<E::Body>,
) -> (Place<E::Body>, Result<Option<End>, Memory>)
    requires { IsPlace E.body E.progress (job_of work.now) place }
    ensures is_place { IsPlace E.body E.progress (job_of work.now) result.0 }
    ensures on { IsOn (hostless R.reads E.body) (standing_of E.progress work.now place)
        (standing_of E.progress work.now result.0) live.old live.new }
    ensures reached { IfOk result.1 (λ end. Reaches E.body
        (record { standing = standing_of E.progress work.now result.0; asks = asks_at result.0 }) end) }
    ensures ran { IfOk result.1 (λ end. E.ran engine.new ≡ E.ran engine.old ++ ran_at end work.now.path) }
    ensures ran_same { OnErr result.1 (E.ran engine.new ≡ E.ran engine.old) }
{
    match place {
        Place::Asking(body, op) => (Place::Asking(body, op), Ok(None)),
        Place::Running(body) => go_on(within, live, engine, work, body),
        Place::Known(known) => {
            match engine.start(within.alloc, &work.sheet, &work.config, &work.path, &known) {
                Ok(body) => go_on(within, live, engine, work, body),
                Err(memory) => (Place::Known(known), Err(memory)),
            }
        }
    }
}

impl<E: Engine> Innermost<E> {
    /// Goes on to the next load or to the end of the body, which is what is answered. After `Memory` the engine has
    /// told of nothing, and what is left is the same.
    pub(crate) fn reach<R: Reader>(
        &mut self,
        within: &Within<'_, R>,
        live: &mut Live<'_>,
        engine: &mut E,
    ) -> Result<Option<End>, Memory>
        ensures on { IsOn (hostless R.reads E.body) self.old.standing self.new.standing live.old live.new }
        ensures reached { IfOk result (λ end. Reaches E.body self.new end) }
        ensures few { length self.new.standing.pairs ≤ most_asked }
        ensures ran { IfOk result (λ end. E.ran engine.new
            ≡ E.ran engine.old ++ ran_at end self.new.standing.job.path) }
        ensures ran_same { OnErr result (E.ran engine.new ≡ E.ran engine.old) }
    {
        let place = mem::replace(&mut self.place, Place::Known(Pairs::new(within.alloc)));
        let (place, reached) = reach(within, live, engine, &self.work, place);
        self.place = place;
        reached
    }
}
