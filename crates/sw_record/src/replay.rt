// The replay of several kept runs of a module at once.
ghost use Rattle.std.specs.Prelude.{◌≡◌, ℕ, ◌<◌, IfOk, OnErr, length};
ghost use Rattle.sw_record.specs.Together.{AreTogether, IsReplay, IsStep, IsAsked, BrokeOff, replayed_by};

use crate::Run;
use crate::again::{Again, other_answer, replay};
use crate::marks::{first_marked, is_alone, narrow, run_at};
use std::alloc::Global;
use sw_text::{Memory, Shared};
use sw_world::{Answer, Confirms, ConfirmsNamed, Engine};

/// What asking the questions of kept runs again comes to.
#[derive(Drop)]
pub enum Replayed {
    /// The run at this place agreed to its end.
    Same(usize),
    /// The marked runs agree up to a load at this place of their pairs, which wasn't asked.
    Load {
        alive: [bool; 8],
        at: usize,
    },
    /// This answer is the first that none of the runs has that agreed so far; `near` is the first of these, and it has
    /// another one at this place. No later question was asked.
    Differs {
        near: usize,
        at: usize,
        answer: Answer,
    },
}

/// One question of a replay.
#[derive(Drop)]
pub enum Step {
    Stops(Replayed),
    /// These runs agree still, up to this place of their pairs.
    GoesOn { alive: [bool; 8], at: usize },
}

/// What asking the question at a place of a run comes to.
#[derive(Drop)]
pub enum Asked {
    /// It is a load, and wasn't asked.
    Load,
    AsKept,
    Other(Answer),
}

/// Asks the questions of the marked runs from a place on, in order: each once, since all that agree so far ask the
/// same one. Goes on as long as one of them has the answer, up to a load or to the end of one. Takes no memory of its
/// own. After `Memory` some first questions of these were asked, and answered as in one of the runs.
pub fn replay_all<E: Engine, W: ConfirmsNamed>(
    alloc: Global,
    runs: &[Shared<Run<E>>],
    alive: [bool; 8],
    from: usize,
    world: &mut W,
) -> Result<Replayed, Memory>
    requires { AreTogether E.body runs.now alive from }
    ensures ok { IfOk result (λ replayed. IsReplay W.gives runs.now alive from replayed world.old world.new) }
    ensures err { OnErr result (BrokeOff W.gives runs.now alive from world.old world.new) }
{
    let mut left = alive;
    let mut at = from;
    'questions: loop {
        match replay_step(alloc, runs, left, at, world)? {
            Step::Stops(replayed) => return Ok(replayed),
            Step::GoesOn {
                alive: agree,
                at: to,
            } => {
                left = agree;
                at = to;
            }
        }
    }
}

/// Asks the question at a place of the marked runs; where one alone is marked, all its questions from there on.
fn replay_step<E: Engine, W: ConfirmsNamed>(
    alloc: Global,
    runs: &[Shared<Run<E>>],
    alive: [bool; 8],
    at: usize,
    world: &mut W,
) -> Result<Step, Memory>
    requires { AreTogether E.body runs.now alive at }
    ensures ok { IfOk result (λ step. IsStep W.gives runs.now alive at step world.old world.new) }
    ensures err { OnErr result (BrokeOff W.gives runs.now alive at world.old world.new) }
{
    let Some(near) = first_marked(&alive) else {
        unreachable!()
    };
    let run = run_at(runs, near).get();
    if is_alone(&alive, near) {
        let again = replay(alloc, run, at, world)?;
        return Ok(Step::Stops(replayed_of(near, alive, again)));
    }
    let seen = run.seen();
    if at >= seen.len() {
        return Ok(Step::Stops(Replayed::Same(near)));
    }
    match ask_at(alloc, run, at, world)? {
        Asked::Load => Ok(Step::Stops(Replayed::Load { alive, at })),
        Asked::AsKept => Ok(Step::GoesOn {
            alive: narrow(runs, alive, at, &seen.pair(at).1),
            at: at + 1,
        }),
        Asked::Other(answer) => {
            let left = narrow(runs, alive, at, &answer);
            if first_marked(&left).is_none() {
                return Ok(Step::Stops(Replayed::Differs { near, at, answer }));
            }
            Ok(Step::GoesOn {
                alive: left,
                at: at + 1,
            })
        }
    }
}

/// Asks the question at a place of a run. After `Memory` nothing was asked.
fn ask_at<E: Engine, W: ConfirmsNamed>(
    alloc: Global,
    run: &Run<E>,
    at: usize,
    world: &mut W,
) -> Result<Asked, Memory>
    requires { at < length run.now.run.seen }
    ensures ok { IfOk result (λ asked. IsAsked W.gives run.now.run.seen at asked world.old world.new) }
    ensures err { OnErr result (world.new ≡ world.old) }
{
    let seen = run.seen();
    let (op, kept) = seen.pair(at);
    if op.is_load() {
        return Ok(Asked::Load);
    }
    if world.confirms(op, kept) {
        return Ok(Asked::AsKept);
    }
    match other_answer(alloc, op, kept, world)? {
        None => Ok(Asked::AsKept),
        Some(answer) => Ok(Asked::Other(answer)),
    }
}

/// What the replay of one run is, where that is the only one.
fn replayed_of(near: usize, alive: [bool; 8], again: Again) -> Replayed
    ensures { result ≡ replayed_by near alive again }
{
    match again {
        Again::Same => Replayed::Same(near),
        Again::Load(at) => Replayed::Load { alive, at },
        Again::Differs { at, answer } => Replayed::Differs { near, at, answer },
    }
}
