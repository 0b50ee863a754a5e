// Where a replay departs from the kept run.
ghost use Rattle.std.specs.Prelude.{◌≡◌, ◌++◌, ◌∷◌, ◌<◌, ◌≤◌, [], length, take, slice_get, Some, IfOk, IsTrue};
ghost use Rattle.sw_record.specs.Ran.{IsCauseBy};
ghost use Rattle.sw_world.specs.Body.{Pair};
ghost use Rattle.sw_keeper.specs.Departures.{HasTwoAnswers, CanDepart};
ghost use Rattle.sw_keeper.specs.Departing.{DepartsBy};

use std::alloc::Global;
use sw_record::{Cause, Run, run_at};
use sw_text::{Memory, Shared};
use sw_world::{Answer, Engine, GrowingPairs, Pairs, Question};

/// The kept pairs up to the first question that is answered otherwise, that question with its new answer, and the cause
/// that it is.
#[derive(Drop)]
pub struct Departure {
    pub known: Pairs,
    pub cause: Cause,
}

/// The departure at a place of a kept run.
fn departure_of(
    alloc: Global,
    seen: &Pairs,
    place: usize,
    answer: Answer,
) -> Result<Departure, Memory>
    requires { (pair : Pair) × (slice_get seen.now place ≡ Some pair) × HasTwoAnswers pair.0 }
    ensures known { IfOk result (λ departure. (pair : Pair) → slice_get seen.now place ≡ Some pair
        → departure.known ≡ take place seen.now ++ (pair.0, answer) ∷ []) }
    ensures cause { IfOk result (λ departure. (pair : Pair) → slice_get seen.now place ≡ Some pair
        → IsCauseBy pair.0 departure.cause) }
{
    let cause = cause_of(&seen.pair(place).0);
    let known = known_to(alloc, seen, place, answer)?;
    Ok(Departure { known, cause })
}

/// The pairs up to a place, and then the question there with this answer.
fn known_to(alloc: Global, seen: &Pairs, place: usize, answer: Answer) -> Result<Pairs, Memory>
    requires { place < length seen.now }
    ensures { IfOk result (λ known. (pair : Pair) → slice_get seen.now place ≡ Some pair
        → known ≡ take place seen.now ++ (pair.0, answer) ∷ []) }
{
    let op = seen.pair(place).0.share()?;
    let mut known = with_room(alloc, seen, place)?;
    known.push(op, answer);
    Ok(known.into_pairs())
}

/// The pairs up to a place, and room for one more.
fn with_room(alloc: Global, seen: &Pairs, place: usize) -> Result<GrowingPairs, Memory>
    requires { place ≤ length seen.now }
    ensures items { IfOk result (λ known. known.items ≡ take place seen.now) }
    ensures room { IfOk result (λ known. IsTrue known.has_room) }
{
    let mut known = seen.grown(alloc, place)?;
    known.reserve(alloc)?;
    Ok(known)
}

/// The departure at a place of the pairs of one of these runs.
#[inline(never)]
pub(crate) fn departure_at<E: Engine>(
    alloc: Global,
    runs: &[Shared<Run<E>>],
    near: usize,
    at: usize,
    answer: Answer,
) -> Result<Departure, Memory>
    requires { CanDepart runs.now near at }
    ensures { IfOk result (λ departure. DepartsBy runs.now near at answer departure) }
{
    let seen = run_at(runs, near).get().seen();
    let departure = departure_of(alloc, seen, at, answer)?;
    Ok(departure)
}

/// The cause that another answer to the question is.
fn cause_of(op: &Question) -> Cause
    requires { HasTwoAnswers op.now }
    ensures { IsCauseBy op.now result }
{
    match op {
        Question::Load { .. } => Cause::Load,
        Question::Find { .. } => Cause::Member,
        Question::Get { .. } => Cause::Variable,
        Question::Call { .. } => Cause::Call,
        Question::Put { .. } => unreachable!(),
        Question::Say { .. } => unreachable!(),
    }
}
