// Which of the kept runs of a module still agree.
ghost use Rattle.std.specs.Prelude.{◌≡◌, ◌↔◌, ℕ, ◌<◌, length, slice_get, Some, IsTrue, MatchOption};
ghost use Rattle.sw_world.specs.Body.{Pair};
ghost use Rattle.sw_record.specs.Together.{IsMarked, IsFirstMarked, AreNarrowed, HasAnswerAt};

use crate::Run;
use sw_text::Shared;
use sw_world::{Answer, Engine, Pairs};

/// The run at a place.
pub fn run_at<'k, E: Engine>(runs: &'k [Shared<Run<E>>], place: usize) -> &'k Shared<Run<E>>
    requires { place < length runs.now }
    ensures { slice_get runs.now place ≡ Some result.now }
{
    &runs[place]
}

/// The first place that is marked.
pub fn first_marked(marks: &[bool; 8]) -> Option<usize>
    ensures { MatchOption result ((place : ℕ) → IsMarked marks.now place → ⊥) (λ place. IsFirstMarked marks.now place) }
{
    for place in 0..8 {
        if marks[place] {
            return Some(place);
        }
    }
    None
}

/// Whether no other place is marked.
pub(crate) fn is_alone(marks: &[bool; 8], near: usize) -> bool
    ensures { IsTrue result ↔ ((place : ℕ) → IsMarked marks.now place → place ≡ near) }
{
    for place in 0..8 {
        if marks[place] && place != near {
            return false;
        }
    }
    true
}

/// Keeps the marks of those runs that have this answer at a place of their pairs. Takes no memory.
pub fn narrow<E: Engine>(
    runs: &[Shared<Run<E>>],
    alive: [bool; 8],
    at: usize,
    answer: &Answer,
) -> [bool; 8]
    ensures { AreNarrowed runs.now alive at answer.now result }
{
    let mut left = [false; 8];
    for place in 0..8 {
        left[place] = is_left(runs, &alive, place, at, answer);
    }
    left
}

/// Whether the run at a place is marked and has this answer at a place of its pairs.
fn is_left<E: Engine>(
    runs: &[Shared<Run<E>>],
    alive: &[bool; 8],
    place: usize,
    at: usize,
    answer: &Answer,
) -> bool
    requires { place < 8 }
    ensures { IsTrue result ↔ (IsMarked alive.now place × HasAnswerAt runs.now place at answer.now) }
{
    alive[place] && has_answer_at(runs, place, at, answer)
}

fn has_answer_at<E: Engine>(
    runs: &[Shared<Run<E>>],
    place: usize,
    at: usize,
    answer: &Answer,
) -> bool
    ensures { IsTrue result ↔ HasAnswerAt runs.now place at answer.now }
{
    match runs.get(place) {
        None => false,
        Some(run) => has_answer(run.get().seen(), at, answer),
    }
}

fn has_answer(seen: &Pairs, at: usize, answer: &Answer) -> bool
    ensures { IsTrue result ↔ ((pair : Pair) × (slice_get seen.now at ≡ Some pair) × (pair.1 ≡ answer.now)) }
{
    match seen.get(at) {
        None => false,
        Some((_, kept)) => kept.same(answer),
    }
}
