// The replay of the questions of one kept run.
ghost use Rattle.std.specs.Prelude.{◌≡◌, ℕ, ◌≤◌, IfOk, OnErr, length};
ghost use Rattle.sw_world.specs.Questions.{IsLoad};
ghost use Rattle.std.specs.Bool.{OnTrue};
ghost use Rattle.sw_record.specs.Replay.{IsAgain, AskedAgain, IsOther};
ghost use Rattle.sw_record.specs.Tails.{IsTail, AreGiven, AreGivenAt, IsGivenAt};

use crate::{Run, Tail};
use std::alloc::Global;
use sw_text::Memory;
use sw_world::{Answer, ConfirmsNamed, Engine, NamedVariables, Pairs, Question, World};

/// What asking the questions of one kept run again comes to.
#[derive(Drop)]
pub enum Again {
    /// All were answered as before.
    Same,
    /// At this place is a load, which wasn't asked; all before it were answered as before.
    Load(usize),
    /// At this place is the first question that was answered otherwise; no later one was asked.
    Differs { at: usize, answer: Answer },
}

/// Asks the kept questions from a place on, in order, up to the first load or the first answer that isn't the kept one.
/// Takes no memory of its own. After `Memory` some first questions of these were asked, and answered as before.
pub(crate) fn replay<E: Engine, W: ConfirmsNamed>(
    alloc: Global,
    run: &Run<E>,
    from: usize,
    world: &mut W,
) -> Result<Again, Memory>
    requires { from ≤ length run.now.run.seen }
    ensures ok { IfOk result (λ again. IsAgain W.gives run.now.run.seen from again world.old world.new) }
    ensures err { OnErr result ((to : ℕ) × AskedAgain W.gives run.now.run.seen from to world.old world.new) }
{
    let seen = run.seen();
    let begin = begin_of(run, from, world);
    for at in begin..seen.len() {
        let (op, kept) = seen.pair(at);
        if op.is_load() {
            return Ok(Again::Load(at));
        }
        if world.confirms(op, kept) {
            continue;
        }
        match other_answer(alloc, op, kept, world)? {
            None => {}
            Some(answer) => return Ok(Again::Differs { at, answer }),
        }
    }
    Ok(Again::Same)
}

/// The place from which on questions are asked one by one: behind the tail, where that begins at this place and is
/// answered as before.
fn begin_of<E: Engine, W: ConfirmsNamed>(run: &Run<E>, from: usize, world: &mut W) -> usize
    requires { from ≤ length run.now.run.seen }
    ensures asked { AskedAgain W.gives run.now.run.seen from result world.old world.old }
    ensures same { world.new ≡ world.old }
{
    let tail = run.tail();
    if tail.from == from && is_confirmed(run.seen(), tail, world) {
        tail.to
    } else {
        from
    }
}

/// True only where the questions of a tail are answered as before, which changes nothing. Takes no memory.
fn is_confirmed<W: ConfirmsNamed>(seen: &Pairs, tail: &Tail, world: &mut W) -> bool
    requires { IsTail seen.now tail.now }
    ensures asked { OnTrue result (AskedAgain W.gives seen.now tail.now.from tail.now.to world.old world.old) }
    ensures same { world.new ≡ world.old }
{
    are_confirmed(tail.named.as_slice(), world)
        && are_confirmed_at(seen, tail.alone.as_slice(), world)
}

/// True only where all these variables are named and valued so.
fn are_confirmed<W: ConfirmsNamed>(named: &[NamedVariables], world: &mut W) -> bool
    ensures given { OnTrue result (AreGiven W.gives world.old named.now) }
    ensures same { world.new ≡ world.old }
{
    for at in 0..named.len() {
        if !world.confirms_named(&named[at]) {
            return false;
        }
    }
    true
}

/// True only where the questions at these places are answered as before.
fn are_confirmed_at<W: ConfirmsNamed>(seen: &Pairs, places: &[usize], world: &mut W) -> bool
    ensures given { OnTrue result (AreGivenAt W.gives world.old seen.now places.now) }
    ensures same { world.new ≡ world.old }
{
    for at in 0..places.len() {
        if !is_confirmed_at(seen, places[at], world) {
            return false;
        }
    }
    true
}

/// True only where the question at a place is answered as before.
fn is_confirmed_at<W: ConfirmsNamed>(seen: &Pairs, place: usize, world: &mut W) -> bool
    ensures given { OnTrue result (IsGivenAt W.gives world.old seen.now place) }
    ensures same { world.new ≡ world.old }
{
    match seen.get(place) {
        None => false,
        Some((op, kept)) => !op.is_load() && world.confirms(op, kept),
    }
}

// The answer to a question that is answered otherwise than it was kept. It is large to move, so it has a function of
// its own, and a confirmed answer none.
#[inline(never)]
pub(crate) fn other_answer<W: World>(
    alloc: Global,
    op: &Question,
    kept: &Answer,
    world: &mut W,
) -> Result<Option<Answer>, Memory>
    requires { IsLoad op.now → ⊥ }
    ensures ok { IfOk result (λ other. IsOther W.gives op.now kept.now other world.old world.new) }
    ensures err { OnErr result (world.new ≡ world.old) }
{
    let answer = world.ask(alloc, op)?;
    if kept.same(&answer) {
        Ok(None)
    } else {
        Ok(Some(answer))
    }
}
