// Questions to the world.
ghost use Rattle.std.specs.Prelude.{◌≡◌, ◌<◌, ◌≤◌, ◌⊎◌, ℕ, List, option_copied, [], ◌∷◌, ◌++◌, length, take, Some, None, slice_get, IfOk, IfErr, OnOk, OnErr, IsTrue};
ghost use Rattle.std.specs.Option.{option_map};
ghost use Rattle.sw_text.specs.declared.place.Span.{Span};
ghost use Rattle.sw_world.specs.Questions.{IsLoad, Fits};
ghost use Rattle.sw_world.specs.Body.{answers};
ghost use Rattle.sw_world.specs.declared.question.Question.{Question};
ghost use Rattle.sw_eval_questions.specs.Talk.{NumberedQuestion, Gives, Fails, answered, site_of, owned, no_owner, too_many};
ghost use Rattle.sw_eval_questions.specs.Ran.{op_at};
ghost use Rattle.sw_eval_questions.specs.Did.{IsReturn, nothing};
ghost use Rattle.sw_eval_questions.specs.Asking.{Heard};
ghost use Rattle.sw_eval_questions.specs.declared.stop.Stop.TheVariants as S;

use crate::asked::Asked;
use crate::stop::{Stop, fails};
use std::alloc::Global;
use sw_text::{FaultCode, Memory, Name, Span};
use sw_world::{Answer, GrowingPairs, Question, World};

/// The number of a question and its answer, where that is known or there are too many.
pub fn known<W: World>(
    asked: &mut Asked,
    span: &Span,
    world: &mut W,
) -> Result<(usize, Answer), Stop>
    requires { (asked.old.at < length asked.old.pairs.items) ⊎ (1000000 ≤ asked.old.at) }
    ensures did { (q : NumberedQuestion) (op : Question) → op_at asked.old.path asked.old.pairs.items asked.old.at q ≡ Some op
        → Heard W.gives q span.now asked.old world.old result asked.new world.new }
    ensures few { IfOk result (λ a. a.0 < 1000000) }
{
    if asked.at >= 1_000_000 {
        return fails(FaultCode::Turns, span);
    }
    let here = asked.at;
    asked.at += 1;
    taken(here, &asked.pairs.pair(here).1)
}

// Asks the world, and keeps the pair.
fn ask_world<W: World>(
    alloc: Global,
    asked: &mut Asked,
    op: Question,
    world: &mut W,
) -> Result<(usize, Answer), Stop>
    requires plain { IsLoad op → ⊥ }
    requires at_end { asked.old.at ≡ length asked.old.pairs.items }
    requires few { asked.old.at < 1000000 }
    ensures did { (q : NumberedQuestion) (at : Span) → op_at asked.old.path asked.old.pairs.items asked.old.at q ≡ Some op
        → Heard W.gives q at asked.old world.old result asked.new world.new }
    ensures few { IfOk result (λ a. a.0 < 1000000) }
{
    let answer = answer_of(alloc, &mut asked.pairs, &op, world)?;
    let result = taken(asked.at, &answer);
    asked.pairs.push(op, answer);
    asked.at += 1;
    result
}

// The world's answer. Room for the pair is taken before it is asked.
fn answer_of<W: World>(
    alloc: Global,
    pairs: &mut GrowingPairs,
    op: &Question,
    world: &mut W,
) -> Result<Answer, Stop>
    requires { IsLoad op.now → ⊥ }
    ensures given { IfOk result (λ answer. W.gives world.old op.now answer world.new) }
    ensures fits { IfOk result (λ answer. Fits op.now answer) }
    ensures room { OnOk result (IsTrue pairs.new.has_room) }
    ensures pairs { pairs.new.items ≡ pairs.old.items }
    ensures err { OnErr result (world.new ≡ world.old) }
    ensures memory { IfErr result (λ stop. stop ≡ S.Memory) }
{
    pairs.reserve(alloc)?;
    Ok(world.ask(alloc, op)?)
}

// An answer that was taken, with its number.
fn taken(number: usize, answer: &Answer) -> Result<(usize, Answer), Stop>
    ensures did { IsReturn result nothing (answered (λ a. Gives ((number, a), nothing)) answer.now) }
    ensures number { IfOk result (λ a. a.0 ≡ number) }
{
    match answer {
        Answer::Refused(fault) => Err(Stop::Fault(fault.share()?)),
        _ => Ok((number, answer.share()?)),
    }
}

/// Takes a known answer, or asks the world.
pub fn ask<W: World>(
    alloc: Global,
    asked: &mut Asked,
    op: Question,
    span: &Span,
    world: &mut W,
) -> Result<(usize, Answer), Stop>
    requires { IsLoad op → ⊥ }
    ensures did { (q : NumberedQuestion) → op_at asked.old.path asked.old.pairs.items asked.old.at q ≡ Some op
        → Heard W.gives q span.now asked.old world.old result asked.new world.new }
    ensures few { IfOk result (λ a. a.0 < 1000000) }
{
    if asked.at >= 1_000_000 || asked.at < asked.pairs.len() {
        known(asked, span, world)
    } else {
        ask_world(alloc, asked, op, world)
    }
}

/// A question about no owner.
pub fn lost<T>(asked: &Asked, span: &Span) -> Result<T, Stop>
    ensures full { 1000000 ≤ asked.now.at → IsReturn result nothing (Fails (too_many span.now)) }
    ensures lost { asked.now.at < 1000000 → IsReturn result nothing (Fails (no_owner span.now)) }
{
    if asked.at >= 1_000_000 {
        return fails(FaultCode::Turns, span);
    }
    fails(FaultCode::UnknownVariable, span)
}

impl Asked {
    // The answer to a question that was taken.
    fn answer(&self, number: usize) -> Option<&Answer>
        ensures { option_copied result ≡ slice_get (answers (take self.now.at self.now.pairs.items)) number }
    {
        if number >= self.at {
            return None;
        }
        if number >= self.pairs.len() {
            return None;
        }
        Some(&self.pairs.pair(number).1)
    }

    /// The path of a module that code stands in.
    pub fn site(&self, number: usize) -> Result<Name, Memory>
        ensures { IfOk result (λ path. path
            ≡ site_of self.now.path (answers (take self.now.at self.now.pairs.items)) number) }
    {
        if number == 0 {
            return self.path.share();
        }
        match self.answer(number - 1) {
            Some(Answer::Callable { site, .. }) => site.share(),
            _ => self.path.share(),
        }
    }

    /// The path and the name of an owner that was answered.
    pub fn owner(&self, number: usize) -> Result<Option<(Name, Name)>, Memory>
        ensures { IfOk result (λ o. (f : List ℕ → List ℕ → Question)
            → owned f (slice_get (answers (take self.now.at self.now.pairs.items)) number)
            ≡ option_map (λ p. f p.0 p.1) o) }
    {
        match self.answer(number) {
            Some(Answer::Owner { path, name }) => Ok(Some((path.share()?, name.share()?))),
            _ => Ok(None),
        }
    }
}
