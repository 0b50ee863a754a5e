// A compile that goes on over its folder.
ghost use Rattle.std.specs.Prelude.{◌≡◌, ◌<◌, ◌++◌, ◌∷◌, [], ℕ, List, None, Some, IfOk, OnErr, vec_len, vec_capacity};
ghost use Rattle.sw_world.specs.declared.question.Question.{Question};
ghost use Rattle.sw_modules.specs.Settings.{hostless};
ghost use Rattle.sw_step_bodies.specs.Standing.{left_at};
ghost use Rattle.sw_step_bodies.specs.Bodies.{IsEnding, job_of};
ghost use Rattle.sw_step_bodies.specs.Moves.{IsDeep, Comes, DidAnswer, moment_of, ended_at};

use crate::body::{Innermost, Waiting, Work};
use crate::loading::{Loaded, load};
use crate::outcome::outcome_of;
use crate::outside::Within;
use std::alloc::Global;
use std::mem;
use sw_modules::{Live, Reader};
use sw_record::Outcome;
use sw_text::{Memory, Name};
use sw_world::{End, Engine};

/// How far a compile came.
#[derive(Drop)]
pub enum Came {
    /// The body of `body` came to a load, for which that of `opened` is to begin.
    Loading { body: Name, opened: Name },
    /// The body of `body` ended, and the load that waited for it was answered.
    Finished { body: Name },
    /// The body of the entry ended, with this outcome.
    Over(Outcome),
}

/// The state of a compile, its open bodies, and how many steps ran each body that has ended.
#[derive(Drop)]
pub(crate) struct Going<'f, E: Engine> {
    pub(crate) live: Live<'f>,
    pub(crate) waiting: Vec<Waiting<E>>,
    pub(crate) innermost: Innermost<E>,
    pub(crate) times: Vec<(Name, u32)>,
}

impl<'f, E: Engine> Going<'f, E> {
    /// Goes on to the next step. After `Memory` what is left is the same.
    pub(crate) fn run<R: Reader>(
        &mut self,
        within: &Within<'_, R>,
        engine: &mut E,
    ) -> Result<Came, Memory>
        requires { IsDeep self.old.live self.old.waiting.items }
        ensures came { IfOk result (λ came. Comes (hostless R.reads E.body) came
            (moment_of self.old.live self.old.waiting.items self.old.innermost self.old.times.items)
            (moment_of self.new.live self.new.waiting.items self.new.innermost self.new.times.items)) }
        ensures stays { OnErr result (left_at (hostless R.reads E.body)
            (moment_of self.new.live self.new.waiting.items self.new.innermost self.new.times.items)
            ≡ left_at (hostless R.reads E.body)
            (moment_of self.old.live self.old.waiting.items self.old.innermost self.old.times.items)) }
        ensures deep { IsDeep self.new.live self.new.waiting.items }
        ensures folder { self.new.live.folder ≡ self.old.live.folder }
        ensures ran { IfOk result (λ came. E.ran engine.new
            ≡ E.ran engine.old ++ ended_at came self.new.times.items) }
        ensures ran_err { OnErr result ((more : List (List ℕ)) × (E.ran engine.new ≡ E.ran engine.old ++ more)) }
    {
        'turns: loop {
            match self.innermost.reach(within, &mut self.live, engine)? {
                Some(end) => return self.close(within, engine, end),
                None => {
                    if let Some(came) = self.answer_load(within, engine)? {
                        return Ok(came);
                    }
                }
            }
        }
    }

    /// Answers the load of the innermost body, or opens a body for it. After `Memory` all is as before.
    fn answer_load<R: Reader>(
        &mut self,
        within: &Within<'_, R>,
        engine: &E,
    ) -> Result<Option<Came>, Memory>
        requires asks { (op : Question) × (self.old.innermost.asks ≡ Some op) }
        requires deep { IsDeep self.old.live self.old.waiting.items }
        ensures answered { IfOk result (λ came. DidAnswer (hostless R.reads E.body) came
            (moment_of self.old.live self.old.waiting.items self.old.innermost self.old.times.items)
            (moment_of self.new.live self.new.waiting.items self.new.innermost self.new.times.items)) }
        ensures deep { IsDeep self.new.live self.new.waiting.items }
        ensures folder { self.new.live.folder ≡ self.old.live.folder }
        ensures err { OnErr result (
            moment_of self.new.live self.new.waiting.items self.new.innermost self.new.times.items
            ≡ moment_of self.old.live self.old.waiting.items self.old.innermost self.old.times.items) }
    {
        let body = self.innermost.path().share()?;
        self.waiting.reserve(1)?;
        let Some(op) = self.innermost.op() else {
            unreachable!()
        };
        match load(within, &mut self.live, op)? {
            Loaded::Answered(answer) => {
                self.innermost.give(within.alloc, engine, answer);
                Ok(None)
            }
            Loaded::Opens { work, opened } => {
                open(within.alloc, &mut self.waiting, &mut self.innermost, work);
                Ok(Some(Came::Loading { body, opened }))
            }
        }
    }

    /// Closes the innermost body, which ended so: the load that waited for it is answered. After `Memory` all is as
    /// before.
    fn close<R: Reader>(
        &mut self,
        within: &Within<'_, R>,
        engine: &E,
        end: End,
    ) -> Result<Came, Memory>
        requires ends { IsEnding E.body self.old.innermost.standing end }
        requires deep { IsDeep self.old.live self.old.waiting.items }
        ensures came { IfOk result (λ came. Comes (hostless R.reads E.body) came
            (moment_of self.old.live self.old.waiting.items self.old.innermost self.old.times.items)
            (moment_of self.new.live self.new.waiting.items self.new.innermost self.new.times.items)) }
        ensures ended { IfOk result (λ came. ended_at came self.new.times.items
            ≡ self.old.innermost.standing.job.path ∷ []) }
        ensures deep { IsDeep self.new.live self.new.waiting.items }
        ensures folder { self.new.live.folder ≡ self.old.live.folder }
        ensures err { OnErr result (
            moment_of self.new.live self.new.waiting.items self.new.innermost self.new.times.items
            ≡ moment_of self.old.live self.old.waiting.items self.old.innermost self.old.times.items) }
    {
        let path = self.innermost.path().share()?;
        let body = path.share()?;
        let count = self.innermost.loads() + 1;
        self.times.reserve(1)?;
        let Some(waiting) = self.waiting.last() else {
            let outcome = outcome_of(within.alloc, &self.live, end)?;
            self.times.push_reserved((path, count));
            return Ok(Came::Over(outcome));
        };
        let answer = self.live.end(waiting.op(), &end)?;
        self.times.push_reserved((path, count));
        let Some(waiting) = self.waiting.pop() else {
            unreachable!()
        };
        self.innermost = waiting.resumed(engine, answer);
        Ok(Came::Finished { body })
    }
}

/// The innermost body waits from now on for the one that runs this, and that is the innermost one.
fn open<E: Engine>(
    alloc: Global,
    waiting: &mut Vec<Waiting<E>>,
    innermost: &mut Innermost<E>,
    work: Work,
)
    requires asks { (op : Question) × (innermost.old.asks ≡ Some op) }
    requires room { vec_len waiting.old < vec_capacity waiting.old }
    requires loads { work.loads ≡ 0 }
    ensures waits { (op : Question) × (innermost.old.asks ≡ Some op)
        × (waiting.new.items ≡ waiting.old.items ++ (record { body = innermost.old.standing; op = op }) ∷ []) }
    ensures innermost { innermost.new
        ≡ record { standing = record { job = job_of work; count = 0; pairs = [] }; asks = None } }
{
    let below = mem::replace(innermost, Innermost::new(alloc, work));
    waiting.push_reserved(below.into_waiting());
}
