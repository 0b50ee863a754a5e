// Open bodies.
ghost use Rattle.std.specs.Prelude.{◌≡◌, ◌≤◌, ℕ, [], None, Some, IfSome};
ghost use Rattle.std.specs.Option.{option_copied};
ghost use Rattle.sw_world.specs.Questions.{IsLoad, Fits};
ghost use Rattle.sw_world.specs.Body.{Goes};
ghost use Rattle.sw_world.specs.declared.question.Question.{Question};
ghost use Rattle.sw_step_bodies.specs.Standing.{resumed, with_answer};
ghost use Rattle.sw_step_bodies.specs.Bodies.{job_of, IsAsking};

use std::alloc::Global;
use std::marker::Model;
use std::mem;
use sw_text::{Name, Shared};
use sw_tree::Sheet;
use sw_world::{Answer, Config, Engine, Pairs, Question};

/// What an open body runs, and to how many loads it came that opened bodies.
#[derive(Drop)]
pub struct Work {
    pub sheet: Shared<Sheet>,
    pub config: Config,
    pub path: Name,
    pub loads: u32,
}

/// Where an open body is.
#[derive(Drop)]
pub enum Place<B> {
    /// It is to be begun, with these pairs behind it.
    Known(Pairs),
    Running(B),
    /// It came to this load, which is to be answered next.
    Asking(B, Question),
}

/// The innermost open body of a compile.
#[derive(Drop)]
pub(crate) struct Innermost<E: Engine> {
    pub(crate) work: Work,
    pub(crate) place: Place<E::Body>,
}

impl<E: Engine> Model for Innermost<E> {
    ghost use Rattle.std.specs.Coded.{codes};
    ghost use Rattle.sw_tree.specs.contracts.expr.ExprKind as expr;
    ghost use Rattle.sw_tree.specs.contracts.statement.Statement as statement;
    ghost use Rattle.sw_values.specs.contracts.plain.Plain as plain;
    ghost use Rattle.sw_step_bodies.specs.Bodies.{Inner, IsInner, standing_of, asks_at};

    ghost Value = { Inner };

    ghost coded = { Prim.hlevel (codes, expr.the_row.coded, statement.the_row.coded, plain.the_row.coded) };

    ghost view = { λ i. record { standing = standing_of E.progress i.work i.place; asks = asks_at i.place } };

    ghost invariant = { λ i. IsInner E.body E.progress i.work i.place };
}

/// A body that waits for the answer to a load, which opened the body above it.
#[derive(Drop)]
pub(crate) struct Waiting<E: Engine> {
    work: Work,
    body: E::Body,
    op: Question,
}

impl<E: Engine> Model for Waiting<E> {
    ghost use Rattle.std.specs.Coded.{codes};
    ghost use Rattle.sw_tree.specs.contracts.expr.ExprKind as expr;
    ghost use Rattle.sw_tree.specs.contracts.statement.Statement as statement;
    ghost use Rattle.sw_values.specs.contracts.plain.Plain as plain;
    ghost use Rattle.sw_step_bodies.specs.Standing.{Waits};
    ghost use Rattle.sw_step_bodies.specs.Bodies.{IsWaiting, waits_of};

    ghost Value = { Waits };

    ghost coded = { Prim.hlevel (codes, expr.the_row.coded, statement.the_row.coded, plain.the_row.coded) };

    ghost view = { λ w. waits_of w.work (E.progress w.body) w.op };

    ghost invariant = { λ w. IsWaiting E.body (E.progress w.body) w.work w.op };
}

impl<E: Engine> Innermost<E> {
    /// A body that is to begin.
    pub(crate) fn new(alloc: Global, work: Work) -> Innermost<E>
        requires { work.loads ≡ 0 }
        ensures { result ≡ record { standing = record { job = job_of work; count = 0; pairs = [] }; asks = None } }
    {
        Innermost {
            work,
            place: Place::Known(Pairs::new(alloc)),
        }
    }

    /// The path of its module.
    pub(crate) fn path(&self) -> &Name
        ensures { result.now ≡ self.now.standing.job.path }
    {
        &self.work.path
    }

    /// To how many loads it came that opened bodies.
    pub(crate) fn loads(&self) -> u32
        ensures count { result ≡ self.now.standing.count }
        ensures few { result ≤ 1000000 }
    {
        self.work.loads
    }

    /// The load that is to be answered next.
    pub(crate) fn op(&self) -> Option<&Question>
        ensures op { option_copied result ≡ self.now.asks }
        ensures asks { IfSome result (λ op. IsAsking E.body self.now.standing op.now) }
    {
        match &self.place {
            Place::Asking(_, op) => Some(op),
            Place::Known(_) => None,
            Place::Running(_) => None,
        }
    }

    /// The load is answered, and the body goes on. Takes no memory.
    pub(crate) fn give(&mut self, alloc: Global, engine: &E, answer: Answer)
        requires { (op : Question) × (self.old.asks ≡ Some op) × Fits op answer }
        ensures { (op : Question) × (self.old.asks ≡ Some op)
            × (self.new ≡ record { standing = with_answer self.old.standing op answer; asks = None }) }
    {
        let place = mem::replace(&mut self.place, Place::Known(Pairs::new(alloc)));
        let Place::Asking(mut body, _) = place else {
            unreachable!()
        };
        engine.give(&mut body, answer);
        self.place = Place::Running(body);
    }

    /// The load opened a body, for which this one waits.
    pub(crate) fn into_waiting(self) -> Waiting<E>
        requires { (op : Question) × (self.asks ≡ Some op) }
        ensures { (op : Question) × (self.asks ≡ Some op) × (result ≡ record { body = self.standing; op = op }) }
    {
        let Innermost { work, place } = self;
        let Place::Asking(body, op) = place else {
            unreachable!()
        };
        Waiting { work, body, op }
    }
}

impl<E: Engine> Waiting<E> {
    /// The load for whose answer it waits.
    pub(crate) fn op(&self) -> &Question
        ensures op { result.now ≡ self.now.op }
        ensures load { IsLoad self.now.op }
    {
        &self.op
    }

    /// The load is answered, and the body goes on. Takes no memory.
    pub(crate) fn resumed(self, engine: &E, answer: Answer) -> Innermost<E>
        requires { Fits self.op answer }
        ensures { result ≡ record { standing = resumed self answer; asks = None } }
    {
        let Waiting {
            work,
            mut body,
            op: _,
        } = self;
        engine.give(&mut body, answer);
        let Work {
            sheet,
            config,
            path,
            loads,
        } = work;
        let work = Work {
            sheet,
            config,
            path,
            loads: loads + 1,
        };
        Innermost {
            work,
            place: Place::Running(body),
        }
    }
}
