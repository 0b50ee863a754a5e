// The engine: bodies that stop at loads and go on after their answers.
ghost use Rattle.std.specs.Prelude.{◌≡◌, ◌<◌, true, [], ◌∷◌, ◌++◌, IfOk, OnErr};
ghost use Rattle.sw_world.specs.declared.question.Question.{Question};
ghost use Rattle.sw_world.specs.Progress.{Running, Waiting, stops, ran_by};
ghost use Rattle.sw_eval.specs.Means.{body};
ghost use Rattle.sw_eval_questions.specs.Turns.{TurnDid, IsStep, status_of};
ghost use Rattle.sw_eval_questions.specs.declared.place.Place.TheVariants.{Running as At_Running};

use crate::history::History;
use crate::turn::body_turn;
use std::alloc::Global;
use std::marker::Model;
use std::mem;
use sw_eval_questions::{Asked, Place};
use sw_eval_state::State;
use sw_eval_walk::Walk;
use sw_text::{Memory, Name, Shared};
use sw_tree::Sheet;
use sw_world::{Answer, Config, Engine, Pairs, Turn, World};

/// A body that the evaluator runs: its sheet, its pairs, and where its evaluation stands.
#[derive(Drop)]
pub struct Evaluation {
    sheet: Shared<Sheet>,
    config: Config,
    walk: Walk,
    started: bool,
    place: Place,
    next: usize,
}

impl Model for Evaluation {
    ghost use Rattle.std.specs.Coded.{codes};
    ghost use Rattle.sw_eval_questions.specs.Turns.{Shown};
    ghost use Rattle.sw_eval.specs.Resume.{Keeps};
    ghost use Rattle.sw_tree.specs.contracts.expr.ExprKind as e;
    ghost use Rattle.sw_tree.specs.contracts.statement.Statement as s;
    ghost use Rattle.sw_values.specs.contracts.plain.Plain as p;

    ghost Value = { Shown };

    ghost coded = { Prim.hlevel (codes, e.the_row.coded, s.the_row.coded, p.the_row.coded) };

    ghost view = { λ b. record {
      job = record { sheet = b.sheet; config = b.config; path = b.walk.asked.path };
      pairs = b.walk.asked.pairs.items;
      started = b.started;
      place = b.place;
    } };

    ghost invariant = { λ b. Keeps (record { sheet = b.sheet; config = b.config; path = b.walk.asked.path })
        b.walk.asked.pairs.items b.walk.asked.at b.next b.walk.state b.place b.walk.asked.pairs.has_room };
}

// A turn, with what it adds to what ran.
fn go_on<W: World>(b: &mut Evaluation, ran: &mut History, world: &mut W) -> Result<Turn, Memory>
    requires { status_of b.old.place ≡ Running }
    ensures job { (b.new.job ≡ b.old.job) × (b.new.started ≡ true) }
    ensures did { TurnDid W.gives (body b.old.job) b.old.pairs world.old b.new.pairs world.new }
    ensures step { IfOk result (λ t. IsStep (body b.old.job) b.new.pairs t) }
    ensures stopped { IfOk result (λ t. status_of b.new.place ≡ stops t) }
    ensures running { OnErr result (status_of b.new.place ≡ Running) }
    ensures ran { IfOk result (λ t. ran.new.paths ≡ ran.old.paths ++ ran_by t b.old.job.path) }
    ensures ran_same { OnErr result (ran.new.paths ≡ ran.old.paths) }
{
    b.started = true;
    match body_turn(b.sheet.get(), &b.config, &mut b.walk, &mut b.next, world)? {
        Turn::Load(op) => {
            let shown = op.share()?;
            b.place = Place::Waiting(op);
            Ok(Turn::Load(shown))
        }
        Turn::Ended(end) => {
            let shown = end.share()?;
            *ran = History::and(ran, &b.walk.asked.path);
            b.place = Place::Ended(end);
            Ok(Turn::Ended(shown))
        }
    }
}

// Hands a waiting body its answer.
fn give_to(b: &mut Evaluation, answer: Answer)
    requires { (op : Question) × (status_of b.old.place ≡ Waiting op) }
    ensures { (op : Question) × (status_of b.old.place ≡ Waiting op)
        × (b.new ≡ record b.old { pairs = b.old.pairs ++ (op, answer) ∷ []; started = true; place = At_Running }) }
{
    b.started = true;
    if let Place::Waiting(op) = mem::replace(&mut b.place, Place::Running) {
        b.walk.asked.pairs.push(op, answer);
    }
}

/// The program's engine. Contracts see the paths of the bodies that ran to their ends.
#[derive(Drop)]
pub struct Evaluator {
    ran: History,
}

impl Model for Evaluator {
    ghost use Rattle.std.specs.Prelude.{List, ℕ};

    ghost Value = { List (List ℕ) };

    ghost view = { λ e. e.ran.paths };
}

impl Evaluator {
    /// An engine that has run nothing. Takes no memory.
    pub fn new() -> Evaluator
        ensures { result ≡ [] }
    {
        Evaluator {
            ran: History::new(),
        }
    }
}

impl Engine for Evaluator {
    type Body = Evaluation;

    ghost use Rattle.std.specs.Prelude.{List, ℕ};
    ghost use Rattle.sw_eval.specs.Means.{body};
    ghost use Rattle.sw_eval_questions.specs.Turns.{progress};
    ghost use Rattle.sw_eval.specs.Body_laws.{ends_in_time, ends_for_good, asks_from_sources, names_once, ends_refused};

    ghost body = { body };

    ghost ran = { λ e. e };

    ghost progress = { progress };

    fn start(
        &self,
        alloc: Global,
        sheet: &Shared<Sheet>,
        config: &Config,
        path: &Name,
        known: &Pairs,
    ) -> Result<Evaluation, Memory> {
        let pairs = known.grown(alloc, known.len())?;
        let sheet = sheet.share()?;
        let config = config.share()?;
        let path = path.share()?;
        Ok(Evaluation {
            sheet,
            config,
            walk: Walk {
                alloc,
                state: State::begin(alloc),
                asked: Asked::new(path, pairs),
            },
            started: false,
            place: Place::Running,
            next: 0,
        })
    }

    fn give(&self, running: &mut Evaluation, answer: Answer) {
        give_to(running, answer);
    }

    fn go<W: World>(
        &mut self,
        _alloc: Global,
        running: &mut Evaluation,
        world: &mut W,
    ) -> Result<Turn, Memory> {
        let turn = go_on(running, &mut self.ran, world)?;
        Ok(turn)
    }

    fn close(&self, running: Evaluation) -> Pairs {
        let Evaluation { walk, started, .. } = running;
        let Walk { asked, .. } = walk;
        let Asked { mut pairs, .. } = asked;
        if !started {
            pairs.clear();
        }
        pairs.into_pairs()
    }

    ghost ends_for_good = { ends_for_good };

    ghost ends_in_time = { ends_in_time };

    ghost asks_from_sources = { asks_from_sources };

    ghost names_once = { names_once };

    ghost ends_refused = { ends_refused };
}
