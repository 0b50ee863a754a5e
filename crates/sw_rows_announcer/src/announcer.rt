// The engine, and its bodies between their turns.
ghost use Rattle.std.specs.Prelude.{◌≡◌, true, [], ◌∷◌, ◌++◌, IfOk, OnErr};
ghost use Rattle.sw_world.specs.declared.question.Question.{Question};
ghost use Rattle.sw_world.specs.Progress.{Running, Waiting, stops, ran_by};
ghost use Rattle.sw_rows_announcer.specs.Turns.{TurnDid, IsStep, status_of};
ghost use Rattle.sw_rows_announcer.specs.declared.place.Place.TheVariants.{Running as At_Running};
ghost use Rattle.sw_rows_announcer.specs.Announcing.{announces};

use crate::place::Place;
use crate::stop::{note, stop_at};
use crate::turn::body_turn;
use std::alloc::Global;
use std::marker::Model;
use std::mem;
use sw_text::{Memory, Name, Shared};
use sw_tree::Sheet;
use sw_world::{Answer, Config, Engine, GrowingPairs, Pairs, Turn, World};

/// A body of the announcer: its sheet, its pairs, and where it is.
#[derive(Drop)]
pub struct Announcement {
    sheet: Shared<Sheet>,
    config: Config,
    path: Name,
    pairs: GrowingPairs,
    started: bool,
    place: Place,
}

impl Model for Announcement {
    ghost use Rattle.std.specs.Coded.{codes};
    ghost use Rattle.sw_rows_announcer.specs.Turns.{Shown, HasRoom};
    ghost use Rattle.sw_tree.specs.contracts.expr.ExprKind as e;
    ghost use Rattle.sw_tree.specs.contracts.statement.Statement as s;
    ghost use Rattle.sw_values.specs.contracts.plain.Plain as p;

    ghost Value = { Shown };

    ghost coded = { Prim.hlevel (codes, e.the_row.coded, s.the_row.coded, p.the_row.coded) };

    ghost view = { λ b. record {
      job = record { sheet = b.sheet; config = b.config; path = b.path };
      pairs = b.pairs.items;
      started = b.started;
      place = b.place;
    } };

    ghost invariant = { λ b. HasRoom b.place b.pairs.has_room };
}

// A turn, with what it adds to what ran. Room for the path is taken first.
#[tactic(auto, using(crate::proofs::Engines::room_running, crate::proofs::Engines::status_stops))]
fn go_on<W: World>(
    alloc: Global,
    b: &mut Announcement,
    ran: &mut Vec<Name>,
    world: &mut W,
) -> Result<Turn, Memory>
    requires { status_of b.old.place ≡ Running }
    ensures job { (b.new.job ≡ b.old.job) × (b.new.started ≡ true) }
    ensures did { TurnDid W.gives (announces b.old.job) b.old.pairs world.old b.new.pairs world.new }
    ensures step { IfOk result (λ t. IsStep (announces b.old.job) b.new.pairs t) }
    ensures stopped { IfOk result (λ t. status_of b.new.place ≡ stops t) }
    ensures running { OnErr result (status_of b.new.place ≡ Running) }
    ensures ran { IfOk result (λ t. ran.new.items ≡ ran.old.items ++ ran_by t b.old.job.path) }
    ensures ran_same { OnErr result (ran.new.items ≡ ran.old.items) }
{
    b.started = true;
    let path = b.path.share()?;
    ran.reserve(1)?;
    let reached = body_turn(alloc, b.sheet.get(), &b.path, &mut b.pairs, world)?;
    let back = stop_at(&mut b.place, reached)?;
    note(ran, path, &back);
    Ok(back)
}

// Hands a waiting body its answer.
fn give_to(b: &mut Announcement, answer: Answer)
    requires { (op : Question) × (status_of b.old.place ≡ Waiting op) }
    ensures { (op : Question) × (status_of b.old.place ≡ Waiting op)
        × (b.new ≡ record b.old { pairs = b.old.pairs ++ (op, answer) ∷ []; started = true; place = At_Running }) }
{
    b.started = true;
    if let Place::Waiting(op) = mem::replace(&mut b.place, Place::Running) {
        b.pairs.push(op, answer);
    }
}

/// The engine. Contracts see the paths of the bodies that ran to their ends.
#[derive(Drop)]
pub struct Announcer {
    ran: Vec<Name>,
}

impl Model for Announcer {
    ghost use Rattle.std.specs.Prelude.{List, ℕ};

    ghost Value = { List (List ℕ) };

    ghost view = { λ e. e.ran.items };
}

impl Announcer {
    /// An engine that has run nothing. Takes no memory.
    pub fn new(alloc: Global) -> Announcer
        ensures { result ≡ [] }
    {
        Announcer {
            ran: Vec::new(alloc),
        }
    }
}

impl Engine for Announcer {
    type Body = Announcement;

    ghost use Rattle.sw_rows_announcer.specs.Turns.{progress};
    ghost use Rattle.sw_rows_announcer.specs.Announcing.{announces};
    ghost use Rattle.sw_rows_announcer.specs.Laws.{ends_for_good, ends_in_time, asks_from_sources, names_once, ends_refused};

    ghost body = { announces };

    ghost ran = { λ e. e };

    ghost progress = { progress };

    fn start(
        &self,
        alloc: Global,
        sheet: &Shared<Sheet>,
        config: &Config,
        path: &Name,
        known: &Pairs,
    ) -> Result<Announcement, Memory> {
        let pairs = known.grown(alloc, known.len())?;
        let sheet = sheet.share()?;
        let config = config.share()?;
        let path = path.share()?;
        Ok(Announcement {
            sheet,
            config,
            path,
            pairs,
            started: false,
            place: Place::Running,
        })
    }

    fn give(&self, running: &mut Announcement, answer: Answer) {
        give_to(running, answer);
    }

    fn go<W: World>(
        &mut self,
        alloc: Global,
        running: &mut Announcement,
        world: &mut W,
    ) -> Result<Turn, Memory> {
        let turn = go_on(alloc, running, &mut self.ran, world)?;
        Ok(turn)
    }

    fn close(&self, running: Announcement) -> Pairs {
        let Announcement {
            mut pairs,
            started,
            ..
        } = running;
        if !started {
            pairs.clear();
        }
        pairs.into_pairs()
    }

    ghost ends_for_good = { ends_for_good };

    ghost ends_in_time = { ends_in_time };

    ghost asks_from_sources = { asks_from_sources };

    ghost names_once = { names_once };

    ghost ends_refused = { ends_refused };
}
