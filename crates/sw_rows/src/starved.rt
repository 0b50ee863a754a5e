// An engine that finds no memory at some of its calls.
ghost use Rattle.std.specs.Prelude.{◌≡◌};

use std::alloc::Global;
use sw_text::{Memory, Name, Shared};
use sw_tree::Sheet;
use sw_world::{Answer, Config, Engine, Pairs, Turn, World};

/// Runs bodies as another engine does, but that at those calls to run one on that have these numbers, from 1, it finds
/// no memory.
#[derive(Drop)]
pub struct Starving<E: Engine> {
    engine: E,
    fails: Vec<u32>,
    calls: u32,
}

impl<E: Engine> Starving<E> {
    pub fn new(engine: E, fails: Vec<u32>) -> Starving<E> {
        Starving {
            engine,
            fails,
            calls: 0,
        }
    }
}

impl<E: Engine> Engine for Starving<E> {
    type Body = E::Body;

    ghost body = { E.body };

    ghost ran = { λ starving. E.ran starving.engine };

    ghost progress = { E.progress };

    fn start(
        &self,
        alloc: Global,
        sheet: &Shared<Sheet>,
        config: &Config,
        path: &Name,
        known: &Pairs,
    ) -> Result<Self::Body, Memory> {
        self.engine.start(alloc, sheet, config, path, known)
    }

    fn give(&self, running: &mut Self::Body, answer: Answer) {
        self.engine.give(running, answer);
    }

    fn go<W: World>(
        &mut self,
        alloc: Global,
        running: &mut Self::Body,
        world: &mut W,
    ) -> Result<Turn, Memory> {
        self.calls = self.calls.saturating_add(1);
        if self.fails.contains(&self.calls) {
            return Err(Memory);
        }
        self.engine.go(alloc, running, world)
    }

    fn close(&self, running: Self::Body) -> Pairs {
        self.engine.close(running)
    }

    ghost ends_for_good = { E.ends_for_good };

    ghost ends_in_time = { E.ends_in_time };

    ghost asks_from_sources = { E.asks_from_sources };

    ghost names_once = { E.names_once };

    ghost ends_refused = { E.ends_refused };
}
