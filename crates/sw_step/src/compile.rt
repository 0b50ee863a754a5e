// Compiles under way.
ghost use Rattle.std.specs.Prelude.{◌≡◌, ◌++◌, ℕ, List, None, IfOk, OnErr};
ghost use Rattle.sw_modules.specs.Settings.{hostless};
ghost use Rattle.sw_step_bodies.specs.Steps.{ended_in};
ghost use Rattle.sw_step_bodies.specs.Under.{IsBegun};
ghost use Rattle.sw_step.specs.Joint.{at_start};
ghost use Rattle.sw_step.specs.Under.{IsNext};

use std::alloc::Global;
use std::marker::{Model, PhantomData};
use sw_folder::Folder;
use sw_modules::{Reader, share_names};
use sw_record::Outcome;
use sw_step_bodies::{Begun, Start, StepReply, Stepped, Within, begin, go};
use sw_text::{Fault, List, Memory, Name};
use sw_world::Engine;

/// A compile under way. Contracts see what it is of, and the steps that are left.
#[derive(Drop)]
pub(crate) struct Compile<R: Reader, E: Engine> {
    start: Start,
    begun: Option<Begun<E>>,
    read_by: PhantomData<R>,
}

impl<R: Reader, E: Engine> Model for Compile<R, E> {
    ghost use Rattle.std.specs.Coded.{codes};
    ghost use Rattle.sw_folder.specs.Files.{files_code};
    ghost use Rattle.sw_modules.specs.Settings.{hostless};
    ghost use Rattle.sw_step.specs.Joint.{UnderWay};
    ghost use Rattle.sw_step.specs.Under.{IsStanding, under_way_of};

    ghost Value = { UnderWay };

    ghost coded = { Prim.hlevel (codes, files_code) };

    ghost view = { λ c. under_way_of (hostless R.reads E.body) c.start c.begun };

    ghost invariant = { λ c. IsStanding (hostless R.reads E.body) c.start c.begun };
}

impl<R: Reader, E: Engine> Compile<R, E> {
    /// A compile of an entry over a copy of a folder, of which nothing has begun.
    pub(crate) fn new(
        alloc: Global,
        entry: &Name,
        paths: &[Name],
        folder: &Folder,
    ) -> Result<Compile<R, E>, Memory>
        ensures { IfOk result (λ compile. compile
            ≡ at_start (hostless R.reads E.body) folder.now paths.now entry.now) }
    {
        let start = Start {
            entry: entry.share()?,
            paths: share_names(alloc, paths)?,
            folder: folder.copy()?,
        };
        Ok(Compile {
            start,
            begun: None,
            read_by: PhantomData,
        })
    }

    /// Its next step. After `Memory` it is as before, and the engine has told of some bodies more.
    pub(crate) fn step(&mut self, within: &Within<'_, R>, engine: &mut E) -> Result<Stepped, Memory>
        ensures next { IfOk result (λ stepped. IsNext (hostless R.reads E.body) self.old stepped self.new) }
        ensures ran { IfOk result (λ stepped. E.ran engine.new ≡ E.ran engine.old ++ ended_in stepped) }
        ensures err { OnErr result (self.new ≡ self.old) }
        ensures ran_err { OnErr result ((more : List (List ℕ)) × (E.ran engine.new ≡ E.ran engine.old ++ more)) }
    {
        let begun = self.begun.take();
        match begun_of(within, &self.start, begun)? {
            Err(fault) => Ok(Stepped::Ended(StepReply {
                says: List::new(within.alloc),
                times: List::new(within.alloc),
                outcome: Outcome::Error(fault),
            })),
            Ok(begun) => {
                let (begun, stepped) = go(within, &self.start.folder, begun, engine);
                self.begun = begun;
                stepped
            }
        }
    }
}

/// Where a compile is, which begins where nothing of it has begun; or the fault of its entry.
fn begun_of<R: Reader, E: Engine>(
    within: &Within<'_, R>,
    start: &Start,
    begun: Option<Begun<E>>,
) -> Result<Result<Begun<E>, Fault>, Memory>
    ensures ok { IfOk result (λ now. IsBegun (hostless R.reads E.body) start.now begun now) }
    ensures err { OnErr result (begun ≡ None) }
{
    match begun {
        Some(begun) => Ok(Ok(begun)),
        None => begin(within, start),
    }
}
