// A folder and the compiles under way.
ghost use Rattle.std.specs.Prelude.{◌≡◌, ◌<◌, ◌++◌, ◌∷◌, [], nat_eq, None, Ok, Err, IfOk, IfErr, OnOk, OnErr};
ghost use Rattle.std.specs.Map.{lookup};
ghost use Rattle.std.specs.FinMap as files;
ghost use Rattle.sw_folder.specs.Edits.{after_put, after_removal, IsFaultOf};
ghost use Rattle.sw_modules.specs.Settings.{hostless};
ghost use Rattle.sw_step_bodies.specs.Steps.{ended_in};
ghost use Rattle.sw_step.specs.Joint.{started, Answers};
ghost use Rattle.sw_step.specs.Under.{IsStartFault, IsStepFault};

use crate::compile::Compile;
use crate::{StartFault, StepFault};
use indexmap::IndexMap;
use std::alloc::Global;
use std::marker::Model;
use sw_folder::{EditFault, Folder};
use sw_modules::Reader;
use sw_step_bodies::{Stepped, Within};
use sw_text::{Memory, Name};
use sw_world::Engine;

/// A folder that goes on changing, and compiles under way, each over the folder as it was when it began. Contracts see
/// both.
#[derive(Drop)]
pub struct Steps<R: Reader, E: Engine> {
    folder: Folder,
    given: u32,
    under_way: IndexMap<u32, Compile<R, E>>,
    alloc: Global,
}

impl<R: Reader, E: Engine> Model for Steps<R, E> {
    ghost use Rattle.std.specs.Coded.{codes};
    ghost use Rattle.sw_folder.specs.Files.{files_code};
    ghost use Rattle.sw_step.specs.Joint.{Joint};
    ghost use Rattle.sw_step.specs.Under.{NoneFrom};

    ghost Value = { Joint };

    ghost coded = { Prim.hlevel (codes, files_code) };

    ghost view = { λ s. record { folder = s.folder; given = s.given; under_way = s.under_way.entries } };

    ghost invariant = { λ s. NoneFrom s.given s.under_way.entries };
}

impl<R: Reader, E: Engine> Steps<R, E> {
    /// An empty folder, and no compile under way.
    pub fn new(alloc: Global) -> Steps<R, E>
        ensures { result ≡ record { folder = files.empty; given = 0; under_way = [] } }
    {
        Steps {
            folder: Folder::new(alloc),
            given: 0,
            under_way: IndexMap::new(alloc),
            alloc,
        }
    }

    /// Puts a file, as `Folder::put` does. No compile under way sees it.
    pub fn put(&mut self, path: &str, bytes: &[u8]) -> Result<(), EditFault>
        ensures ok { OnOk result (after_put path.now bytes.now self.old.folder ≡ Ok self.new.folder) }
        ensures refused { IfErr result (λ fault. IsFaultOf fault (after_put path.now bytes.now self.old.folder)) }
        ensures unchanged { OnErr result (self.new ≡ self.old) }
        ensures given { self.new.given ≡ self.old.given }
        ensures under_way { self.new.under_way ≡ self.old.under_way }
    {
        self.folder.put(path, bytes)
    }

    /// Takes a file out, as `Folder::remove` does. No compile under way sees it. Takes no memory.
    pub fn remove(&mut self, path: &str) -> Result<(), EditFault>
        ensures ok { OnOk result (after_removal path.now self.old.folder ≡ Ok self.new.folder) }
        ensures refused { IfErr result (λ fault. after_removal path.now self.old.folder ≡ Err fault) }
        ensures unchanged { OnErr result (self.new ≡ self.old) }
        ensures given { self.new.given ≡ self.old.given }
        ensures under_way { self.new.under_way ≡ self.old.under_way }
    {
        self.folder.remove(path)
    }

    /// Begins a compile of an entry with these load paths, over the folder as it is, and gives it a number: the numbers
    /// count from 0. `NoNumber` exactly where 4,294,967,295 were given. After a fault all is as before.
    pub fn start(&mut self, entry: &Name, paths: &[Name]) -> Result<u32, StartFault>
        ensures number { IfOk result (λ number. number ≡ self.old.given) }
        ensures ok { OnOk result (self.new
            ≡ started (hostless R.reads E.body) entry.now paths.now self.old) }
        ensures some { OnOk result (self.old.given < 4294967295) }
        ensures none { IfErr result (λ fault. IsStartFault self.old.given fault) }
        ensures unchanged { OnErr result (self.new ≡ self.old) }
    {
        if self.given == u32::MAX {
            return Err(StartFault::NoNumber);
        }
        let Ok(compile) = Compile::new(self.alloc, entry, paths, &self.folder) else {
            return Err(StartFault::Memory);
        };
        let number = self.given;
        match add_compile(&mut self.under_way, number, compile) {
            Ok(()) => {
                self.given = number + 1;
                Ok(number)
            }
            Err(Memory) => Err(StartFault::Memory),
        }
    }

    /// The next step of the compile with this number, and what it answers: up to the next load that opens a body, or to
    /// the end of a body and the answer to the load that waited for it. The last one replies what the compile gives from
    /// nothing, over the folder as it was when it began, and takes it out. The engine tells of the body that ended, where
    /// one did. `NoCompile` exactly where no compile under way has the number, and then the engine is as before, too.
    /// After `Memory` the compiles are as before, and the engine has told of some bodies more.
    pub fn step(&mut self, reader: &R, number: u32, engine: &mut E) -> Result<Stepped, StepFault>
        ensures ok { IfOk result (λ answer. Answers (hostless R.reads E.body) number answer self.old self.new) }
        ensures ran { IfOk result (λ answer. E.ran engine.new ≡ E.ran engine.old ++ ended_in answer) }
        ensures fault { IfErr result (λ fault. IsStepFault number fault self.old (E.ran engine.old) (E.ran engine.new)) }
        ensures unchanged { OnErr result (self.new ≡ self.old) }
    {
        let within = Within {
            alloc: self.alloc,
            reader,
        };
        let Some(compile) = self.under_way.get_mut(&number) else {
            return Err(StepFault::NoCompile);
        };
        match compile.step(&within, engine) {
            Ok(Stepped::Ended(reply)) => {
                self.under_way.shift_remove(&number);
                Ok(Stepped::Ended(reply))
            }
            Ok(Stepped::Loading { body, opened }) => Ok(Stepped::Loading { body, opened }),
            Ok(Stepped::Finished { body }) => Ok(Stepped::Finished { body }),
            Err(Memory) => Err(StepFault::Memory),
        }
    }
}

/// Puts a compile under a number that none has.
fn add_compile<R: Reader, E: Engine>(
    under_way: &mut IndexMap<u32, Compile<R, E>>,
    number: u32,
    compile: Compile<R, E>,
) -> Result<(), Memory>
    requires { lookup (nat_eq number) under_way.old.entries ≡ None }
    ensures ok { OnOk result (under_way.new.entries ≡ under_way.old.entries ++ (number, compile) ∷ []) }
    ensures err { OnErr result (under_way.new.entries ≡ under_way.old.entries) }
{
    under_way.insert(number, compile)?;
    Ok(())
}
