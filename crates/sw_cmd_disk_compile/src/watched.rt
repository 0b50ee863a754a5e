// The files of a disk's folder, as they were read last.
ghost use Rattle.std.specs.Prelude.{◌≡◌, [], IfOk, OnErr};
ghost use Rattle.std.specs.FinMap as files;
ghost use Rattle.sw_folder.specs.Files.{IsFolder};
ghost use Rattle.sw_folder.specs.Edits.{after_removal, folder_after};
ghost use Rattle.sw_keeper.specs.Compile.{compiled, CompilesTo, BreaksOff};
ghost use Rattle.sw_modules.specs.Settings.{hostless};
ghost use Rattle.sw_cmd_disk_compile.specs.Watched.{Covers};

use std::alloc::Global;
use std::marker::Model;
use sw_cmd_disk_folder::Holder;
use sw_folder::EditFault;
use sw_keeper::Keeper;
use sw_modules::Reader;
use sw_record::Reply;
use sw_text::{List, Memory, Name};
use sw_world::{Engine, NoHosts};

/// The files of a disk's folder as they were read last, and the runs that are kept of their compiles.
#[derive(Drop)]
pub struct Watched<R: Reader, E: Engine> {
    keeper: Keeper<R, E>,
    paths: List<Name>,
    alloc: Global,
}

impl<R: Reader, E: Engine> Model for Watched<R, E> {
    ghost use Rattle.std.specs.Coded.{codes};
    ghost use Rattle.sw_folder.specs.Files.{files_code};
    ghost use Rattle.sw_tree.specs.contracts.expr.ExprKind as expr;
    ghost use Rattle.sw_tree.specs.contracts.statement.Statement as statement;
    ghost use Rattle.sw_values.specs.contracts.plain.Plain as plain;
    ghost use Rattle.sw_keeper.specs.Keeping.{Keeping};
    ghost use Rattle.sw_cmd_disk_compile.specs.Watched.{Covers};

    ghost Value = { Keeping };

    ghost coded = { Prim.hlevel (codes, files_code, expr.the_row.coded, statement.the_row.coded, plain.the_row.coded) };

    ghost view = { λ watched. watched.keeper };

    ghost invariant = { λ watched. Covers watched.paths watched.keeper.folder };
}

impl<R: Reader, E: Engine> Watched<R, E> {
    /// No file, and no kept run.
    pub fn new(alloc: Global) -> Watched<R, E>
        ensures { result ≡ record { folder = files.empty; kept = [] } }
    {
        Watched {
            keeper: Keeper::new(alloc),
            paths: List::new(alloc),
            alloc,
        }
    }

    /// Takes all files out. The kept runs stay. Takes no memory.
    pub fn clear(&mut self)
        ensures folder { self.new.folder ≡ files.empty }
        ensures kept { self.new.kept ≡ self.old.kept }
    {
        take_out_all(&mut self.keeper, self.paths.as_slice());
        self.paths.truncate(0);
    }

    /// Compiles an entry, as `Keeper::compile` does without functions of a host.
    pub fn compile(
        &mut self,
        reader: &R,
        entry: &Name,
        paths: &[Name],
        engine: &mut E,
    ) -> Result<Reply, Memory>
        ensures ok { IfOk result (λ reply. CompilesTo
            (compiled (hostless R.reads E.body) self.old.folder paths.now entry.now []) reply self.old self.new []
            (E.ran engine.old) (E.ran engine.new)) }
        ensures err { OnErr result (BreaksOff (hostless R.reads E.body) self.old.folder paths.now entry.now [] []
            (E.ran engine.old) (E.ran engine.new)) }
        ensures unchanged { OnErr result (self.new ≡ self.old) }
    {
        self.keeper
            .compile(reader, entry, paths, engine, &mut NoHosts)
    }
}

impl<R: Reader, E: Engine> Holder for Watched<R, E> {
    ghost use Rattle.sw_keeper.specs.Keeping.{Table};

    ghost folder = { λ watched. watched.folder };

    ghost Rest = { Table };

    ghost rest = { λ watched. watched.kept };

    fn put(&mut self, path: &str, bytes: &[u8]) -> Result<(), EditFault> {
        self.paths.push(Name::new(self.alloc, path)?)?;
        self.keeper.put(path, bytes)
    }

    fn holds(&self, path: &str) -> bool {
        self.keeper.folder().text(path).is_some()
    }
}

// Takes the files with these paths out, which are all.
fn take_out_all<R: Reader, E: Engine>(keeper: &mut Keeper<R, E>, paths: &[Name])
    requires { Covers paths.now keeper.old.folder }
    ensures folder { keeper.new.folder ≡ files.empty }
    ensures kept { keeper.new.kept ≡ keeper.old.kept }
{
    'paths: for path in paths {
        take_out(keeper, path.as_str());
    }
}

// Takes a file out, where it is there.
fn take_out<R: Reader, E: Engine>(keeper: &mut Keeper<R, E>, path: &str)
    ensures folder { keeper.new.folder ≡ folder_after (after_removal path.now keeper.old.folder) keeper.old.folder }
    ensures kept { keeper.new.kept ≡ keeper.old.kept }
    ensures limits { IsFolder keeper.old.folder }
{
    keeper.folder().keeps_limits();
    let _ = keeper.remove(path);
}
