// A disk in memory that fails at the calls whose numbers are listed.
ghost use Rattle.std.specs.Prelude.{◌≡◌, ◌≤◌, ◌↔◌, IsTrue, IsFalse};
ghost use Rattle.std.specs.List.{Contains};
ghost use Rattle.sw_io.specs.Causes.{NoFault, Rose};
ghost use Rattle.sw_io.specs.Disks.{shelves};
ghost use Rattle.sw_io.specs.Memory.{call_after};

use crate::disk::{Disk, DiskEnd};
use crate::listed::is_listed;
use crate::shelf::{Folder, Shelf};
use std::alloc::Global;
use std::marker::Model;
use sw_text::{List, Name};

/// Holds the same files under every name, which change at each listing as long as a next folder comes. Listings and
/// readings are numbered together from 1; exactly those that are listed fail, and calls past number 4,294,967,295 never
/// do.
#[derive(Drop)]
pub struct MemDisk {
    shelf: Shelf,
    fail: List<u32>,
    calls: u64,
    faults: u64,
}

impl Model for MemDisk {
    ghost use Rattle.sw_io.specs.Disks.{Shelves};

    ghost Value = { Shelves };

    ghost view = { λ disk. record {
      course = disk.shelf;
      fail = disk.fail;
      calls = disk.calls;
      faults = disk.faults;
    } };
}

impl MemDisk {
    /// A disk that holds no file until its first listing, at which the first of these folders comes. Where a folder has
    /// two files of one path the first one counts. Takes no memory.
    pub fn new(alloc: Global, folders: List<Folder>, fail: List<u32>) -> MemDisk
        ensures { result ≡ shelves folders fail }
    {
        MemDisk {
            shelf: Shelf::new(alloc, folders),
            fail,
            calls: 0,
            faults: 0,
        }
    }

    /// How many calls failed. The number stands still at the end of its type.
    pub fn faults(&self) -> u64
        ensures { result ≡ self.now.faults }
    {
        self.faults
    }

    // One call more; whether it fails.
    fn fails(&mut self) -> bool
        ensures failed { IsTrue result ↔ Contains self.old.fail (call_after self.old.calls) }
        ensures course { self.new.course ≡ self.old.course }
        ensures fail { self.new.fail ≡ self.old.fail }
        ensures calls { self.new.calls ≡ call_after self.old.calls }
        ensures later { self.old.faults ≤ self.new.faults }
        ensures rose { IsTrue result → Rose self.old.faults self.new.faults }
        ensures fine { IsFalse result → NoFault self.old.faults self.new.faults }
    {
        self.calls = self.calls.saturating_add(1);
        let fails = is_listed(&self.fail, self.calls);
        if fails {
            self.faults = self.faults.saturating_add(1);
        }
        fails
    }
}

impl Disk for MemDisk {
    ghost use Rattle.std.specs.Prelude.{Some};
    ghost use Rattle.sw_io.specs.Causes.{Cause};
    ghost use Rattle.sw_io.specs.Disks.{Lists, Reads, DiskFailsAsListed};

    ghost course = { λ disk dir. Some disk.course };

    ghost faults = { λ disk. disk.faults };

    fn list(&mut self, alloc: Global, dir: &str) -> Result<List<Name>, DiskEnd>
        ensures folder { Lists (λ dir. Some self.old.course) (λ dir. Some self.new.course) dir.now result }
        ensures cause { Cause DiskEnd.Failed self.old.faults self.new.faults result }
        ensures calls { DiskFailsAsListed self.old self.new result }
    {
        let _ = dir;
        if self.fails() {
            return Err(DiskEnd::Failed);
        }
        match self.shelf.list(alloc) {
            Ok(paths) => Ok(paths),
            Err(_) => Err(DiskEnd::Memory),
        }
    }

    fn read(&mut self, alloc: Global, dir: &str, path: &str) -> Result<Option<List<u8>>, DiskEnd>
        ensures folder { Reads (λ dir. Some self.old.course) (λ dir. Some self.new.course) dir.now path.now result }
        ensures cause { Cause DiskEnd.Failed self.old.faults self.new.faults result }
        ensures calls { DiskFailsAsListed self.old self.new result }
    {
        let _ = dir;
        if self.fails() {
            return Err(DiskEnd::Failed);
        }
        match self.shelf.read(alloc, path) {
            Ok(bytes) => Ok(bytes),
            Err(_) => Err(DiskEnd::Memory),
        }
    }
}
