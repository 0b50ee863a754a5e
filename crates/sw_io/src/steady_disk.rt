// A disk in memory that never fails: its count of faults is always 0.
ghost use Rattle.std.specs.Prelude.{◌≡◌};
ghost use Rattle.sw_io.specs.Disks.{course};

use crate::disk::{Disk, DiskEnd};
use crate::shelf::{Folder, Shelf};
use std::alloc::Global;
use std::marker::Model;
use sw_text::{List, Name};

/// Holds the same files under every name, which change at each listing as long as a next folder comes.
#[derive(Drop)]
pub struct SteadyDisk {
    shelf: Shelf,
}

impl Model for SteadyDisk {
    ghost use Rattle.sw_io.specs.Disks.{Course};

    ghost Value = { Course };

    ghost view = { λ disk. disk.shelf };
}

impl SteadyDisk {
    /// A disk that holds no file until its first listing, at which the first of these folders comes. Where a folder has
    /// two files of one path the first one counts. Takes no memory.
    pub fn new(alloc: Global, folders: List<Folder>) -> SteadyDisk
        ensures { result ≡ course folders }
    {
        SteadyDisk {
            shelf: Shelf::new(alloc, folders),
        }
    }
}

impl Disk for SteadyDisk {
    ghost use Rattle.std.specs.Prelude.{Some};

    ghost course = { λ disk dir. Some disk };

    ghost faults = { λ disk. 0 };

    fn list(&mut self, alloc: Global, dir: &str) -> Result<List<Name>, DiskEnd> {
        let _ = dir;
        match self.shelf.list(alloc) {
            Ok(paths) => Ok(paths),
            Err(_) => Err(DiskEnd::Memory),
        }
    }

    fn read(&mut self, alloc: Global, dir: &str, path: &str) -> Result<Option<List<u8>>, DiskEnd> {
        let _ = dir;
        match self.shelf.read(alloc, path) {
            Ok(bytes) => Ok(bytes),
            Err(_) => Err(DiskEnd::Memory),
        }
    }
}
