// What holds the files of folders.
ghost use Rattle.std.specs.Prelude.{ℕ, List};
ghost use Rattle.std.specs.declared.option.Option.{Option};
ghost use Rattle.sw_io.specs.Causes.{Cause};
ghost use Rattle.sw_io.specs.Disks.{Course, Lists, Reads};

use std::alloc::Global;
use sw_text::{List, Name};

/// Why a disk gives no answer: it failed, which its count of faults tells, or there was no memory.
#[derive(Clone, Copy, Debug, PartialEq, Eq)]
pub enum DiskEnd {
    Failed,
    Memory,
}

/// The files of folders, which are named by any text. What a folder holds can change at a listing, and at no other
/// call.
pub trait Disk {
    /// The files that a folder holds and those that it will hold, where they are told.
    ghost course: { Self → List ℕ → Option Course };

    /// How often the disk has failed. The count never falls, and stands still at 2^64 - 1.
    ghost faults: { Self → ℕ };

    /// The paths of the folder's sheets: those that end in `.scss`, `.sass` or `.css`, relative to it, in any order.
    /// The folder's next files come first, where there are any.
    fn list(&mut self, alloc: Global, dir: &str) -> Result<List<Name>, DiskEnd>
        ensures folder { Lists (course self.old) (course self.new) dir.now result }
        ensures cause { Cause DiskEnd.Failed (faults self.old) (faults self.new) result };

    /// The bytes of a file of the folder as it was listed, at most 1,048,577 of them; `None` where it has no such file.
    fn read(&mut self, alloc: Global, dir: &str, path: &str) -> Result<Option<List<u8>>, DiskEnd>
        ensures folder { Reads (course self.old) (course self.new) dir.now path.now result }
        ensures cause { Cause DiskEnd.Failed (faults self.old) (faults self.new) result };
}
