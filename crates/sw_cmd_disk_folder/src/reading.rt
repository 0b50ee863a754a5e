// A disk's folder is read.
ghost use Rattle.std.specs.Prelude.{◌≡◌, ◌≤◌, Some, IfOk, OnOk, OnErr, map};
ghost use Rattle.std.specs.FinMap as files;
ghost use Rattle.sw_io.specs.Causes.{Cause};
ghost use Rattle.sw_io.specs.Disks.{Course};
ghost use Rattle.sw_cmd_disk_folder.specs.Held.{IsRead, IsBrokenOff, with_sheet, held_by, with_one};

use crate::Holder;
use crate::filling::{is_wanted, put_file};
use crate::order::in_order;
use std::alloc::Global;
use sw_io::{Disk, DiskEnd};

const MOST_FILES: usize = 4_096;

/// Reads a folder of a disk to where no file is held yet: lists it, and then reads each sheet at a path of a folder
/// once, in byte order of the paths, until 4,096 files are held. A file that has more than 1,048,576 bytes, is no text
/// in UTF-8 or isn't there any more counts as not there. `Failed` comes exactly where a call of the disk
/// failed, and then no other one did.
pub fn read_folder<D: Disk, F: Holder>(
    alloc: Global,
    disk: &mut D,
    dir: &str,
    holder: &mut F,
) -> Result<(), DiskEnd>
    requires { F.folder holder.old ≡ files.empty }
    ensures ok { OnOk result (IsRead (D.course disk.old dir.now) (D.course disk.new dir.now) (F.folder holder.new)) }
    ensures err { OnErr result (IsBrokenOff (D.course disk.old dir.now) (D.course disk.new dir.now)) }
    ensures rest { F.rest holder.new ≡ F.rest holder.old }
    ensures cause { Cause DiskEnd.Failed (D.faults disk.old) (D.faults disk.new) result }
{
    let names = disk.list(alloc, dir)?;
    match in_order(alloc, names.as_slice()) {
        Ok(paths) => read_files(alloc, disk, dir, &paths, holder),
        Err(_) => Err(DiskEnd::Memory),
    }
}

fn read_files<D: Disk, F: Holder>(
    alloc: Global,
    disk: &mut D,
    dir: &str,
    paths: &[&str],
    holder: &mut F,
) -> Result<(), DiskEnd>
    requires { F.folder holder.old ≡ files.empty }
    ensures ok { OnOk result ((c : Course) → D.course disk.old dir.now ≡ Some c
        → F.folder holder.new ≡ held_by c.files (map (λ path. path.now) paths.now) files.empty) }
    ensures kept { D.course disk.new dir.now ≡ D.course disk.old dir.now }
    ensures rest { F.rest holder.new ≡ F.rest holder.old }
    ensures cause { Cause DiskEnd.Failed (D.faults disk.old) (D.faults disk.new) result }
{
    let mut count: usize = 0;
    'paths: for path in paths {
        if count >= MOST_FILES {
            return Ok(());
        }
        if read_file(alloc, disk, dir, path, holder)? {
            count += 1;
        }
    }
    Ok(())
}

// The file at a path, where it is wanted and counts; tells whether it does.
fn read_file<D: Disk, F: Holder>(
    alloc: Global,
    disk: &mut D,
    dir: &str,
    path: &str,
    holder: &mut F,
) -> Result<bool, DiskEnd>
    ensures ok { OnOk result ((c : Course) → D.course disk.old dir.now ≡ Some c
        → F.folder holder.new ≡ with_sheet c.files path.now (F.folder holder.old)) }
    ensures count { IfOk result (λ more. files.len (F.folder holder.new) ≡ with_one more (files.len (F.folder holder.old))) }
    ensures kept { D.course disk.new dir.now ≡ D.course disk.old dir.now }
    ensures rest { F.rest holder.new ≡ F.rest holder.old }
    ensures cause { Cause DiskEnd.Failed (D.faults disk.old) (D.faults disk.new) result }
{
    if !is_wanted(holder, path) {
        return Ok(false);
    }
    let bytes = disk.read(alloc, dir, path)?;
    match put_file(holder, path, bytes) {
        Ok(more) => Ok(more),
        Err(_) => Err(DiskEnd::Memory),
    }
}
