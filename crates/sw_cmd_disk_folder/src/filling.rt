// The files of a disk's folder are put, one after the other.
ghost use Rattle.std.specs.Prelude.{◌≡◌, Some, IfOk, OnOk, false};
ghost use Rattle.std.specs.FinMap.{contains_key, len};
ghost use Rattle.sw_cmd_disk_folder.specs.Held.{with_file, is_wanted, with_one};

use crate::Holder;
use sw_folder::{EditFault, is_path};
use sw_text::{List, Memory};

/// Whether the file at this path is still to be read.
pub fn is_wanted<F: Holder>(holder: &F, path: &str) -> bool
    ensures { result ≡ is_wanted (F.folder holder.now) path.now }
{
    is_path(path) && !holder.holds(path)
}

/// Puts the file that was read at a path, where it counts, and tells whether it does.
pub fn put_file<F: Holder>(
    holder: &mut F,
    path: &str,
    bytes: Option<List<u8>>,
) -> Result<bool, Memory>
    requires { contains_key (F.folder holder.old) path.now ≡ false }
    ensures folder { OnOk result (F.folder holder.new ≡ with_file (F.folder holder.old) path.now bytes) }
    ensures count { IfOk result (λ more. len (F.folder holder.new) ≡ with_one more (len (F.folder holder.old))) }
    ensures rest { F.rest holder.new ≡ F.rest holder.old }
{
    match bytes {
        None => Ok(false),
        Some(bytes) => put_bytes(holder, path, bytes.as_slice()),
    }
}

fn put_bytes<F: Holder>(holder: &mut F, path: &str, bytes: &[u8]) -> Result<bool, Memory>
    requires { contains_key (F.folder holder.old) path.now ≡ false }
    ensures folder { OnOk result (F.folder holder.new ≡ with_file (F.folder holder.old) path.now (Some bytes.now)) }
    ensures count { IfOk result (λ more. len (F.folder holder.new) ≡ with_one more (len (F.folder holder.old))) }
    ensures rest { F.rest holder.new ≡ F.rest holder.old }
{
    match holder.put(path, bytes) {
        Ok(()) => Ok(true),
        Err(EditFault::Memory) => Err(Memory),
        Err(
            EditFault::BadPath
            | EditFault::TooLong
            | EditFault::TooManyFiles
            | EditFault::NotText
            | EditFault::NoSuchFile,
        ) => Ok(false),
    }
}
