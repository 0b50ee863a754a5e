// What an edit is refused for.
ghost use Rattle.std.specs.Prelude.{◌≡◌, ℕ, List, length, IfSome, Some};
ghost use Rattle.sw_folder.specs.Edits.{unread_fault, put_fault};
ghost use Rattle.sw_folder.specs.Files.{Files};

use crate::path::is_path;
use std::alloc::{AllocError, AllocFailed};
use sw_text::Memory;
use thiserror::Error;

/// What a put or a removal is refused for, in the order in which these are looked for, and want of memory.
#[derive(Clone, Copy, Debug, PartialEq, Eq, Error)]
pub enum EditFault {
    #[error("this is no path of a folder")]
    BadPath,
    #[error("the file has more than 1,048,576 bytes")]
    TooLong,
    #[error("the folder holds 4,096 other files")]
    TooManyFiles,
    #[error("the bytes are no text in UTF-8")]
    NotText,
    #[error("there is no such file")]
    NoSuchFile,
    #[error("out of memory")]
    Memory,
}

impl From<AllocError> for EditFault {
    ghost use Rattle.std.specs.Prelude.{◌≡◌};
    ghost use Rattle.sw_folder.specs.declared.edit.EditFault.TheVariants.{Memory};

    ghost from_gives = { λ _ fault. fault ≡ Memory };

    fn from(_: AllocError) -> Self {
        EditFault::Memory
    }
}

impl<T: Drop> From<AllocFailed<T>> for EditFault {
    ghost use Rattle.std.specs.Prelude.{◌≡◌};
    ghost use Rattle.sw_folder.specs.declared.edit.EditFault.TheVariants.{Memory};

    ghost from_gives = { λ _ fault. fault ≡ Memory };

    fn from(_: AllocFailed<T>) -> Self {
        EditFault::Memory
    }
}

impl From<Memory> for EditFault {
    ghost use Rattle.std.specs.Prelude.{◌≡◌};
    ghost use Rattle.sw_folder.specs.declared.edit.EditFault.TheVariants as variant;

    ghost from_gives = { λ _ fault. fault ≡ variant.Memory };

    fn from(_: Memory) -> Self {
        EditFault::Memory
    }
}

const MOST_BYTES: usize = 1_048_576;

/// What a put of so many bytes is refused for whatever the folder holds and the bytes are, so that they need not be
/// kept: the path first, then the length.
pub fn unread_fault(path: &str, count: usize) -> Option<EditFault>
    ensures value { result ≡ unread_fault path.now count }
    ensures decides { (files : Files) (bytes : List ℕ) → length bytes ≡ count
        → IfSome result (λ fault. put_fault files path.now bytes ≡ Some fault) }
{
    if !is_path(path) {
        Some(EditFault::BadPath)
    } else if count > MOST_BYTES {
        Some(EditFault::TooLong)
    } else {
        None
    }
}
