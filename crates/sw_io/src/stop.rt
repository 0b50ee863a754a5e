// Why a read of a line or a run stops short.
ghost use Rattle.std.specs.Prelude.{◌≡◌};
ghost use Rattle.sw_io.specs.declared.stop.ReadStop.TheVariants.{Failed as ReadFailed, Memory};

use crate::Failed;
use std::alloc::{AllocError, AllocFailed};

/// Why a line or a run of bytes isn't there whole.
#[derive(Clone, Copy, Debug, PartialEq, Eq)]
pub enum ReadStop {
    /// 1,025 bytes hold no line feed.
    TooLong,
    /// The source is at its end.
    Ended,
    /// The source failed.
    Failed,
    /// No memory was found.
    Memory,
}

impl From<Failed> for ReadStop {
    ghost from_gives = { λ _ stop. stop ≡ ReadFailed };

    fn from(_: Failed) -> Self {
        ReadStop::Failed
    }
}

impl From<AllocError> for ReadStop {
    ghost from_gives = { λ _ stop. stop ≡ Memory };

    fn from(_: AllocError) -> Self {
        ReadStop::Memory
    }
}

impl<T: Drop> From<AllocFailed<T>> for ReadStop {
    ghost from_gives = { λ _ stop. stop ≡ Memory };

    fn from(_: AllocFailed<T>) -> Self {
        ReadStop::Memory
    }
}
