// Why a line isn't read.
ghost use Rattle.std.specs.Prelude.{◌≡◌};

use std::alloc::{AllocError, AllocFailed};
use thiserror::Error;

/// Why no request came of a line.
#[derive(Clone, Copy, Debug, PartialEq, Eq, Error)]
pub enum LineFault {
    #[error("the line is no request")]
    NotARequest,
    #[error("out of memory")]
    Memory,
}

impl From<sw_text::Memory> for LineFault {
    ghost use Rattle.sw_wire.specs.declared.fault.LineFault.TheVariants.{Memory};

    ghost from_gives = { λ _ fault. fault ≡ Memory };

    fn from(_: sw_text::Memory) -> Self {
        LineFault::Memory
    }
}
