// Why there is no value.
ghost use Rattle.std.specs.Prelude.{◌≡◌};
ghost use Rattle.sw_eval_literals.specs.Answers.{Returns, refused};
ghost use Rattle.sw_eval_literals.specs.declared.refused.Refused.TheVariants as R;

use std::alloc::AllocError;
use sw_text::{Fault, FaultCode, Memory, Span};

/// Why there is no value.
#[derive(Debug, Drop)]
pub enum Refused {
    /// What is wrong with the sheet, and where.
    Fault(Fault),
    /// No memory was found.
    Memory,
}

impl From<Memory> for Refused {
    ghost from_gives = { λ _ refused. refused ≡ R.Memory };

    fn from(_: Memory) -> Refused {
        Refused::Memory
    }
}

impl From<AllocError> for Refused {
    ghost from_gives = { λ _ refused. refused ≡ R.Memory };

    fn from(_: AllocError) -> Refused {
        Refused::Memory
    }
}

/// A fault at this place.
pub fn fails<T>(code: FaultCode, span: &Span) -> Result<T, Refused>
    ensures { Returns result (refused code span.now) }
{
    let span = span.share()?;
    Err(Refused::Fault(Fault { code, span }))
}
