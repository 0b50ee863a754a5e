// Why an evaluation stops.
ghost use Rattle.std.specs.Prelude.{◌≡◌};
ghost use Rattle.sw_eval_questions.specs.Did.{IsReturn, nothing};
ghost use Rattle.sw_eval_questions.specs.Asking.{fault};
ghost use Rattle.sw_eval_questions.specs.Talk.{Fails};
ghost use Rattle.sw_eval_questions.specs.declared.stop.Stop.TheVariants as S;
ghost use Rattle.sw_eval_questions.specs.Refusals.{stop_of, stopped};

use std::alloc::{AllocError, AllocFailed};
use sw_eval_literals::Refused;
use sw_text::{Fault, FaultCode, Memory, Span};

/// Why an evaluation stops.
#[derive(Drop)]
pub enum Stop {
    Memory,
    Fault(Fault),
}

impl From<Memory> for Stop {
    ghost from_gives = { λ _ stop. stop ≡ S.Memory };

    fn from(_: Memory) -> Stop {
        Stop::Memory
    }
}

impl From<AllocError> for Stop {
    ghost from_gives = { λ _ stop. stop ≡ S.Memory };

    fn from(_: AllocError) -> Stop {
        Stop::Memory
    }
}

impl<T: Drop> From<AllocFailed<T>> for Stop {
    ghost from_gives = { λ _ stop. stop ≡ S.Memory };

    fn from(_: AllocFailed<T>) -> Stop {
        Stop::Memory
    }
}

impl From<Refused> for Stop {
    ghost from_gives = { λ refused stop. stop ≡ stop_of refused };

    fn from(refused: Refused) -> Stop {
        match refused {
            Refused::Fault(fault) => Stop::Fault(fault),
            Refused::Memory => Stop::Memory,
        }
    }
}

/// What is refused stops the evaluation.
#[inline(always)]
pub fn stopped<T>(outcome: Result<T, Refused>) -> Result<T, Stop>
    ensures { result ≡ stopped outcome }
{
    match outcome {
        Ok(value) => Ok(value),
        Err(refused) => Err(Stop::from(refused)),
    }
}

/// Ends with a fault at this place.
pub fn fails<T>(code: FaultCode, span: &Span) -> Result<T, Stop>
    ensures { IsReturn result nothing (Fails (fault code span.now)) }
{
    let span = span.share()?;
    Err(Stop::Fault(Fault { code, span }))
}
