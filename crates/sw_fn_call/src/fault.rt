// Why a built-in function gives no value.
ghost use Rattle.std.specs.Prelude.{◌≡◌};
ghost use Rattle.sw_fn_call.specs.Answers.{fault_of};
ghost use Rattle.sw_fn_call.specs.declared.fault.FnFault.TheVariants as F;

use sw_fixed::NumberFault;
use sw_text::Memory;

/// Why a built-in function gives no value.
#[derive(Clone, Copy, Debug, PartialEq, Eq)]
pub enum FnFault {
    /// An argument is missing or one too many, or it isn't among the values that the function takes.
    ArgumentFault,
    /// An argument is of a kind that the function doesn't take.
    TypeFault,
    /// The units of two numbers don't fit, or a number would have more than two over the line or under it.
    UnitFault,
    DivideByZero,
    /// The number would be beyond the greatest.
    NumberRange,
    /// An argument can't be written in CSS.
    NotCss,
    /// The value would weigh or nest more than a value may.
    TooLarge,
    /// There is no place of this number.
    Index,
    /// No memory was found.
    Memory,
}

impl From<Memory> for FnFault {
    ghost from_gives = { λ _ fault. fault ≡ F.Memory };

    fn from(_: Memory) -> FnFault {
        FnFault::Memory
    }
}

/// What an operation on numbers was refused for.
pub fn fault_of(fault: NumberFault) -> FnFault
    ensures { result ≡ fault_of fault }
{
    match fault {
        NumberFault::NumberRange => FnFault::NumberRange,
        NumberFault::DivideByZero => FnFault::DivideByZero,
        NumberFault::UnitFault => FnFault::UnitFault,
        NumberFault::Memory => FnFault::Memory,
    }
}
