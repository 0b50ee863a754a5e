// Why an operator gives no value.
ghost use Rattle.std.specs.Prelude.{◌≡◌};
ghost use Rattle.sw_ops.specs.Answers.{IsAnswer, fault_of};
ghost use Rattle.sw_ops.specs.declared.fault.OpFault.TheVariants as F;

use sw_fixed::NumberFault;
use sw_text::Memory;

/// Why an operator gives no value.
#[derive(Clone, Copy, Debug, PartialEq, Eq)]
pub enum OpFault {
    /// The sides are of kinds with which the operator does nothing.
    TypeFault,
    /// The units of two numbers don't fit, or a number would have more than two over the line or under it.
    UnitFault,
    DivideByZero,
    /// The number would be beyond the greatest.
    NumberRange,
    /// A side can't be written in CSS.
    NotCss,
    /// The text would weigh more than a value may, or the quotient nest deeper.
    TooLarge,
    /// No memory was found.
    Memory,
}

impl From<Memory> for OpFault {
    ghost from_gives = { λ _ fault. fault ≡ F.Memory };

    fn from(_: Memory) -> OpFault {
        OpFault::Memory
    }
}

pub(crate) fn fault_of(fault: NumberFault) -> OpFault
    ensures { result ≡ fault_of fault }
{
    match fault {
        NumberFault::NumberRange => OpFault::NumberRange,
        NumberFault::DivideByZero => OpFault::DivideByZero,
        NumberFault::UnitFault => OpFault::UnitFault,
        NumberFault::Memory => OpFault::Memory,
    }
}
