// Why the arguments of a call aren't bound.
ghost use Rattle.std.specs.Prelude.{◌≡◌};
ghost use Rattle.sw_scope.specs.declared.fault.BindFault.TheVariants as F;

use sw_text::Memory;

/// Why the arguments of a call aren't bound.
#[derive(Clone, Copy, Debug, PartialEq, Eq)]
pub enum BindFault {
    /// There are too many, one is missing, unknown or doubled, or one stands where none may stand.
    ArgumentFault,
    /// The argument list of the rest would weigh or nest more than a value may.
    TooLarge,
    /// No memory was found.
    Memory,
}

impl From<Memory> for BindFault {
    ghost from_gives = { λ _ fault. fault ≡ F.Memory };

    fn from(_: Memory) -> BindFault {
        BindFault::Memory
    }
}
