// Why selectors aren't read or nested.
ghost use Rattle.std.specs.Prelude.{◌≡◌};
ghost use Rattle.sw_selector.specs.declared.fault.SelectorFault.TheVariants as F;

use std::alloc::AllocError;
use sw_text::Memory;

/// Why selectors aren't read or nested.
#[derive(Clone, Copy, Debug, PartialEq, Eq)]
pub enum SelectorFault {
    /// The text is no list of selectors, or a suffix or a combinator has nothing to go with.
    BadSelector,
    /// `&` stands where there is no parent.
    NoParent,
    /// There would be more than 10,000 complex selectors.
    TooLarge,
    /// No memory was found.
    Memory,
}

impl From<Memory> for SelectorFault {
    ghost from_gives = { λ _ fault. fault ≡ F.Memory };

    fn from(_: Memory) -> SelectorFault {
        SelectorFault::Memory
    }
}

impl From<AllocError> for SelectorFault {
    ghost from_gives = { λ _ fault. fault ≡ F.Memory };

    fn from(_: AllocError) -> SelectorFault {
        SelectorFault::Memory
    }
}
