// Why media queries aren't read or joined.
ghost use Rattle.std.specs.Prelude.{◌≡◌};
ghost use Rattle.sw_media.specs.declared.fault.MediaFault.TheVariants as F;

use std::alloc::AllocError;
use sw_text::Memory;

/// Why media queries aren't read or joined.
#[derive(Clone, Copy, Debug, PartialEq, Eq)]
pub enum MediaFault {
    /// The text is no list of media queries.
    BadQuery,
    /// A query with `not` before its type joins with none.
    MediaJoin,
    /// There would be more than 10,000 queries.
    TooLarge,
    /// No memory was found.
    Memory,
}

impl From<Memory> for MediaFault {
    ghost from_gives = { λ _ fault. fault ≡ F.Memory };

    fn from(_: Memory) -> MediaFault {
        MediaFault::Memory
    }
}

impl From<AllocError> for MediaFault {
    ghost from_gives = { λ _ fault. fault ≡ F.Memory };

    fn from(_: AllocError) -> MediaFault {
        MediaFault::Memory
    }
}
