// The bytes of a name, in one piece of memory where they are few.
ghost use Rattle.std.specs.Prelude.{◌≡◌, IfOk};
ghost use Rattle.sw_text.specs.Names.{letters_of};

use crate::Memory;
use arrayvec::ArrayString;
use std::alloc::Global;

/// The most bytes that lie beside the count of owners: with both, it is a piece of 64 bytes of most allocators.
const MOST_NEAR: usize = 24;

/// A text: near, in the place of its owner, or far, in a piece of memory of its own.
#[derive(Debug, Drop)]
pub enum Letters {
    Near(ArrayString<MOST_NEAR>),
    Far(String),
}

impl Letters {
    pub(crate) fn new(alloc: Global, text: &str) -> Result<Letters, Memory>
        ensures { IfOk result (λ letters. letters_of letters ≡ text.now) }
    {
        match ArrayString::from(text) {
            Ok(near) => Ok(Letters::Near(near)),
            Err(_) => Ok(Letters::Far(String::from_str(alloc, text)?)),
        }
    }

    #[inline(always)]
    pub(crate) fn as_str(&self) -> &str
        ensures { result.now ≡ letters_of self.now }
    {
        match self {
            Letters::Near(near) => near.as_str(),
            Letters::Far(far) => far.as_str(),
        }
    }
}
