// Why bodies can't be run.
use std::alloc::AllocError;
use std::io;
use sw_text::Memory;

/// Why bodies can't be run; `Memory` exactly where none was found.
#[derive(Debug, Drop)]
pub enum Broken {
    Memory,
    /// A file can't be read, or a line can't be printed.
    Stream,
    /// A text that is too long, or is no sheet.
    Sheet,
    /// A body that stops at more loads than are answered here.
    Loads,
}

impl From<Memory> for Broken {
    fn from(_: Memory) -> Broken {
        Broken::Memory
    }
}

impl From<AllocError> for Broken {
    fn from(_: AllocError) -> Broken {
        Broken::Memory
    }
}

impl From<io::Error> for Broken {
    fn from(_: io::Error) -> Broken {
        Broken::Stream
    }
}
