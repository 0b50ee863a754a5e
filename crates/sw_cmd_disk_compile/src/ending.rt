// How one compile ends.
ghost use Rattle.std.specs.Prelude.{◌≡◌};
ghost use Rattle.sw_cmd_disk_compile.specs.Once.{status_of};

use sw_cmd_protocol::Stop;

// The line of a fault was written in the place of the CSS.
const FAULT_TOLD: u8 = 1;

/// How one compile of a disk's folder ended.
#[derive(Clone, Copy, Debug, PartialEq, Eq)]
pub enum Ending {
    /// The CSS was written.
    Css,
    /// The line of a fault was written.
    Error,
    /// A write or a flush of the sink failed.
    SinkFailed,
    /// No memory was found.
    Memory,
    /// The disk failed.
    DiskFailed,
}

impl Ending {
    /// The status with which the program ends.
    pub fn status(self) -> u8
        ensures { result ≡ status_of self }
    {
        match self {
            Ending::Css => Stop::Ended.status(),
            Ending::Error => FAULT_TOLD,
            Ending::SinkFailed => Stop::SinkFailed.status(),
            Ending::Memory => Stop::Memory.status(),
            Ending::DiskFailed => Stop::OutsideFailed.status(),
        }
    }
}
