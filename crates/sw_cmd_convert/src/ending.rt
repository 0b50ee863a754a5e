// How a conversion ends.
ghost use Rattle.std.specs.Prelude.{◌≡◌};
ghost use Rattle.sw_cmd_convert.specs.Ends.{status_of};

use sw_cmd_protocol::Stop;

// The line of a fault was written in the place of the text.
const FAULT_TOLD: u8 = 1;

/// How the conversion of a sheet ended.
#[derive(Clone, Copy, Debug, PartialEq, Eq)]
pub enum Ending {
    /// The sheet was written in the other syntax.
    Converted,
    /// The line of what keeps it from being written was written.
    Refused,
    /// The input is too long, or no text.
    NoText,
    /// A read of the source failed.
    SourceFailed,
    /// A write or a flush of the sink failed.
    SinkFailed,
    /// No memory was found.
    Memory,
}

impl Ending {
    /// The status with which the program ends.
    pub fn status(self) -> u8
        ensures { result ≡ status_of self }
    {
        match self {
            Ending::Converted => Stop::Ended.status(),
            Ending::Refused => FAULT_TOLD,
            Ending::NoText => Stop::Wrong.status(),
            Ending::SourceFailed => Stop::SourceFailed.status(),
            Ending::SinkFailed => Stop::SinkFailed.status(),
            Ending::Memory => Stop::Memory.status(),
        }
    }
}
