// Why requests are answered no more.
ghost use Rattle.std.specs.Prelude.{◌≡◌};
ghost use Rattle.sw_cmd_protocol.specs.Endings.{status_of, stop_of};

use sw_io::ReadStop;

/// Why requests are answered no more.
#[derive(Clone, Copy, Debug, PartialEq, Eq)]
pub enum Stop {
    /// The line `end` was read.
    Ended,
    /// The next line is no request, or what has to stand behind it doesn't.
    Wrong,
    /// The input ended before the line `end`.
    CutOff,
    /// A read of the source failed.
    SourceFailed,
    /// A write or a flush of the sink failed.
    SinkFailed,
    /// No memory was found outside a compile.
    Memory,
    /// What is asked beside the source failed, as a disk does.
    OutsideFailed,
    /// All requests that there may be were answered, and another one came.
    Over,
}

impl Stop {
    /// The status with which the program ends.
    pub fn status(self) -> u8
        ensures { result ≡ status_of self }
    {
        match self {
            Stop::Ended => 0,
            Stop::Wrong => 2,
            Stop::CutOff => 3,
            Stop::SourceFailed => 4,
            Stop::SinkFailed => 5,
            Stop::Memory => 6,
            Stop::OutsideFailed => 8,
            Stop::Over => 9,
        }
    }
}

impl From<ReadStop> for Stop {
    ghost from_gives = { λ stop result. result ≡ stop_of stop };

    fn from(stop: ReadStop) -> Self {
        match stop {
            ReadStop::TooLong => Stop::Wrong,
            ReadStop::Ended => Stop::CutOff,
            ReadStop::Failed => Stop::SourceFailed,
            ReadStop::Memory => Stop::Memory,
        }
    }
}
