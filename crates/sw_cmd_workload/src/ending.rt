// How a made workload ends.
ghost use Rattle.std.specs.Prelude.{◌≡◌};
ghost use Rattle.sw_cmd_workload.specs.Ends.{status_of};

use sw_cmd_protocol::Stop;

/// How a made workload ended.
#[derive(Clone, Copy, Debug, PartialEq, Eq)]
pub enum Ending {
    /// The summary was written.
    Summed,
    /// A write or a flush of the sink failed.
    SinkFailed,
    /// No memory was found.
    Memory,
}

impl Ending {
    /// The status with which the program ends.
    pub fn status(self) -> u8
        ensures { result ≡ status_of self }
    {
        match self {
            Ending::Summed => Stop::Ended.status(),
            Ending::SinkFailed => Stop::SinkFailed.status(),
            Ending::Memory => Stop::Memory.status(),
        }
    }
}
