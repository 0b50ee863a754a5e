// The words of the command line.
ghost use Rattle.std.specs.Prelude.{◌≡◌, ◌≢◌};
ghost use Rattle.std.specs.IoError.{error_kind};
ghost use Rattle.std.specs.declared.io.ErrorKind.TheVariants.{OutOfMemory};
ghost use Rattle.sw_cmd_protocol.specs.Statuses.{no_memory, no_command};

use std::rt::Env;
use std::{env, io};
use sw_cmd_protocol::Stop;
use sw_cmd_run::NO_COMMAND;
use sw_text::{List, Memory, Name};

/// Why the words can't be had.
#[derive(Clone, Copy, Debug, PartialEq, Eq)]
pub enum WordFault {
    /// A word isn't UTF-8.
    NotText,
    Memory,
}

impl WordFault {
    /// The status with which the program ends.
    pub fn status(self) -> u8
        ensures not_text { self ≡ WordFault.NotText → result ≡ no_command }
        ensures memory { self ≡ WordFault.Memory → result ≡ no_memory }
    {
        match self {
            WordFault::NotText => NO_COMMAND,
            WordFault::Memory => Stop::Memory.status(),
        }
    }
}

impl From<io::Error> for WordFault {
    fn from(error: io::Error) -> Self
        ensures memory { error_kind error ≡ OutOfMemory → result ≡ WordFault.Memory }
        ensures not_text { error_kind error ≢ OutOfMemory → result ≡ WordFault.NotText }
    {
        match error.kind() {
            io::ErrorKind::OutOfMemory => WordFault::Memory,
            _ => WordFault::NotText,
        }
    }
}

impl From<Memory> for WordFault {
    fn from(_: Memory) -> Self
        ensures { result ≡ WordFault.Memory }
    {
        WordFault::Memory
    }
}

/// The words behind the program's name.
pub fn words(rt: &(impl Env + AllocGlobal)) -> Result<List<Name>, WordFault> {
    let mut words = List::new(rt.alloc());
    for word in env::args(rt)?.skip(1) {
        words.push(Name::new(rt.alloc(), word.as_str())?)?;
    }
    Ok(words)
}
