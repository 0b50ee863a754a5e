// The lines of a poll.
ghost use Rattle.std.specs.Prelude.{◌≡◌};
ghost use Rattle.sw_cmd_run.specs.Poll.{word_of};

/// What a line of a poll asks for.
#[derive(Clone, Copy, Debug, PartialEq, Eq)]
pub enum Word {
    /// The folder is to be read and compiled.
    Scan,
    /// No more lines are answered.
    End,
    /// Neither.
    Other,
}

/// What this line asks for.
pub(crate) fn word_of(line: &[u8]) -> Word
    ensures { result ≡ word_of line.now }
{
    if line == b"scan".as_slice() {
        Word::Scan
    } else if line == b"end".as_slice() {
        Word::End
    } else {
        Word::Other
    }
}
