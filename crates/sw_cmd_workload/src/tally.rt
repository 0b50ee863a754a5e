// What is counted of the replies of a workload.
ghost use Rattle.std.specs.Prelude.{◌≡◌, ◌+◌, length, OnOk, OnErr};
ghost use Rattle.sw_cmd_workload.specs.Made.{css_length};

use sw_record::{Outcome, Reply};
use sw_text::Memory;

/// How many bodies ran, and how many bytes of CSS the last reply had.
#[derive(Clone, Copy, Debug)]
pub struct Tally {
    pub ran: u64,
    pub css: u64,
}

impl Tally {
    /// No reply was counted.
    pub fn new() -> Tally
        ensures ran { result.ran ≡ 0 }
        ensures css { result.css ≡ 0 }
    {
        Tally { ran: 0, css: 0 }
    }

    /// Counts one reply more. Bodies past the end of the number's type, for which there is no memory either, aren't
    /// counted.
    pub fn count(&mut self, reply: &Reply) -> Result<(), Memory>
        ensures ran { OnOk result (self.new.ran ≡ self.old.ran + length reply.now.ran) }
        ensures css { OnOk result (self.new.css ≡ css_length reply.now.outcome) }
    {
        let more = reply.ran.len() as u64;
        match self.ran.checked_add(more) {
            None => Err(Memory),
            Some(ran) => {
                self.ran = ran;
                self.css = css_length(&reply.outcome);
                Ok(())
            }
        }
    }
}

fn css_length(outcome: &Outcome) -> u64
    ensures { result ≡ css_length outcome.now }
{
    match outcome {
        Outcome::Css(bytes) => bytes.len() as u64,
        Outcome::Error(_) => 0,
    }
}
