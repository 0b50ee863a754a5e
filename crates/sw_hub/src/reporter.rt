// What hears replies.
ghost use Rattle.std.specs.Prelude.{◌≡◌, ℕ, List};
ghost use Rattle.std.specs.declared.option.Option.{Option};
ghost use Rattle.sw_io.specs.Causes.{HasCause};
ghost use Rattle.sw_record.specs.declared.reply.Reply.{Reply};
ghost use Rattle.sw_hub.specs.Hearing.{Hears, Counts};

use sw_io::Failed;
use sw_record::Reply;

/// What hears the replies of compiles.
pub trait Reporter: Drop {
    /// The replies that were heard, in order, where they are told.
    ghost heard: { Self → Option (List Reply) };

    /// How many they are, where it is told.
    ghost number: { Self → Option ℕ };

    /// How often the reporter has failed. The count never falls, and stands still at 2^64 - 1.
    ghost faults: { Self → ℕ };

    /// Hears a reply, behind the others. After `Failed` the replies and their number are as before.
    fn hear(&mut self, reply: &Reply) -> Result<(), Failed>
        ensures replies { Hears (heard self.old) (heard self.new) reply.now result }
        ensures number { Counts (number self.old) (number self.new) result }
        ensures cause { HasCause (faults self.old) (faults self.new) result };

    /// How many replies were heard; `None` where it isn't told. Takes no memory.
    fn count(&self) -> Option<u64>
        ensures { result ≡ number self.now };
}
