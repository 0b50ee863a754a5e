// What answers requests.
ghost use Rattle.std.specs.Prelude.{◌≡◌, ◌≤◌, ℕ, List, length, IfOk, IfErr};
ghost use Rattle.sw_cmd_protocol.specs.Protocol as specs;
ghost use Rattle.sw_cmd_protocol.specs.Endings.{LastLine};
ghost use Rattle.sw_cmd_protocol.specs.Heard.{told_of};
ghost use Rattle.sw_io.specs.Causes.{Cause};
ghost use Rattle.sw_cmd_protocol.specs.Turns.{place, standing, Answers, TurnEnds};

use crate::{Lines, Stop};
use sw_io::{Sink, Source};

/// What answers the requests of one command. `E` runs bodies, `O` is what is asked beside the source, as the functions
/// of a host, and `R` are the replies of which an audience is told.
pub trait Protocol<E, O, R> {
    ghost Event: { Type 0 };

    ghost Mark: { Type 0 };

    ghost Held: { Type 0 };

    /// What requests are, and what comes of each; the same for all values of the type.
    ghost rules: { specs.Protocol Event Mark Held R };

    ghost held: { Self → O → Held };

    /// The paths of the bodies that ran to their ends.
    ghost ran: { E → List (List ℕ) };

    /// How often what is asked has failed. The count never falls.
    ghost faults: { O → ℕ };

    /// Answers the request of the line that was read, which may go on behind it, sends the reply, and gives it where an
    /// audience is to be told of it.
    fn answer_request<S: Source, K: Sink>(
        &mut self,
        lines: &mut Lines,
        source: &mut S,
        sink: &mut K,
        engine: &mut E,
        outside: &mut O,
    ) -> Result<Option<R>, Stop>
        requires { length lines.old.reader ≤ 4096 }
        ensures ok { IfOk result (λ reply. Answers (rules.grammar.front lines.old.line.items) rules (told_of reply)
            (place lines.old.reader (S.left source.old) (K.written sink.old))
            (standing (held self.old outside.old) (ran engine.old))
            (place lines.new.reader (S.left source.new) (K.written sink.new))
            (standing (held self.new outside.new) (ran engine.new))) }
        ensures err { IfErr result (λ stop. TurnEnds (rules.grammar.front lines.old.line.items) rules stop
            (place lines.old.reader (S.left source.old) (K.written sink.old))
            (standing (held self.old outside.old) (ran engine.old))
            (place lines.new.reader (S.left source.new) (K.written sink.new))
            (standing (held self.new outside.new) (ran engine.new))) }
        ensures source_cause { Cause Stop.SourceFailed (S.faults source.old) (S.faults source.new) result }
        ensures sink_cause { Cause Stop.SinkFailed (K.faults sink.old) (K.faults sink.new) result }
        ensures outside_cause { Cause Stop.OutsideFailed (faults outside.old) (faults outside.new) result };

    /// How the line that was read ends the answers where no more requests are answered.
    fn last(&self, lines: &Lines) -> Stop
        ensures { LastLine result (rules.grammar.last lines.now.line.items) };
}
