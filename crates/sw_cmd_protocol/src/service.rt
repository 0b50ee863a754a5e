// The loop.
ghost use Rattle.std.specs.Prelude.{◌≡◌, ◌≢◌, ◌≤◌, [], ℕ, List, Option, IfOk, IfErr};
ghost use Rattle.sw_io.specs.Causes.{NoFault, Rose, Cause};
ghost use Rattle.sw_cmd_protocol.specs.Script.{next};
ghost use Rattle.sw_cmd_protocol.specs.Turns.{place, standing, Answers, TurnEnds, LastEnds};
ghost use Rattle.sw_cmd_protocol.specs.Served.{surroundings};
ghost use Rattle.sw_cmd_protocol.specs.Heard.{ServedAndHeard, told_of};

use crate::audience::tell_some;
use crate::{Audience, Lines, Output, Protocol, Stop};
use sw_io::{Sink, Source};

/// A protocol, and the lines that it answers.
#[derive(Drop)]
pub struct Service<P> {
    pub lines: Lines,
    pub protocol: P,
}

impl<P> Service<P> {
    /// Answers at most so many requests of the source, until the line `end` or until the answers end otherwise, and
    /// tells how. The audience is told of a reply once its bytes are written and the sink is flushed. No call of
    /// the source, the sink or what is asked beside them fails but the one by whose fault the answers end.
    pub fn answer_all<S: Source, K: Sink, E, O, R: Drop, T: Audience<R>>(
        &mut self,
        most: u32,
        source: &mut S,
        output: &mut Output<K, T>,
        engine: &mut E,
        outside: &mut O,
    ) -> Stop
    where
        P: Protocol<E, O, R>,
        requires { self.old.lines.reader ≡ [] }
        ensures served { ServedAndHeard P.rules T.hears most result
            (surroundings (S.left source.old) (K.written output.old.sink) (P.held self.old.protocol outside.old)
            (P.ran engine.old))
            (surroundings (S.left source.new) (K.written output.new.sink) (P.held self.new.protocol outside.new)
            (P.ran engine.new))
            (T.state output.old.audience) (T.state output.new.audience) }
        ensures source_fault { result ≡ Stop.SourceFailed → Rose (S.faults source.old) (S.faults source.new) }
        ensures sink_fault { result ≡ Stop.SinkFailed → Rose (K.faults output.old.sink) (K.faults output.new.sink) }
        ensures outside_fault { result ≡ Stop.OutsideFailed → Rose (P.faults outside.old) (P.faults outside.new) }
        ensures no_source_fault { result ≢ Stop.SourceFailed → NoFault (S.faults source.old) (S.faults source.new) }
        ensures no_sink_fault { result ≢ Stop.SinkFailed
            → NoFault (K.faults output.old.sink) (K.faults output.new.sink) }
        ensures no_outside_fault { result ≢ Stop.OutsideFailed
            → NoFault (P.faults outside.old) (P.faults outside.new) }
    {
        'requests: for _ in 0..most {
            match self.answer_next(source, &mut output.sink, engine, outside) {
                Err(stop) => return stop,
                Ok(reply) => tell_some(&mut output.audience, &reply),
            }
        }
        self.last::<S, E, O, R>(source)
    }

    /// Reads a line, answers its request, and gives the reply where it is to be told.
    fn answer_next<S: Source, K: Sink, E, O, R>(
        &mut self,
        source: &mut S,
        sink: &mut K,
        engine: &mut E,
        outside: &mut O,
    ) -> Result<Option<R>, Stop>
    where
        P: Protocol<E, O, R>,
        ensures ok { IfOk result (λ reply. Answers (next P.rules.grammar) P.rules (told_of reply)
            (place self.old.lines.reader (S.left source.old) (K.written sink.old))
            (standing (P.held self.old.protocol outside.old) (P.ran engine.old))
            (place self.new.lines.reader (S.left source.new) (K.written sink.new))
            (standing (P.held self.new.protocol outside.new) (P.ran engine.new))) }
        ensures err { IfErr result (λ stop. TurnEnds (next P.rules.grammar) P.rules stop
            (place self.old.lines.reader (S.left source.old) (K.written sink.old))
            (standing (P.held self.old.protocol outside.old) (P.ran engine.old))
            (place self.new.lines.reader (S.left source.new) (K.written sink.new))
            (standing (P.held self.new.protocol outside.new) (P.ran engine.new))) }
        ensures source_cause { Cause Stop.SourceFailed (S.faults source.old) (S.faults source.new) result }
        ensures sink_cause { Cause Stop.SinkFailed (K.faults sink.old) (K.faults sink.new) result }
        ensures outside_cause { Cause Stop.OutsideFailed (P.faults outside.old) (P.faults outside.new) result }
    {
        self.lines.read(source)?;
        self.protocol
            .answer_request(&mut self.lines, source, sink, engine, outside)
    }

    /// Reads a line where no more requests are answered.
    fn last<S: Source, E, O, R>(&mut self, source: &mut S) -> Stop
    where
        P: Protocol<E, O, R>,
        ensures ends { (written : Option (List ℕ))
            → LastEnds P.rules.grammar result (place self.old.lines.reader (S.left source.old) written)
            (place self.new.lines.reader (S.left source.new) written) }
        ensures protocol { self.new.protocol ≡ self.old.protocol }
        ensures later { S.faults source.old ≤ S.faults source.new }
        ensures fault { result ≡ Stop.SourceFailed → Rose (S.faults source.old) (S.faults source.new) }
        ensures no_fault { result ≢ Stop.SourceFailed → NoFault (S.faults source.old) (S.faults source.new) }
    {
        match self.lines.read(source) {
            Err(stop) => Stop::from(stop),
            Ok(()) => self.protocol.last(&self.lines),
        }
    }
}
