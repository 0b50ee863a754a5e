// A reply on its way to a sink.
ghost use Rattle.std.specs.Prelude.{◌≡◌, ◌≤◌, ◌++◌, List, ℕ, OnOk, OnErr, IfErr};
ghost use Rattle.std.specs.Io.KnownBytes.{Appends};
ghost use Rattle.sw_io.specs.Causes.{HasCause, Cause};
ghost use Rattle.sw_cmd_protocol.specs.Sending.{IsCutShort};

use crate::Stop;
use sw_io::{Failed, Sink};

/// Writes the whole reply and flushes the sink.
pub fn send<K: Sink>(sink: &mut K, reply: &[u8]) -> Result<(), Failed>
    ensures ok { OnOk result (Appends (K.written sink.old) (K.written sink.new) reply.now) }
    ensures err { OnErr result (IsCutShort reply.now (K.written sink.old) (K.written sink.new)) }
    ensures cause { HasCause (K.faults sink.old) (K.faults sink.new) result }
{
    let mut rest = reply;
    while !rest.is_empty() {
        let count = sink.write(rest)?;
        rest = &rest[count..];
    }
    sink.flush()?;
    Ok(())
}

/// The same, and how the answers end where the sink failed.
pub fn answer<K: Sink>(sink: &mut K, reply: &[u8]) -> Result<(), Stop>
    ensures ok { OnOk result (Appends (K.written sink.old) (K.written sink.new) reply.now) }
    ensures err { IfErr result (λ stop. (stop ≡ Stop.SinkFailed)
        × IsCutShort reply.now (K.written sink.old) (K.written sink.new)) }
    ensures cause { Cause Stop.SinkFailed (K.faults sink.old) (K.faults sink.new) result }
{
    match send(sink, reply) {
        Ok(()) => Ok(()),
        Err(Failed) => Err(Stop::SinkFailed),
    }
}
