// A request is carried out: its reply is made, and sent.
ghost use Rattle.std.specs.Prelude.{◌≡◌, ◌++◌, Some, IfOk, IfErr, OnOk, OnErr};
ghost use Rattle.std.specs.Io.KnownBytes.{Appends};
ghost use Rattle.std.specs.Option.{option_copied};
ghost use Rattle.sw_io.specs.Causes.{HasCause, Cause};
ghost use Rattle.sw_wire.specs.Replies.{css_behind, reply_text};
ghost use Rattle.sw_cmd_protocol.specs.Heard.{told_of};
ghost use Rattle.sw_cmd_protocol.specs.Sending.{IsCutShort, SendEnds};
ghost use Rattle.sw_cmd_protocol.specs.Turns.{standing, Says, SaysSome, SayStops};
ghost use Rattle.sw_cmd_session.specs.Script.{Compile};
ghost use Rattle.sw_cmd_session.specs.Transcript.{holding, session};

use crate::reading::SheetReader;
use crate::session::Session;
use std::alloc::Global;
use sw_cmd_protocol::{Stop, answer, send};
use sw_io::{Failed, Sink};
use sw_modules::HasSetting;
use sw_record::Reply;
use sw_text::{List, Memory, Name};
use sw_wire::{memory_reply, write_front};
use sw_world::{Engine, Hosts};

impl<E: Engine> Session<E> {
    /// Compiles a file, sends the reply, and gives it. A compile that finds no memory is refused, and gives none; where
    /// no memory is found for the reply's text, the session ends.
    pub(crate) fn compile<K: Sink, H: Hosts>(
        &mut self,
        entry: &Name,
        paths: &List<Name>,
        sink: &mut K,
        engine: &mut E,
        hosts: &mut H,
    ) -> Result<Option<Reply>, Stop>
        ensures ok { IfOk result (λ reply. Says (session ⟦<(SheetReader, E, H) as HasSetting>⟧.setting)
            (Compile entry.now paths.now) (told_of reply)
            (standing (holding self.old.keeper (H.state hosts.old)) (E.ran engine.old))
            (standing (holding self.new.keeper (H.state hosts.new)) (E.ran engine.new)) (K.written sink.old)
            (K.written sink.new)) }
        ensures err { IfErr result (λ stop. SayStops (session ⟦<(SheetReader, E, H) as HasSetting>⟧.setting) stop
            (Compile entry.now paths.now)
            (standing (holding self.old.keeper (H.state hosts.old)) (E.ran engine.old))
            (standing (holding self.new.keeper (H.state hosts.new)) (E.ran engine.new)) (K.written sink.old)
            (K.written sink.new)) }
        ensures cause { Cause Stop.SinkFailed (K.faults sink.old) (K.faults sink.new) result }
    {
        let reader = SheetReader;
        match self
            .keeper
            .compile(&reader, entry, paths.as_slice(), engine, hosts)
        {
            Ok(reply) => send_reply(self.alloc, reply, sink),
            Err(Memory) => match answer(sink, memory_reply()) {
                Ok(()) => Ok(None),
                Err(stop) => Err(stop),
            },
        }
    }
}

/// Sends the reply to a compile, and gives it back. Where no memory is found for its text, nothing is written.
pub fn send_reply<K: Sink>(alloc: Global, reply: Reply, sink: &mut K) -> Result<Option<Reply>, Stop>
    ensures back { IfOk result (λ said. said ≡ Some reply) }
    ensures ok { OnOk result (Appends (K.written sink.old) (K.written sink.new) (reply_text reply)) }
    ensures err { IfErr result (λ stop. SendEnds stop (reply_text reply) (K.written sink.old) (K.written sink.new)) }
    ensures cause { Cause Stop.SinkFailed (K.faults sink.old) (K.faults sink.new) result }
{
    let mut text = Vec::new(alloc);
    match write_front(alloc, &reply, &mut text) {
        Err(Memory) => Err(Stop::Memory),
        Ok(css) => match send_front(sink, &text, css) {
            Ok(()) => Ok(Some(reply)),
            Err(Failed) => Err(Stop::SinkFailed),
        },
    }
}

// Sends the front of a reply, and behind it the CSS that isn't in it.
fn send_front<K: Sink>(sink: &mut K, front: &[u8], css: Option<&[u8]>) -> Result<(), Failed>
    ensures ok { OnOk result (Appends (K.written sink.old) (K.written sink.new)
        (front.now ++ css_behind (option_copied css.entry))) }
    ensures err { OnErr result (IsCutShort (front.now ++ css_behind (option_copied css.entry)) (K.written sink.old)
        (K.written sink.new)) }
    ensures cause { HasCause (K.faults sink.old) (K.faults sink.new) result }
{
    send(sink, front)?;
    if let Some(bytes) = css {
        send(sink, bytes)?;
        send(sink, b"\n")?;
    }
    Ok(())
}
