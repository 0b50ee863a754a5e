// A reporter over a sink: with standard error behind it, the edge to who runs the program.
ghost use Rattle.std.specs.Prelude.{OnOk};
ghost use Rattle.std.specs.Io.KnownBytes.{Appends};
ghost use Rattle.sw_wire.specs.Replies.{says_text};

use std::alloc::Global;
use sw_cmd_protocol::send;
use sw_hub::Reporter;
use sw_io::{Failed, Sink};
use sw_record::Reply;
use sw_text::Memory;
use sw_wire::write_says;

/// Writes the messages of each reply as a session's reply has them, and nothing else. It tells no replies. Each reply
/// whose messages aren't written whole, also for want of memory, is a fault.
#[derive(Drop)]
pub struct MessageReporter<K: Sink + Drop> {
    sink: K,
    faults: u64,
    alloc: Global,
}

impl<K: Sink + Drop> MessageReporter<K> {
    /// A reporter that hasn't failed.
    pub fn new(alloc: Global, sink: K) -> Self {
        MessageReporter {
            sink,
            faults: 0,
            alloc,
        }
    }
}

impl<K: Sink + Drop> Reporter for MessageReporter<K> {
    ghost use Rattle.std.specs.Prelude.{None};

    ghost heard = { λ reporter. None };

    ghost number = { λ reporter. None };

    ghost faults = { λ reporter. reporter.faults };

    fn hear(&mut self, reply: &Reply) -> Result<(), Failed> {
        match write_messages(self.alloc, reply, &mut self.sink) {
            Ok(()) => Ok(()),
            Err(Failed) => {
                self.faults = self.faults.saturating_add(1);
                Err(Failed)
            }
        }
    }

    fn count(&self) -> Option<u64> {
        None
    }
}

fn write_messages<K: Sink>(alloc: Global, reply: &Reply, sink: &mut K) -> Result<(), Failed>
    ensures { OnOk result (Appends (K.written sink.old) (K.written sink.new) (says_text reply.now.says)) }
{
    let mut text = Vec::new(alloc);
    match write_says(alloc, reply.says.as_slice(), &mut text) {
        Err(Memory) => Err(Failed),
        Ok(()) => send(sink, &text),
    }
}
