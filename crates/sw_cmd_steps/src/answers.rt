// A start or a step is carried out: its reply is made, and sent.
ghost use Rattle.std.specs.Prelude.{◌≡◌, ◌++◌, List, ℕ, [], IfErr, OnOk};
ghost use Rattle.std.specs.Io.KnownBytes.{Appends};
ghost use Rattle.sw_io.specs.Causes.{Cause};
ghost use Rattle.sw_modules.specs.Settings.{hostless};
ghost use Rattle.sw_wire.specs.StepReplies.{started_text};
ghost use Rattle.sw_cmd_protocol.specs.Sending.{SendEnds};
ghost use Rattle.sw_cmd_protocol.specs.Turns.{standing, Says, SayStops};
ghost use Rattle.sw_cmd_steps.specs.Script.{Start, Step};
ghost use Rattle.sw_cmd_steps.specs.Transcript.{steps, stepped_text};

use crate::stepping::Stepping;
use std::alloc::Global;
use sw_cmd_protocol::{Stop, answer};
use sw_io::Sink;
use sw_modules::Reader;
use sw_step::{StartFault, StepFault};
use sw_step_bodies::Stepped;
use sw_text::{List, Memory, Name};
use sw_wire::{
    memory_reply, no_compile_reply, write_finished, write_loading, write_started, write_steps,
};
use sw_world::Engine;

impl<'r, R: Reader, E: Engine> Stepping<'r, R, E> {
    /// Starts a compile, and sends its number. A start that finds no memory is refused; where no memory is found for
    /// the reply's text, the answers end.
    pub(crate) fn start<K: Sink>(
        &mut self,
        entry: &Name,
        paths: &List<Name>,
        sink: &mut K,
    ) -> Result<(), Stop>
        ensures ok { OnOk result ((ran : List (List ℕ)) → Says (steps (hostless R.reads E.body))
            (Start entry.now paths.now) [] (standing self.old.steps ran) (standing self.new.steps ran)
            (K.written sink.old) (K.written sink.new)) }
        ensures err { IfErr result (λ stop. (ran : List (List ℕ)) → SayStops (steps (hostless R.reads E.body)) stop
            (Start entry.now paths.now) (standing self.old.steps ran) (standing self.new.steps ran)
            (K.written sink.old) (K.written sink.new)) }
        ensures cause { Cause Stop.SinkFailed (K.faults sink.old) (K.faults sink.new) result }
    {
        match self.steps.start(entry, paths.as_slice()) {
            Ok(number) => send_started(self.alloc, number, sink),
            // there are more numbers than requests that are answered
            Err(StartFault::NoNumber | StartFault::Memory) => answer(sink, memory_reply()),
        }
    }

    /// Has a compile go on by a step, and sends how far it came. A step that finds no memory is refused; where no
    /// memory is found for the reply's text, the answers end.
    pub(crate) fn step<K: Sink>(
        &mut self,
        number: u32,
        sink: &mut K,
        engine: &mut E,
    ) -> Result<(), Stop>
        ensures ok { OnOk result (Says (steps (hostless R.reads E.body)) (Step number) []
            (standing self.old.steps (E.ran engine.old)) (standing self.new.steps (E.ran engine.new))
            (K.written sink.old) (K.written sink.new)) }
        ensures err { IfErr result (λ stop. SayStops (steps (hostless R.reads E.body)) stop (Step number)
            (standing self.old.steps (E.ran engine.old)) (standing self.new.steps (E.ran engine.new))
            (K.written sink.old) (K.written sink.new)) }
        ensures cause { Cause Stop.SinkFailed (K.faults sink.old) (K.faults sink.new) result }
    {
        match self.steps.step(self.reader, number, engine) {
            Ok(stepped) => send_stepped(self.alloc, &stepped, sink),
            Err(StepFault::NoCompile) => answer(sink, no_compile_reply()),
            Err(StepFault::Memory) => answer(sink, memory_reply()),
        }
    }
}

// Sends the reply to a start. Where no memory is found for its text, nothing is written.
fn send_started<K: Sink>(alloc: Global, number: u32, sink: &mut K) -> Result<(), Stop>
    ensures ok { OnOk result (Appends (K.written sink.old) (K.written sink.new) (started_text number)) }
    ensures err { IfErr result (λ stop. SendEnds stop (started_text number) (K.written sink.old)
        (K.written sink.new)) }
    ensures cause { Cause Stop.SinkFailed (K.faults sink.old) (K.faults sink.new) result }
{
    let mut text = Vec::new(alloc);
    match write_started(alloc, number, &mut text) {
        Ok(()) => answer(sink, &text),
        Err(Memory) => Err(Stop::Memory),
    }
}

// Sends the reply to a step. Where no memory is found for its text, nothing is written.
fn send_stepped<K: Sink>(alloc: Global, stepped: &Stepped, sink: &mut K) -> Result<(), Stop>
    ensures ok { OnOk result (Appends (K.written sink.old) (K.written sink.new) (stepped_text stepped.now)) }
    ensures err { IfErr result (λ stop. SendEnds stop (stepped_text stepped.now) (K.written sink.old)
        (K.written sink.new)) }
    ensures cause { Cause Stop.SinkFailed (K.faults sink.old) (K.faults sink.new) result }
{
    let mut text = Vec::new(alloc);
    match write_stepped(alloc, stepped, &mut text) {
        Ok(()) => answer(sink, &text),
        Err(Memory) => Err(Stop::Memory),
    }
}

fn write_stepped(alloc: Global, stepped: &Stepped, text: &mut Vec<u8>) -> Result<(), Memory>
    ensures { OnOk result (text.new.items ≡ text.old.items ++ stepped_text stepped.now) }
{
    match stepped {
        Stepped::Loading { body, opened } => write_loading(body, opened, text),
        Stepped::Finished { body } => write_finished(body, text),
        Stepped::Ended(reply) => write_steps(
            alloc,
            reply.says.as_slice(),
            reply.times.as_slice(),
            &reply.outcome,
            text,
        ),
    }
}
