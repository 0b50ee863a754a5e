// A made workload as a whole.
ghost use Rattle.std.specs.Prelude.{◌≡◌, ◌≢◌, ◌+◌, IfOk, OnErr};
ghost use Rattle.sw_io.specs.Causes.{NoFault, Rose};
ghost use Rattle.sw_cmd_workload.specs.Texts.{parts_of, summary};
ghost use Rattle.sw_modules.specs.Settings.{hostless};
ghost use Rattle.sw_cmd_workload.specs.Ends.{standing, Counts, BreaksOff, EndsBy, WritesBy};

use crate::workload::{compile, edit, folder_made};
use crate::{Ending, Tally, parts_of, summary};
use std::alloc::Global;
use sw_cmd_protocol::{Audience, Output, send};
use sw_io::Sink;
use sw_modules::Reader;
use sw_record::Reply;
use sw_text::Memory;
use sw_world::Engine;

/// Makes the folder of this number, compiles it, and fifty times makes one part anew and compiles again; then writes
/// how many modules and compiles there were, how many bodies ran, and how long the last CSS was. The audience is told
/// of each reply as it is formed. Where no memory is found nothing is written.
pub fn make<R: Reader, K: Sink, E: Engine, T: Audience<Reply>>(
    alloc: Global,
    reader: &R,
    number: u32,
    output: &mut Output<K, T>,
    engine: &mut E,
) -> Ending
    ensures ends { EndsBy result (hostless R.reads E.body) number T.hears
        (standing (E.ran engine.old) (T.state output.old.audience))
        (standing (E.ran engine.new) (T.state output.new.audience)) (K.written output.old.sink)
        (K.written output.new.sink) }
    ensures sink_fault { result ≡ Ending.SinkFailed → Rose (K.faults output.old.sink) (K.faults output.new.sink) }
    ensures no_sink_fault { result ≢ Ending.SinkFailed → NoFault (K.faults output.old.sink) (K.faults output.new.sink) }
{
    match all_compiles(alloc, reader, number, &mut output.audience, engine) {
        Err(Memory) => Ending::Memory,
        Ok(tally) => write_summary(alloc, number, tally, &mut output.sink),
    }
}

// The compiles, each of whose replies is told.
fn all_compiles<R: Reader, E: Engine, T: Audience<Reply>>(
    alloc: Global,
    reader: &R,
    number: u32,
    audience: &mut T,
    engine: &mut E,
) -> Result<Tally, Memory>
    ensures ok { IfOk result (λ tally. Counts (hostless R.reads E.body) number 51 T.hears tally
        (standing (E.ran engine.old) (T.state audience.old)) (standing (E.ran engine.new) (T.state audience.new))) }
    ensures err { OnErr result (BreaksOff (hostless R.reads E.body) number T.hears
        (standing (E.ran engine.old) (T.state audience.old)) (standing (E.ran engine.new) (T.state audience.new))) }
{
    let mut keeper = folder_made::<R, E>(alloc, number)?;
    let mut tally = Tally::new();
    'turns: for turn in 0..51 {
        edit(alloc, number, turn, &mut keeper)?;
        let reply = compile(alloc, reader, &mut keeper, engine)?;
        audience.hear(&reply);
        tally.count(&reply)?;
    }
    Ok(tally)
}

fn write_summary<K: Sink>(alloc: Global, number: u32, tally: Tally, sink: &mut K) -> Ending
    ensures ends { WritesBy result (summary (parts_of number + 2) tally.ran tally.css) (K.written sink.old)
        (K.written sink.new) }
    ensures sink_fault { result ≡ Ending.SinkFailed → Rose (K.faults sink.old) (K.faults sink.new) }
    ensures no_sink_fault { result ≢ Ending.SinkFailed → NoFault (K.faults sink.old) (K.faults sink.new) }
{
    match summary(alloc, parts_of(number) + 2, tally.ran, tally.css) {
        Err(_) => Ending::Memory,
        Ok(text) => match send(sink, text.as_str().as_bytes()) {
            Ok(()) => Ending::Summed,
            Err(_) => Ending::SinkFailed,
        },
    }
}
