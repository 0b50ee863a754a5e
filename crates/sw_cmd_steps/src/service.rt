// All the answers.
ghost use Rattle.std.specs.Prelude.{◌≡◌, ◌≢◌};
ghost use Rattle.sw_io.specs.Causes.{NoFault, Rose};
ghost use Rattle.sw_modules.specs.Settings.{hostless};
ghost use Rattle.sw_cmd_protocol.specs.Statuses.{source_failed, sink_failed, outside_failed};
ghost use Rattle.sw_cmd_steps.specs.Served.{surroundings, Served, ServedWith};

use crate::stepping::Stepping;
use std::alloc::Global;
use sw_cmd_protocol::{Audience, Lines, Output, Service, Stop};
use sw_io::{Sink, Source};
use sw_modules::Reader;
use sw_record::Reply;
use sw_world::Engine;

const MOST_REQUESTS: u32 = 1_000_000;

/// Answers the requests of the source until the line `end` or until the answers end otherwise, and gives the status, as
/// a session does. Several compiles are under way, each over the folder as it was when it began and without functions
/// of a host, and go on by a step where one is asked for. The sink is flushed after each reply; the audience is told of
/// none. No call of the source or the sink fails but the one by whose fault the answers end.
pub fn serve_steps<R: Reader, S: Source, K: Sink, E: Engine, T: Audience<Reply>>(
    alloc: Global,
    reader: &R,
    source: &mut S,
    output: &mut Output<K, T>,
    engine: &mut E,
) -> u8
    ensures served { ServedWith (hostless R.reads E.body) result
        (surroundings (S.left source.old) (K.written output.old.sink) (E.ran engine.old))
        (surroundings (S.left source.new) (K.written output.new.sink) (E.ran engine.new)) }
    ensures unheard { T.state output.new.audience ≡ T.state output.old.audience }
    ensures source_fault { result ≡ source_failed → Rose (S.faults source.old) (S.faults source.new) }
    ensures sink_fault { result ≡ sink_failed → Rose (K.faults output.old.sink) (K.faults output.new.sink) }
    ensures no_outside_fault { result ≢ outside_failed }
    ensures no_source_fault { result ≢ source_failed → NoFault (S.faults source.old) (S.faults source.new) }
    ensures no_sink_fault { result ≢ sink_failed → NoFault (K.faults output.old.sink) (K.faults output.new.sink) }
{
    serve_steps_within(alloc, MOST_REQUESTS, reader, source, output, engine).status()
}

/// The same with at most so many requests, and tells how the answers ended.
pub fn serve_steps_within<R: Reader, S: Source, K: Sink, E: Engine, T: Audience<Reply>>(
    alloc: Global,
    most: u32,
    reader: &R,
    source: &mut S,
    output: &mut Output<K, T>,
    engine: &mut E,
) -> Stop
    ensures served { Served (hostless R.reads E.body) most result
        (surroundings (S.left source.old) (K.written output.old.sink) (E.ran engine.old))
        (surroundings (S.left source.new) (K.written output.new.sink) (E.ran engine.new)) }
    ensures unheard { T.state output.new.audience ≡ T.state output.old.audience }
    ensures source_fault { result ≡ Stop.SourceFailed → Rose (S.faults source.old) (S.faults source.new) }
    ensures sink_fault { result ≡ Stop.SinkFailed → Rose (K.faults output.old.sink) (K.faults output.new.sink) }
    ensures no_outside_fault { result ≢ Stop.OutsideFailed }
    ensures no_source_fault { result ≢ Stop.SourceFailed → NoFault (S.faults source.old) (S.faults source.new) }
    ensures no_sink_fault { result ≢ Stop.SinkFailed → NoFault (K.faults output.old.sink) (K.faults output.new.sink) }
{
    match Lines::new(alloc) {
        Err(_) => Stop::Memory,
        Ok(lines) => {
            let protocol = Stepping::<R, E>::new(alloc, reader);
            let mut service = Service { lines, protocol };
            service.answer_all(most, source, output, engine, &mut ())
        }
    }
}
