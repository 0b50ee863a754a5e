// A whole session.
ghost use Rattle.std.specs.Prelude.{◌≡◌, ◌≢◌};
ghost use Rattle.sw_io.specs.Causes.{NoFault, Rose};
ghost use Rattle.sw_cmd_protocol.specs.Statuses.{source_failed, sink_failed};
ghost use Rattle.sw_cmd_session.specs.Served.{surroundings, ServedAndHeard, ServedWith};

use crate::reading::SheetReader;
use crate::session::Session;
use std::alloc::Global;
use sw_cmd_protocol::{Audience, Lines, Output, Service, Stop};
use sw_io::{Sink, Source};
use sw_modules::HasSetting;
use sw_record::Reply;
use sw_world::{Engine, Hosts};

const MOST_REQUESTS: u32 = 1_000_000;

/// Answers the requests of the source until the session ends, and gives the status: 0 after the line `end`; 2 at what
/// is no request; 3 where the input ends before; 4 and 5 where the source or the sink failed; 6 for want of memory
/// outside a compile; 9 where a request comes after 1,000,000 that were answered. Compiles go over the folder with this
/// engine and these functions of a host. The sink is flushed after each reply, and then the audience is told of it
/// where it is that of a compile. No call of the source or the sink fails but the one by whose fault the session ends.
pub fn serve<S: Source, K: Sink, E: Engine, H: Hosts, T: Audience<Reply>>(
    alloc: Global,
    source: &mut S,
    output: &mut Output<K, T>,
    engine: &mut E,
    hosts: &mut H,
) -> u8
    ensures served { ServedWith ⟦<(SheetReader, E, H) as HasSetting>⟧.setting T.hears result
        (surroundings (S.left source.old) (K.written output.old.sink) (E.ran engine.old) (H.state hosts.old))
        (surroundings (S.left source.new) (K.written output.new.sink) (E.ran engine.new) (H.state hosts.new))
        (T.state output.old.audience) (T.state output.new.audience) }
    ensures source_fault { result ≡ source_failed → Rose (S.faults source.old) (S.faults source.new) }
    ensures sink_fault { result ≡ sink_failed → Rose (K.faults output.old.sink) (K.faults output.new.sink) }
    ensures no_source_fault { result ≢ source_failed → NoFault (S.faults source.old) (S.faults source.new) }
    ensures no_sink_fault { result ≢ sink_failed → NoFault (K.faults output.old.sink) (K.faults output.new.sink) }
{
    serve_within(alloc, MOST_REQUESTS, source, output, engine, hosts).status()
}

/// The same with at most so many requests, and tells how the session ended.
pub fn serve_within<S: Source, K: Sink, E: Engine, H: Hosts, T: Audience<Reply>>(
    alloc: Global,
    most: u32,
    source: &mut S,
    output: &mut Output<K, T>,
    engine: &mut E,
    hosts: &mut H,
) -> Stop
    ensures served { ServedAndHeard ⟦<(SheetReader, E, H) as HasSetting>⟧.setting T.hears most result
        (surroundings (S.left source.old) (K.written output.old.sink) (E.ran engine.old) (H.state hosts.old))
        (surroundings (S.left source.new) (K.written output.new.sink) (E.ran engine.new) (H.state hosts.new))
        (T.state output.old.audience) (T.state output.new.audience) }
    ensures source_fault { result ≡ Stop.SourceFailed → Rose (S.faults source.old) (S.faults source.new) }
    ensures sink_fault { result ≡ Stop.SinkFailed → Rose (K.faults output.old.sink) (K.faults output.new.sink) }
    ensures no_source_fault { result ≢ Stop.SourceFailed → NoFault (S.faults source.old) (S.faults source.new) }
    ensures no_sink_fault { result ≢ Stop.SinkFailed → NoFault (K.faults output.old.sink) (K.faults output.new.sink) }
{
    match Lines::new(alloc) {
        Err(_) => Stop::Memory,
        Ok(lines) => {
            let protocol = Session::<E>::new(alloc);
            let mut service = Service { lines, protocol };
            service.answer_all(most, source, output, engine, hosts)
        }
    }
}
