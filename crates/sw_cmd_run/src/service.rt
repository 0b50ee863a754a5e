// A whole poll.
ghost use Rattle.std.specs.Prelude.{◌≡◌, ◌≢◌};
ghost use Rattle.sw_io.specs.Causes.{NoFault, Rose};
ghost use Rattle.sw_cmd_line.specs.Forms.{target_seen};
ghost use Rattle.sw_cmd_protocol.specs.Statuses.{source_failed, sink_failed, outside_failed};
ghost use Rattle.sw_cmd_session.specs.Sheets.{hostless};
ghost use Rattle.sw_cmd_run.specs.Served.{surroundings, ServedWith, ServedAndHeard};

use crate::poll::Poll;
use std::alloc::Global;
use sw_cmd_disk_compile::Watched;
use sw_cmd_line::Target;
use sw_cmd_protocol::{Audience, Lines, Output, Service, Stop};
use sw_cmd_session::SheetReader;
use sw_io::{Disk, Sink, Source};
use sw_record::Reply;
use sw_world::Engine;

const MOST_REQUESTS: u32 = 1_000_000;

/// Answers the lines `scan` of the source until the line `end`, and gives the status: 0 after that line; 2 at another
/// line; 3 where the input ends before; 4, 5 and 8 where the source, the sink or the disk failed; 6 for want of memory
/// outside a compile; 9 where a scan comes after 1,000,000 that were answered. At each scan the folder is read again
/// and the entry compiled, and the reply is that to a compile in a session. The sink is flushed after each reply, and
/// then the audience is told of it. No call of the source, the sink or the disk fails but the one by whose fault
/// the poll ends.
pub fn poll_folder<S: Source, K: Sink, D: Disk, E: Engine, T: Audience<Reply>>(
    alloc: Global,
    target: &Target<'_>,
    source: &mut S,
    output: &mut Output<K, T>,
    disk: &mut D,
    engine: &mut E,
) -> u8
    ensures served { ServedWith (hostless E.body) (target_seen target.now) T.hears result
        (surroundings (S.left source.old) (K.written output.old.sink) (D.course disk.old target.now.dir.now)
        (E.ran engine.old))
        (surroundings (S.left source.new) (K.written output.new.sink) (D.course disk.new target.now.dir.now)
        (E.ran engine.new))
        (T.state output.old.audience) (T.state output.new.audience) }
    ensures source_fault { result ≡ source_failed → Rose (S.faults source.old) (S.faults source.new) }
    ensures sink_fault { result ≡ sink_failed → Rose (K.faults output.old.sink) (K.faults output.new.sink) }
    ensures disk_fault { result ≡ outside_failed → Rose (D.faults disk.old) (D.faults disk.new) }
    ensures no_source_fault { result ≢ source_failed → NoFault (S.faults source.old) (S.faults source.new) }
    ensures no_sink_fault { result ≢ sink_failed → NoFault (K.faults output.old.sink) (K.faults output.new.sink) }
    ensures no_disk_fault { result ≢ outside_failed → NoFault (D.faults disk.old) (D.faults disk.new) }
{
    polled(alloc, target, source, output, disk, engine).status()
}

// The same, and tells how the poll ended.
fn polled<S: Source, K: Sink, D: Disk, E: Engine, T: Audience<Reply>>(
    alloc: Global,
    target: &Target<'_>,
    source: &mut S,
    output: &mut Output<K, T>,
    disk: &mut D,
    engine: &mut E,
) -> Stop
    ensures served { ServedAndHeard (hostless E.body) (target_seen target.now) T.hears 1000000 result
        (surroundings (S.left source.old) (K.written output.old.sink) (D.course disk.old target.now.dir.now)
        (E.ran engine.old))
        (surroundings (S.left source.new) (K.written output.new.sink) (D.course disk.new target.now.dir.now)
        (E.ran engine.new))
        (T.state output.old.audience) (T.state output.new.audience) }
    ensures source_fault { result ≡ Stop.SourceFailed → Rose (S.faults source.old) (S.faults source.new) }
    ensures sink_fault { result ≡ Stop.SinkFailed → Rose (K.faults output.old.sink) (K.faults output.new.sink) }
    ensures disk_fault { result ≡ Stop.OutsideFailed → Rose (D.faults disk.old) (D.faults disk.new) }
    ensures no_source_fault { result ≢ Stop.SourceFailed → NoFault (S.faults source.old) (S.faults source.new) }
    ensures no_sink_fault { result ≢ Stop.SinkFailed → NoFault (K.faults output.old.sink) (K.faults output.new.sink) }
    ensures no_disk_fault { result ≢ Stop.OutsideFailed → NoFault (D.faults disk.old) (D.faults disk.new) }
{
    match Lines::new(alloc) {
        Err(_) => Stop::Memory,
        Ok(lines) => {
            let watched = Watched::<SheetReader, E>::new(alloc);
            let protocol = Poll {
                target: *target,
                watched,
                alloc,
            };
            let mut service = Service { lines, protocol };
            service.answer_all(MOST_REQUESTS, source, output, engine, disk)
        }
    }
}
