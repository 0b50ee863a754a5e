// One compile of a disk's folder.
ghost use Rattle.std.specs.Prelude.{◌≡◌, ◌≢◌};
ghost use Rattle.sw_io.specs.Causes.{NoFault, Rose};
ghost use Rattle.sw_cmd_line.specs.Forms.{target_seen};
ghost use Rattle.sw_modules.specs.Settings.{hostless};
ghost use Rattle.sw_cmd_disk_compile.specs.Once.{surroundings, EndsBy, HearsBy, WritesBy};

use crate::{Ending, Watched};
use std::alloc::Global;
use sw_cmd_disk_folder::read_folder;
use sw_cmd_line::Target;
use sw_cmd_protocol::{Audience, Output, send};
use sw_io::{Disk, DiskEnd, Sink};
use sw_modules::Reader;
use sw_record::{Outcome, Reply};
use sw_text::Memory;
use sw_wire::fault_line;
use sw_world::Engine;

/// Reads the folder, compiles the entry, and writes the CSS bytes alone or the one line `error CODE PATH L:C L:C`;
/// tells how that ended. The sink is flushed, and then the audience is told of the whole reply. Where no memory is
/// found or the disk fails, nothing is written. No call of the sink or the disk
/// fails but the one by whose fault it ends.
pub fn once<R: Reader, K: Sink, D: Disk, E: Engine, T: Audience<Reply>>(
    alloc: Global,
    reader: &R,
    target: &Target<'_>,
    output: &mut Output<K, T>,
    disk: &mut D,
    engine: &mut E,
) -> Ending
    ensures ends { EndsBy result (hostless R.reads E.body) (target_seen target.now) T.hears
        (surroundings (D.course disk.old target.now.dir.now) (K.written output.old.sink) (E.ran engine.old))
        (surroundings (D.course disk.new target.now.dir.now) (K.written output.new.sink) (E.ran engine.new))
        (T.state output.old.audience) (T.state output.new.audience) }
    ensures sink_fault { result ≡ Ending.SinkFailed → Rose (K.faults output.old.sink) (K.faults output.new.sink) }
    ensures disk_fault { result ≡ Ending.DiskFailed → Rose (D.faults disk.old) (D.faults disk.new) }
    ensures no_sink_fault { result ≢ Ending.SinkFailed → NoFault (K.faults output.old.sink) (K.faults output.new.sink) }
    ensures no_disk_fault { result ≢ Ending.DiskFailed → NoFault (D.faults disk.old) (D.faults disk.new) }
{
    let mut watched = Watched::<R, E>::new(alloc);
    match read_folder(alloc, disk, target.dir.as_str(), &mut watched) {
        Err(DiskEnd::Failed) => Ending::DiskFailed,
        Err(DiskEnd::Memory) => Ending::Memory,
        Ok(()) => match watched.compile(reader, target.entry, target.paths, engine) {
            Err(Memory) => Ending::Memory,
            Ok(reply) => {
                let ending = write_outcome(alloc, &reply.outcome, &mut output.sink);
                tell_written(ending, &reply, &mut output.audience);
                ending
            }
        },
    }
}

// What is written of an outcome, and how that ends.
fn write_outcome<K: Sink>(alloc: Global, outcome: &Outcome, sink: &mut K) -> Ending
    ensures ends { WritesBy result outcome.now (K.written sink.old) (K.written sink.new) }
    ensures fault { result ≡ Ending.SinkFailed → Rose (K.faults sink.old) (K.faults sink.new) }
    ensures no_fault { result ≢ Ending.SinkFailed → NoFault (K.faults sink.old) (K.faults sink.new) }
{
    match outcome {
        Outcome::Css(bytes) => match send(sink, bytes.as_slice()) {
            Ok(()) => Ending::Css,
            Err(_) => Ending::SinkFailed,
        },
        Outcome::Error(fault) => match fault_line(alloc, fault) {
            Err(Memory) => Ending::Memory,
            Ok(line) => match send(sink, &line) {
                Ok(()) => Ending::Error,
                Err(_) => Ending::SinkFailed,
            },
        },
    }
}

// What was written whole is told.
fn tell_written<T: Audience<Reply>>(ending: Ending, reply: &Reply, audience: &mut T)
    ensures { HearsBy ending T.hears reply.now (T.state audience.old) (T.state audience.new) }
{
    match ending {
        Ending::Css | Ending::Error => audience.hear(reply),
        Ending::SinkFailed | Ending::Memory | Ending::DiskFailed => {}
    }
}
