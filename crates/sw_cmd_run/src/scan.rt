// A scan: the folder is read and compiled, and the reply is sent.
ghost use Rattle.std.specs.Prelude.{◌≢◌, Option, IfOk, IfErr};
ghost use Rattle.sw_io.specs.Disks.{Course};
ghost use Rattle.sw_cmd_disk_folder.specs.Held.{IsRead};
ghost use Rattle.sw_io.specs.Causes.{Cause};
ghost use Rattle.sw_cmd_protocol.specs.Heard.{told_of};
ghost use Rattle.sw_cmd_protocol.specs.Turns.{standing, Says, SayStops};
ghost use Rattle.sw_cmd_line.specs.Forms.{target_seen};
ghost use Rattle.sw_cmd_session.specs.Sheets.{hostless};
ghost use Rattle.sw_cmd_run.specs.Poll.{Scan, held, poll};

use std::alloc::Global;
use sw_cmd_disk_compile::Watched;
use sw_cmd_disk_folder::read_folder;
use sw_cmd_line::Target;
use sw_cmd_protocol::{Stop, send};
use sw_cmd_session::{SheetReader, send_reply};
use sw_io::{Disk, DiskEnd, Failed, Sink};
use sw_record::Reply;
use sw_text::Memory;
use sw_wire::memory_reply;
use sw_world::Engine;

/// Reads the folder again, compiles the entry, sends the reply to a compile, and gives it. A compile that finds no
/// memory is refused, and gives none; where none is found for the folder or the reply, or the disk fails, the poll
/// ends.
pub(crate) fn scan<K: Sink, D: Disk, E: Engine>(
    alloc: Global,
    target: &Target<'_>,
    watched: &mut Watched<SheetReader, E>,
    sink: &mut K,
    engine: &mut E,
    disk: &mut D,
) -> Result<Option<Reply>, Stop>
    ensures ok { IfOk result (λ reply. Says (poll (hostless E.body)) Scan (told_of reply)
        (standing (held (target_seen target.now) (D.course disk.old target.now.dir.now) watched.old.kept)
        (E.ran engine.old))
        (standing (held (target_seen target.now) (D.course disk.new target.now.dir.now) watched.new.kept)
        (E.ran engine.new))
        (K.written sink.old) (K.written sink.new)) }
    ensures err { IfErr result (λ stop. SayStops (poll (hostless E.body)) stop Scan
        (standing (held (target_seen target.now) (D.course disk.old target.now.dir.now) watched.old.kept)
        (E.ran engine.old))
        (standing (held (target_seen target.now) (D.course disk.new target.now.dir.now) watched.new.kept)
        (E.ran engine.new))
        (K.written sink.old) (K.written sink.new)) }
    ensures sink_cause { Cause Stop.SinkFailed (K.faults sink.old) (K.faults sink.new) result }
    ensures disk_cause { Cause Stop.OutsideFailed (D.faults disk.old) (D.faults disk.new) result }
{
    watched.clear();
    match read_folder(alloc, disk, target.dir.as_str(), watched) {
        Err(DiskEnd::Failed) => Err(Stop::OutsideFailed),
        Err(DiskEnd::Memory) => Err(Stop::Memory),
        Ok(()) => compile(alloc, target, watched, sink, engine),
    }
}

// The folder that was read is compiled, whatever the disk told of it.
fn compile<K: Sink, E: Engine>(
    alloc: Global,
    target: &Target<'_>,
    watched: &mut Watched<SheetReader, E>,
    sink: &mut K,
    engine: &mut E,
) -> Result<Option<Reply>, Stop>
    ensures ok { IfOk result (λ reply. (before now : Option Course) → IsRead before now watched.old.folder
        → Says (poll (hostless E.body)) Scan (told_of reply)
        (standing (held (target_seen target.now) before watched.old.kept) (E.ran engine.old))
        (standing (held (target_seen target.now) now watched.new.kept) (E.ran engine.new))
        (K.written sink.old) (K.written sink.new)) }
    ensures err { IfErr result (λ stop. (before now : Option Course) → IsRead before now watched.old.folder
        → SayStops (poll (hostless E.body)) stop Scan
        (standing (held (target_seen target.now) before watched.old.kept) (E.ran engine.old))
        (standing (held (target_seen target.now) now watched.new.kept) (E.ran engine.new))
        (K.written sink.old) (K.written sink.new)) }
    ensures cause { Cause Stop.SinkFailed (K.faults sink.old) (K.faults sink.new) result }
    ensures no_disk { IfErr result (λ stop. stop ≢ Stop.OutsideFailed) }
{
    match watched.compile(&SheetReader, target.entry, target.paths, engine) {
        Ok(reply) => send_reply(alloc, reply, sink),
        Err(Memory) => match send(sink, memory_reply()) {
            Ok(()) => Ok(None),
            Err(Failed) => Err(Stop::SinkFailed),
        },
    }
}
