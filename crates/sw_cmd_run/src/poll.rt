// What a poll does at each line.
ghost use Rattle.std.specs.Prelude.{◌≤◌, length, IfOk, IfErr};
ghost use Rattle.sw_io.specs.Causes.{Cause};
ghost use Rattle.sw_cmd_protocol.specs.Heard.{told_of};
ghost use Rattle.sw_cmd_protocol.specs.Turns.{place, standing, Answers, TurnEnds};
ghost use Rattle.sw_cmd_line.specs.Forms.{target_seen};
ghost use Rattle.sw_cmd_session.specs.Sheets.{hostless};
ghost use Rattle.sw_cmd_run.specs.Poll.{held, grammar, poll as protocol};

use crate::scan::scan;
use crate::word::{Word, word_of};
use std::alloc::Global;
use sw_cmd_disk_compile::Watched;
use sw_cmd_line::Target;
use sw_cmd_protocol::{Lines, Protocol, Stop};
use sw_cmd_session::SheetReader;
use sw_io::{Disk, Sink, Source};
use sw_record::Reply;
use sw_world::Engine;

/// A disk's folder with its kept runs, which is read and compiled again and again.
#[derive(Drop)]
pub(crate) struct Poll<'t, E: Engine> {
    pub(crate) target: Target<'t>,
    pub(crate) watched: Watched<SheetReader, E>,
    pub(crate) alloc: Global,
}

impl<'t, E: Engine, D: Disk> Protocol<E, D, Reply> for Poll<'t, E> {
    ghost use Rattle.sw_cmd_line.specs.Forms.{target_seen};
    ghost use Rattle.sw_cmd_session.specs.Sheets.{hostless};
    ghost use Rattle.sw_cmd_run.specs.Poll.{Event, Mark, Held, held, poll};

    ghost Event = { Event };

    ghost Mark = { Mark };

    ghost Held = { Held };

    ghost rules = { poll (hostless E.body) };

    ghost held = { λ p disk. held (target_seen p.target) (D.course disk p.target.dir.now) p.watched.kept };

    ghost ran = { E.ran };

    ghost faults = { D.faults };

    fn answer_request<S: Source, K: Sink>(
        &mut self,
        lines: &mut Lines,
        source: &mut S,
        sink: &mut K,
        engine: &mut E,
        disk: &mut D,
    ) -> Result<Option<Reply>, Stop> {
        scan_turn(self, lines, source, sink, engine, disk)
    }

    fn last(&self, lines: &Lines) -> Stop {
        match word_of(&lines.line) {
            Word::Scan => Stop::Over,
            Word::End => Stop::Ended,
            Word::Other => Stop::Wrong,
        }
    }
}

fn scan_turn<S: Source, K: Sink, D: Disk, E: Engine>(
    poll: &mut Poll<'_, E>,
    lines: &mut Lines,
    source: &mut S,
    sink: &mut K,
    engine: &mut E,
    disk: &mut D,
) -> Result<Option<Reply>, Stop>
    requires { length lines.old.reader ≤ 4096 }
    ensures ok { IfOk result (λ reply. Answers (grammar.front lines.old.line.items) (protocol (hostless E.body))
        (told_of reply)
        (place lines.old.reader (S.left source.old) (K.written sink.old))
        (standing (held (target_seen poll.old.target) (D.course disk.old poll.old.target.dir.now) poll.old.watched.kept)
        (E.ran engine.old))
        (place lines.new.reader (S.left source.new) (K.written sink.new))
        (standing (held (target_seen poll.new.target) (D.course disk.new poll.new.target.dir.now) poll.new.watched.kept)
        (E.ran engine.new))) }
    ensures err { IfErr result (λ stop. TurnEnds (grammar.front lines.old.line.items) (protocol (hostless E.body)) stop
        (place lines.old.reader (S.left source.old) (K.written sink.old))
        (standing (held (target_seen poll.old.target) (D.course disk.old poll.old.target.dir.now) poll.old.watched.kept)
        (E.ran engine.old))
        (place lines.new.reader (S.left source.new) (K.written sink.new))
        (standing (held (target_seen poll.new.target) (D.course disk.new poll.new.target.dir.now) poll.new.watched.kept)
        (E.ran engine.new))) }
    ensures source_cause { Cause Stop.SourceFailed (S.faults source.old) (S.faults source.new) result }
    ensures sink_cause { Cause Stop.SinkFailed (K.faults sink.old) (K.faults sink.new) result }
    ensures disk_cause { Cause Stop.OutsideFailed (D.faults disk.old) (D.faults disk.new) result }
{
    // nothing stands behind a line
    let _ = source;
    match word_of(&lines.line) {
        Word::Scan => scan(
            poll.alloc,
            &poll.target,
            &mut poll.watched,
            sink,
            engine,
            disk,
        ),
        Word::End => Err(Stop::Ended),
        Word::Other => Err(Stop::Wrong),
    }
}
