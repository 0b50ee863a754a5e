// What a session does at each request.
ghost use Rattle.std.specs.Prelude.{◌≡◌, ◌≤◌, [], length, IfOk, IfErr};
ghost use Rattle.std.specs.FinMap as files;
ghost use Rattle.sw_io.specs.Causes.{Cause};
ghost use Rattle.sw_cmd_protocol.specs.Heard.{told_of};
ghost use Rattle.sw_cmd_protocol.specs.Turns.{place, standing, Answers, TurnEnds};
ghost use Rattle.sw_cmd_session.specs.Script.{grammar};
ghost use Rattle.sw_cmd_session.specs.Transcript.{holding, session as protocol};

use crate::reading::SheetReader;
use crate::requests::{last_stop, request_in};
use std::alloc::Global;
use sw_cmd_edits::{Editable, Upload, answer_put, answer_removal};
use sw_cmd_protocol::{Lines, Protocol, Stop};
use sw_folder::EditFault;
use sw_io::{Sink, Source};
use sw_keeper::Keeper;
use sw_modules::HasSetting;
use sw_record::Reply;
use sw_wire::Request;
use sw_world::{Engine, Hosts};

/// A folder with its kept runs, which is edited and compiled.
#[derive(Drop)]
pub(crate) struct Session<E: Engine> {
    pub(crate) keeper: Keeper<SheetReader, E>,
    pub(crate) alloc: Global,
}

impl<E: Engine> Session<E> {
    /// An empty folder.
    pub(crate) fn new(alloc: Global) -> Session<E>
        ensures { result.keeper ≡ record { folder = files.empty; kept = [] } }
    {
        Session {
            keeper: Keeper::new(alloc),
            alloc,
        }
    }
}

impl<E: Engine> Editable for Session<E> {
    ghost use Rattle.sw_keeper.specs.Keeping.{Table};

    ghost Rest = { Table };

    ghost folder = { λ s. s.keeper.folder };

    ghost rest = { λ s. s.keeper.kept };

    fn put(&mut self, path: &str, bytes: &[u8]) -> Result<(), EditFault> {
        self.keeper.put(path, bytes)
    }

    fn remove(&mut self, path: &str) -> Result<(), EditFault> {
        self.keeper.remove(path)
    }
}

impl<E: Engine, H: Hosts> Protocol<E, H, Reply> for Session<E> {
    ghost use Rattle.sw_cmd_session.specs.Script.{Event};
    ghost use Rattle.sw_cmd_session.specs.Transcript.{Mark, Held, holding, session};

    ghost Event = { Event };

    ghost Mark = { Mark };

    ghost Held = { Held };

    ghost rules = { session ⟦<(SheetReader, E, H) as HasSetting>⟧.setting };

    ghost held = { λ s hosts. holding s.keeper (H.state hosts) };

    ghost ran = { E.ran };

    // a host has no faults of its own
    ghost faults = { λ _. 0 };

    fn answer_request<S: Source, K: Sink>(
        &mut self,
        lines: &mut Lines,
        source: &mut S,
        sink: &mut K,
        engine: &mut E,
        hosts: &mut H,
    ) -> Result<Option<Reply>, Stop> {
        request_turn(self, lines, source, sink, engine, hosts)
    }

    fn last(&self, lines: &Lines) -> Stop {
        match request_in(self.alloc, &lines.line) {
            Err(stop) => stop,
            Ok(request) => last_stop(&request),
        }
    }
}

fn request_turn<S: Source, K: Sink, E: Engine, H: Hosts>(
    session: &mut Session<E>,
    lines: &mut Lines,
    source: &mut S,
    sink: &mut K,
    engine: &mut E,
    hosts: &mut H,
) -> Result<Option<Reply>, Stop>
    requires { length lines.old.reader ≤ 4096 }
    ensures ok { IfOk result (λ reply. Answers (grammar.front lines.old.line.items)
        (protocol ⟦<(SheetReader, E, H) as HasSetting>⟧.setting) (told_of reply)
        (place lines.old.reader (S.left source.old) (K.written sink.old))
        (standing (holding session.old.keeper (H.state hosts.old)) (E.ran engine.old))
        (place lines.new.reader (S.left source.new) (K.written sink.new))
        (standing (holding session.new.keeper (H.state hosts.new)) (E.ran engine.new))) }
    ensures err { IfErr result (λ stop. TurnEnds (grammar.front lines.old.line.items)
        (protocol ⟦<(SheetReader, E, H) as HasSetting>⟧.setting) stop
        (place lines.old.reader (S.left source.old) (K.written sink.old))
        (standing (holding session.old.keeper (H.state hosts.old)) (E.ran engine.old))
        (place lines.new.reader (S.left source.new) (K.written sink.new))
        (standing (holding session.new.keeper (H.state hosts.new)) (E.ran engine.new))) }
    ensures source_cause { Cause Stop.SourceFailed (S.faults source.old) (S.faults source.new) result }
    ensures sink_cause { Cause Stop.SinkFailed (K.faults sink.old) (K.faults sink.new) result }
{
    match request_in(session.alloc, &lines.line)? {
        Request::End => Err(Stop::Ended),
        Request::Compile { entry, paths } => {
            session.compile(&entry, &paths, sink, engine, hosts)
        }
        Request::Remove(path) => match answer_removal(&path, session, sink) {
            Ok(()) => Ok(None),
            Err(stop) => Err(stop),
        },
        Request::Put { path, length } => {
            let upload = Upload {
                alloc: session.alloc,
                path: &path,
                length,
            };
            match answer_put(&upload, session, &mut lines.reader, source, sink) {
                Ok(()) => Ok(None),
                Err(stop) => Err(stop),
            }
        }
    }
}
