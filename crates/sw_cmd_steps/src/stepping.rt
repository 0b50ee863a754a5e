// What is done at each request.
ghost use Rattle.std.specs.Prelude.{◌≡◌, ◌≤◌, [], length, OnOk, IfErr};
ghost use Rattle.std.specs.FinMap as files;
ghost use Rattle.sw_io.specs.Causes.{Cause};
ghost use Rattle.sw_modules.specs.Settings.{hostless};
ghost use Rattle.sw_cmd_protocol.specs.Turns.{place, standing, Answers, TurnEnds};
ghost use Rattle.sw_cmd_steps.specs.Script.{grammar};
ghost use Rattle.sw_cmd_steps.specs.Transcript.{steps as protocol};

use crate::requests::{last_stop, request_in};
use std::alloc::Global;
use sw_cmd_edits::{Editable, Upload, answer_put, answer_removal};
use sw_cmd_protocol::{Lines, Protocol, Stop};
use sw_folder::EditFault;
use sw_io::{Sink, Source};
use sw_modules::Reader;
use sw_record::Reply;
use sw_step::Steps;
use sw_wire::StepRequest;
use sw_world::Engine;

/// A folder that is edited, and the compiles under way.
#[derive(Drop)]
pub(crate) struct Stepping<'r, R: Reader, E: Engine> {
    pub(crate) reader: &'r R,
    pub(crate) steps: Steps<R, E>,
    pub(crate) alloc: Global,
}

impl<'r, R: Reader, E: Engine> Stepping<'r, R, E> {
    /// An empty folder, and no compile under way.
    pub(crate) fn new(alloc: Global, reader: &'r R) -> Stepping<'r, R, E>
        ensures { result.steps ≡ record { folder = files.empty; given = 0; under_way = [] } }
    {
        Stepping {
            reader,
            steps: Steps::new(alloc),
            alloc,
        }
    }
}

impl<'r, R: Reader, E: Engine> Editable for Stepping<'r, R, E> {
    ghost use Rattle.std.specs.Prelude.{ℕ, List};
    ghost use Rattle.sw_step.specs.Joint.{UnderWay};

    ghost Rest = { ℕ × List (ℕ × UnderWay) };

    ghost folder = { λ s. s.steps.folder };

    ghost rest = { λ s. (s.steps.given, s.steps.under_way) };

    fn put(&mut self, path: &str, bytes: &[u8]) -> Result<(), EditFault> {
        self.steps.put(path, bytes)
    }

    fn remove(&mut self, path: &str) -> Result<(), EditFault> {
        self.steps.remove(path)
    }
}

impl<'r, R: Reader, E: Engine> Protocol<E, (), Reply> for Stepping<'r, R, E> {
    ghost use Rattle.sw_modules.specs.Settings.{hostless};
    ghost use Rattle.sw_step.specs.Joint.{Joint};
    ghost use Rattle.sw_cmd_steps.specs.Script.{Event};
    ghost use Rattle.sw_cmd_steps.specs.Transcript.{Mark, steps};

    ghost Event = { Event };

    ghost Mark = { Mark };

    ghost Held = { Joint };

    ghost rules = { steps (hostless R.reads E.body) };

    ghost held = { λ s _. s.steps };

    ghost ran = { E.ran };

    // nothing is asked beside the source
    ghost faults = { λ _. 0 };

    fn answer_request<S: Source, K: Sink>(
        &mut self,
        lines: &mut Lines,
        source: &mut S,
        sink: &mut K,
        engine: &mut E,
        outside: &mut (),
    ) -> Result<Option<Reply>, Stop> {
        let _ = outside;
        match request_turn(self, lines, source, sink, engine) {
            Ok(()) => Ok(None),
            Err(stop) => Err(stop),
        }
    }

    fn last(&self, lines: &Lines) -> Stop {
        match request_in(self.alloc, &lines.line) {
            Err(stop) => stop,
            Ok(request) => last_stop(&request),
        }
    }
}

fn request_turn<R: Reader, S: Source, K: Sink, E: Engine>(
    stepping: &mut Stepping<'_, R, E>,
    lines: &mut Lines,
    source: &mut S,
    sink: &mut K,
    engine: &mut E,
) -> Result<(), Stop>
    requires { length lines.old.reader ≤ 4096 }
    ensures ok { OnOk result (Answers (grammar.front lines.old.line.items) (protocol (hostless R.reads E.body)) []
        (place lines.old.reader (S.left source.old) (K.written sink.old))
        (standing stepping.old.steps (E.ran engine.old))
        (place lines.new.reader (S.left source.new) (K.written sink.new))
        (standing stepping.new.steps (E.ran engine.new))) }
    ensures err { IfErr result (λ stop. TurnEnds (grammar.front lines.old.line.items)
        (protocol (hostless R.reads E.body)) stop
        (place lines.old.reader (S.left source.old) (K.written sink.old))
        (standing stepping.old.steps (E.ran engine.old))
        (place lines.new.reader (S.left source.new) (K.written sink.new))
        (standing stepping.new.steps (E.ran engine.new))) }
    ensures source_cause { Cause Stop.SourceFailed (S.faults source.old) (S.faults source.new) result }
    ensures sink_cause { Cause Stop.SinkFailed (K.faults sink.old) (K.faults sink.new) result }
{
    match request_in(stepping.alloc, &lines.line)? {
        StepRequest::End => Err(Stop::Ended),
        StepRequest::Step(number) => stepping.step(number, sink, engine),
        StepRequest::Start { entry, paths } => stepping.start(&entry, &paths, sink),
        StepRequest::Remove(path) => answer_removal(&path, stepping, sink),
        StepRequest::Put { path, length } => {
            let upload = Upload {
                alloc: stepping.alloc,
                path: &path,
                length,
            };
            answer_put(&upload, stepping, &mut lines.reader, source, sink)
        }
    }
}
