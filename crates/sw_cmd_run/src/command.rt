// The command line.
ghost use Rattle.std.specs.Prelude.{◌≡◌, ◌≢◌, ℕ, None, Some};
ghost use Rattle.sw_io.specs.Causes.{NoFault, Rose};
ghost use Rattle.sw_cmd_line.specs.declared.syntax.Syntax.{Syntax};
ghost use Rattle.sw_cmd_line.specs.Forms.{form_of, form_seen, Target, Session, Hosted, Steps, Once, Make, Convert};
ghost use Rattle.sw_cmd_protocol.specs.Statuses.{source_failed, sink_failed, outside_failed};
ghost use Rattle.sw_cmd_session.specs.Sheets.{functions};
ghost use Rattle.sw_cmd_run.specs.Run.{surroundings, Runs};

use crate::Surroundings;
use crate::service::poll_folder;
use std::alloc::Global;
use sw_cmd_convert::convert;
use sw_cmd_disk_compile::once;
use sw_cmd_line::{Command, command_of};
use sw_cmd_protocol::Audience;
use sw_cmd_session::{SheetReader, serve};
use sw_cmd_steps::serve_steps;
use sw_cmd_workload::make;
use sw_io::{Disk, Sink, Source};
use sw_record::Reply;
use sw_text::Name;
use sw_world::{Engine, Hosts, NoHosts};

/// The status where the words are in no command's form.
pub const NO_COMMAND: u8 = 7;

/// Does what the words of the command line ask for, without the program's name, and gives the status: `session`
/// answers the requests of the source without functions of a host, and `hosted` with those that are handed in; `steps`
/// answers those of which compiles go on by steps; `once DIR ENTRY LOAD..` compiles a folder of the disk and writes its
/// CSS alone, or the line of its fault, and `poll DIR ENTRY LOAD..` reads and compiles it at each line `scan` of the
/// source; `make N` compiles the made folder of this number and its edits and writes their summary; `convert FROM TO`
/// writes the sheet of the source in the other syntax, or the line of what keeps it from being written. The audience is
/// told of the reply to each compile but those of `steps`, once it is written, and of those of `make` as they are formed.
/// Words in no such form give 7, and nothing is read, written, run or told. No call of the source, the sink or the disk
/// fails but the one by whose fault the command ends, and no other command than `hosted` calls a function of the host.
pub fn run<S: Source, K: Sink, D: Disk, E: Engine, T: Audience<Reply>, H: Hosts>(
    alloc: Global,
    words: &[Name],
    around: &mut Surroundings<S, K, D, T, H>,
    engine: &mut E,
) -> u8
    ensures runs { Runs E.body (functions H.answer H.after) T.hears (form_of words.now) result
        (surroundings (S.left around.old.source) (K.written around.old.output.sink) (D.course around.old.disk)
        (E.ran engine.old) (H.state around.old.hosts))
        (surroundings (S.left around.new.source) (K.written around.new.output.sink) (D.course around.new.disk)
        (E.ran engine.new) (H.state around.new.hosts))
        (T.state around.old.output.audience) (T.state around.new.output.audience) }
    ensures no_command { form_of words.now ≡ None → (around.new ≡ around.old) × (engine.new ≡ engine.old) }
    ensures no_disk { form_of words.now ≡ Some Session → around.new.disk ≡ around.old.disk }
    ensures no_disk_hosted { form_of words.now ≡ Some Hosted → around.new.disk ≡ around.old.disk }
    ensures no_disk_steps { form_of words.now ≡ Some Steps → around.new.disk ≡ around.old.disk }
    ensures no_source { (target : Target) → form_of words.now ≡ Some (Once target)
        → around.new.source ≡ around.old.source }
    ensures no_engine { (from to : Syntax) → form_of words.now ≡ Some (Convert from to)
        → (around.new.disk ≡ around.old.disk) × (engine.new ≡ engine.old) }
    ensures no_outside { (number : ℕ) → form_of words.now ≡ Some (Make number)
        → (around.new.source ≡ around.old.source) × (around.new.disk ≡ around.old.disk) }
    ensures no_hosts { form_of words.now ≢ Some Hosted → around.new.hosts ≡ around.old.hosts }
    ensures source_fault { result ≡ source_failed → Rose (S.faults around.old.source) (S.faults around.new.source) }
    ensures sink_fault { result ≡ sink_failed
        → Rose (K.faults around.old.output.sink) (K.faults around.new.output.sink) }
    ensures disk_fault { result ≡ outside_failed → Rose (D.faults around.old.disk) (D.faults around.new.disk) }
    ensures no_source_fault { result ≢ source_failed
        → NoFault (S.faults around.old.source) (S.faults around.new.source) }
    ensures no_sink_fault { result ≢ sink_failed
        → NoFault (K.faults around.old.output.sink) (K.faults around.new.output.sink) }
    ensures no_disk_fault { result ≢ outside_failed → NoFault (D.faults around.old.disk) (D.faults around.new.disk) }
{
    match command_of(words) {
        None => NO_COMMAND,
        Some(command) => carry_out(alloc, command, around, engine),
    }
}

// Does what a command asks for.
fn carry_out<S: Source, K: Sink, D: Disk, E: Engine, T: Audience<Reply>, H: Hosts>(
    alloc: Global,
    command: Command<'_>,
    around: &mut Surroundings<S, K, D, T, H>,
    engine: &mut E,
) -> u8
    ensures runs { Runs E.body (functions H.answer H.after) T.hears (Some (form_seen command.entry)) result
        (surroundings (S.left around.old.source) (K.written around.old.output.sink) (D.course around.old.disk)
        (E.ran engine.old) (H.state around.old.hosts))
        (surroundings (S.left around.new.source) (K.written around.new.output.sink) (D.course around.new.disk)
        (E.ran engine.new) (H.state around.new.hosts))
        (T.state around.old.output.audience) (T.state around.new.output.audience) }
    ensures no_disk { form_seen command.entry ≡ Session → around.new.disk ≡ around.old.disk }
    ensures no_disk_hosted { form_seen command.entry ≡ Hosted → around.new.disk ≡ around.old.disk }
    ensures no_disk_steps { form_seen command.entry ≡ Steps → around.new.disk ≡ around.old.disk }
    ensures no_source { (target : Target) → form_seen command.entry ≡ Once target
        → around.new.source ≡ around.old.source }
    ensures no_engine { (from to : Syntax) → form_seen command.entry ≡ Convert from to
        → (around.new.disk ≡ around.old.disk) × (engine.new ≡ engine.old) }
    ensures no_outside { (number : ℕ) → form_seen command.entry ≡ Make number
        → (around.new.source ≡ around.old.source) × (around.new.disk ≡ around.old.disk) }
    ensures no_hosts { form_seen command.entry ≢ Hosted → around.new.hosts ≡ around.old.hosts }
    ensures source_fault { result ≡ source_failed → Rose (S.faults around.old.source) (S.faults around.new.source) }
    ensures sink_fault { result ≡ sink_failed
        → Rose (K.faults around.old.output.sink) (K.faults around.new.output.sink) }
    ensures disk_fault { result ≡ outside_failed → Rose (D.faults around.old.disk) (D.faults around.new.disk) }
    ensures no_source_fault { result ≢ source_failed
        → NoFault (S.faults around.old.source) (S.faults around.new.source) }
    ensures no_sink_fault { result ≢ sink_failed
        → NoFault (K.faults around.old.output.sink) (K.faults around.new.output.sink) }
    ensures no_disk_fault { result ≢ outside_failed → NoFault (D.faults around.old.disk) (D.faults around.new.disk) }
{
    let Surroundings {
        source,
        output,
        disk,
        hosts,
    } = around;
    match command {
        Command::Session => serve(alloc, source, output, engine, &mut NoHosts),
        Command::Hosted => serve(alloc, source, output, engine, hosts),
        Command::Steps => serve_steps(alloc, &SheetReader, source, output, engine),
        Command::Once(target) => once(alloc, &SheetReader, &target, output, disk, engine).status(),
        Command::Poll(target) => poll_folder(alloc, &target, source, output, disk, engine),
        Command::Make(number) => make(alloc, &SheetReader, number, output, engine).status(),
        Command::Convert(conversion) => {
            convert(alloc, &SheetReader, conversion, source, &mut output.sink).status()
        }
    }
}
