// One run of a row.
ghost use Rattle.std.specs.Prelude.{◌≤◌};

use crate::detaching::ended_over_keeper;
use crate::hosts::Weary;
use crate::starved::Starving;
use std::alloc::{AllocError, Global};
use sw_cmd_protocol::Output;
use sw_cmd_run::{Surroundings, run};
use sw_eval::Evaluator;
use sw_hosts::{Counter, First, HostFn, HostTable};
use sw_hub::{Hub, MemReporter};
use sw_io::{MemDisk, MemSink, MemSource};
use sw_rows_sessions::{
    Ending, Failing, Heard, HostKind, Object, Row, disk_of, failing_calls, heard_by, hub_with,
    looked_at,
};
use sw_text::List;

/// What a run ended with, and how many calls failed of the object of which one was to.
#[derive(Drop)]
pub struct Run {
    pub ending: Ending,
    pub faults: u64,
}

type Around<H> = Surroundings<MemSource, MemSink, MemDisk, Hub<MemReporter>, H>;

/// The row with at most so many bytes in a read and in a write, where one call more may fail; or, where functions of the
/// host are detached in it, over a keeper at hand. An error exactly where no memory was found.
pub fn ended(
    alloc: Global,
    row: &Row,
    most: usize,
    failing: Option<Failing>,
) -> Result<Run, AllocError>
    requires { 1 ≤ most }
{
    let mut hosts: HostTable<Box<dyn HostFn>> = HostTable::new(alloc);
    for host in row.hosts.iter() {
        let name = host.name.as_str();
        let attached = match host.kind {
            HostKind::Counter => hosts.attach(alloc, name, Box::new(alloc, Counter::new())?),
            HostKind::First => hosts.attach(alloc, name, Box::new(alloc, First)?),
            HostKind::Failing => hosts.attach(alloc, name, Box::new(alloc, Weary)?),
        };
        if attached.is_err() {
            return Err(AllocError);
        }
    }
    let mut engine = Starving::new(Evaluator::new(), row.starved.to_vec(alloc)?);
    if !row.detached.is_empty() {
        let ending = ended_over_keeper(alloc, row, &mut engine, &mut hosts)?;
        return Ok(Run { ending, faults: 0 });
    }
    let mut around = around_row(alloc, row, most, failing, hosts)?;
    let status = run(alloc, &row.words, &mut around, &mut engine);
    run_of(alloc, row, failing, status, &mut around)
}

// What is around the program, as the row has it.
fn around_row<H: Drop>(
    alloc: Global,
    row: &Row,
    most: usize,
    failing: Option<Failing>,
    hosts: H,
) -> Result<Around<H>, AllocError>
    requires { 1 ≤ most }
{
    let mut script = row.sent.to_vec(alloc)?;
    if row.status.is_none() {
        script.extend_from_slice(b"end\n")?;
    }
    let reads = failing_calls(alloc, Object::Source, &[], failing)?;
    let writes = failing_calls(alloc, Object::Sink, &row.sink_fails, failing)?;
    Ok(Surroundings {
        source: MemSource::new(List::from_vec(script), most, reads),
        output: Output {
            sink: MemSink::new(alloc, most, writes),
            audience: hub_with(alloc, row, failing)?,
        },
        disk: disk_of(alloc, row, failing)?,
        hosts,
    })
}

// What is left of a run with this status.
fn run_of<H>(
    alloc: Global,
    row: &Row,
    failing: Option<Failing>,
    status: u8,
    around: &mut Around<H>,
) -> Result<Run, AllocError> {
    let replies = looked_at(alloc, row.look, around.output.sink.bytes())?;
    let heard = heard_by(alloc, row, &mut around.output.audience)?;
    let faults = match failing {
        None => 0,
        Some(failing) => match failing.object {
            Object::Source => around.source.faults(),
            Object::Sink => around.output.sink.faults(),
            Object::Disk => around.disk.faults(),
            Object::Reporter(number) => faults_of(&heard, number),
        },
    };
    let ending = Ending {
        status,
        replies,
        heard,
    };
    Ok(Run { ending, faults })
}

fn faults_of(all: &[Heard], number: usize) -> u64 {
    match all.get(number) {
        Some(heard) => heard.faults,
        None => 0,
    }
}
