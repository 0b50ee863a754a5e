// Calls that fail in turn: each of an object, until one is to fail that isn't made.
ghost use Rattle.std.specs.Prelude.{◌≤◌};

use crate::running::ended;
use std::alloc::{AllocError, Global};
use sw_cmd_protocol::Stop;
use sw_rows_sessions::{Ending, Failing, Heard, Object, Row, told};

// Calls that are made to fail: more than any row makes.
const MOST_CALLS: u32 = 1_000_000;

// Pieces of so many bytes where the calls of another object fail.
const WHOLE: usize = 4_096;

/// What differs where a call of the row fails, of the source, the sink, the disk or a reporter, each in turn. How many
/// there were is added to `loops`, a line for each loop. An error exactly where no memory was found.
pub fn all_fail(
    alloc: Global,
    row: &Row,
    loops: &mut String,
) -> Result<Option<String>, AllocError> {
    for most in [7, 1] {
        for object in [Object::Source, Object::Sink] {
            if most >= 1 {
                let told = calls_fail(alloc, row, most, object, loops)?;
                if told.is_some() {
                    return Ok(told);
                }
            }
        }
    }
    let told = calls_fail(alloc, row, WHOLE, Object::Disk, loops)?;
    if told.is_some() {
        return Ok(told);
    }
    for (number, _) in row.listeners.iter().enumerate() {
        let told = calls_fail(alloc, row, WHOLE, Object::Reporter(number), loops)?;
        if told.is_some() {
            return Ok(told);
        }
    }
    Ok(None)
}

// Each call of the object, with pieces of so many bytes. The loop ends where the object's own count didn't rise: then
// there is no call of this number, and the row comes out as it says.
fn calls_fail(
    alloc: Global,
    row: &Row,
    most: usize,
    object: Object,
    loops: &mut String,
) -> Result<Option<String>, AllocError>
    requires { 1 ≤ most }
{
    let kind = kind_of(alloc, object, most)?;
    for call in 1..=MOST_CALLS {
        let failing = Failing { object, call };
        let run = ended(alloc, row, most, Some(failing))?;
        if run.faults == 0 {
            let count = call.saturating_sub(1);
            let line = format!(in alloc; "  {count} {kind} failed in turn\n")?;
            loops.push_str(line.as_str())?;
            return told(alloc, row, &run.ending);
        }
        if run.faults != 1 || !is_cut_short(row, most, failing, &run.ending) {
            return Ok(Some(format!(in alloc;
                "  comes out otherwise where {call} of the {kind} fails\n"
            )?));
        }
    }
    Ok(Some(format!(in alloc; "  has too many {kind}\n")?))
}

fn kind_of(alloc: Global, object: Object, most: usize) -> Result<String, AllocError> {
    match object {
        Object::Source => format!(in alloc; "reads in pieces of {most}"),
        Object::Sink => format!(in alloc; "writes and flushes in pieces of {most}"),
        Object::Disk => String::from_str(alloc, "listings and file reads"),
        Object::Reporter(number) => format!(in alloc; "replies to reporter {number}"),
    }
}

// Whether a run ended as it has to where this call fails. Exactly those requests are answered that were read whole
// before a failing read; exactly the front of the replies is written that comes before a failing write or flush; the
// replies of the scans before that of a failing call of the disk; and a reporter that fails is silent alone.
fn is_cut_short(row: &Row, most: usize, failing: Failing, ending: &Ending) -> bool
    requires { 1 ≤ most }
{
    let before = (failing.call as usize).saturating_sub(1);
    let (status, replies) = match failing.object {
        Object::Source => (
            Stop::SourceFailed.status(),
            row.replies_to(before.saturating_mul(most)),
        ),
        Object::Sink => (
            Stop::SinkFailed.status(),
            row.written_before(failing.call as usize, most),
        ),
        Object::Disk => (
            Stop::OutsideFailed.status(),
            row.scanned_before(failing.call as usize),
        ),
        Object::Reporter(number) => {
            if !are_heard(row, number, before, &ending.heard) {
                return false;
            }
            (row.status.unwrap_or(0), row.wanted.as_slice())
        }
    };
    ending.status == status && ending.replies.as_slice() == replies
}

// Whether the reporter of this number heard so many replies and is silent, and each other one came out as the row says.
fn are_heard(row: &Row, number: usize, before: usize, all: &[Heard]) -> bool {
    let silent = Heard {
        count: before as u64,
        is_silent: true,
        faults: 1,
    };
    for (at, listener) in row.listeners.iter().enumerate() {
        let wanted = if at == number {
            silent
        } else {
            listener.wanted
        };
        if all.get(at).copied() != Some(wanted) {
            return false;
        }
    }
    true
}
