// The text of a reply where compiles go on by steps.
ghost use Rattle.std.specs.Prelude.{◌≡◌, ◌++◌, length, take, OnOk, OnErr};
ghost use Rattle.sw_wire.specs.StepReplies.{started_text, loading_text, finished_text, times_line, times_text, steps_text, no_compile_text};

use crate::reply::{write_outcome, write_says};
use std::alloc::Global;
use sw_record::Outcome;
use sw_text::{Memory, Name};
use sw_world::Saying;

/// Writes the reply to the start of a compile behind what stands in `out`: the line `started N`. After `Memory` what
/// stood there stands there still, with a part of the reply behind it.
pub fn write_started(alloc: Global, number: u32, out: &mut Vec<u8>) -> Result<(), Memory>
    ensures ok { OnOk result (out.new.items ≡ out.old.items ++ started_text number) }
    ensures err { OnErr result (take (length out.old.items) out.new.items ≡ out.old.items) }
{
    let line = format!(in alloc; "started {number}\n")?;
    out.extend_from_slice(line.as_bytes())?;
    Ok(())
}

/// The same of a step with which a body came to a load that opened another one: the line `loading BODY OPENED`.
pub fn write_loading(body: &Name, opened: &Name, out: &mut Vec<u8>) -> Result<(), Memory>
    ensures ok { OnOk result (out.new.items ≡ out.old.items ++ loading_text body.now opened.now) }
    ensures err { OnErr result (take (length out.old.items) out.new.items ≡ out.old.items) }
{
    out.extend_from_slice(b"loading ")?;
    out.extend_from_slice(body.as_str().as_bytes())?;
    out.extend_from_slice(b" ")?;
    out.extend_from_slice(opened.as_str().as_bytes())?;
    out.extend_from_slice(b"\n")?;
    Ok(())
}

/// The same of a step with which a body ended that another one waited for: the line `finished BODY`.
pub fn write_finished(body: &Name, out: &mut Vec<u8>) -> Result<(), Memory>
    ensures ok { OnOk result (out.new.items ≡ out.old.items ++ finished_text body.now) }
    ensures err { OnErr result (take (length out.old.items) out.new.items ≡ out.old.items) }
{
    out.extend_from_slice(b"finished ")?;
    out.extend_from_slice(body.as_str().as_bytes())?;
    out.extend_from_slice(b"\n")?;
    Ok(())
}

/// Writes the reply to the step that ends a compile behind what stands in `out`: the messages as in a session's reply,
/// for each body the line `times PATH N` with the number of steps that ran it, and the outcome as in a session's reply.
/// After `Memory`, `out` is as before.
pub fn write_steps(
    alloc: Global,
    says: &[Saying],
    times: &[(Name, u32)],
    outcome: &Outcome,
    out: &mut Vec<u8>,
) -> Result<(), Memory>
    ensures ok { OnOk result (out.new.items ≡ out.old.items ++ steps_text says.now times.now outcome.now) }
    ensures err { OnErr result (out.new.items ≡ out.old.items) }
{
    let before = out.len();
    match write_parts(alloc, says, times, outcome, out) {
        Ok(()) => Ok(()),
        Err(Memory) => {
            out.truncate(before);
            Err(Memory)
        }
    }
}

fn write_parts(
    alloc: Global,
    says: &[Saying],
    times: &[(Name, u32)],
    outcome: &Outcome,
    out: &mut Vec<u8>,
) -> Result<(), Memory>
    ensures ok { OnOk result (out.new.items ≡ out.old.items ++ steps_text says.now times.now outcome.now) }
    ensures err { OnErr result (take (length out.old.items) out.new.items ≡ out.old.items) }
{
    write_says(alloc, says, out)?;
    write_times(alloc, times, out)?;
    write_outcome(alloc, outcome, out)
}

fn write_times(alloc: Global, times: &[(Name, u32)], out: &mut Vec<u8>) -> Result<(), Memory>
    ensures ok { OnOk result (out.new.items ≡ out.old.items ++ times_text times.now) }
    ensures err { OnErr result (take (length out.old.items) out.new.items ≡ out.old.items) }
{
    for (path, count) in times {
        write_count(alloc, path, *count, out)?;
    }
    Ok(())
}

// the line of a body
fn write_count(alloc: Global, path: &Name, count: u32, out: &mut Vec<u8>) -> Result<(), Memory>
    ensures ok { OnOk result (out.new.items ≡ out.old.items ++ times_line (path.now, count)) }
    ensures err { OnErr result (take (length out.old.items) out.new.items ≡ out.old.items) }
{
    let digits = count.to_string(alloc)?;
    out.extend_from_slice(b"times ")?;
    out.extend_from_slice(path.as_str().as_bytes())?;
    out.extend_from_slice(b" ")?;
    out.extend_from_slice(digits.as_bytes())?;
    out.extend_from_slice(b"\n")?;
    Ok(())
}

/// The reply to a step of a compile that isn't under way: the line `refused 206`. Takes no memory.
pub fn no_compile_reply() -> &'static [u8]
    ensures { result.now ≡ no_compile_text }
{
    b"refused 206\n"
}
