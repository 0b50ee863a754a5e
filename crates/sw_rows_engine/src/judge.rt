// A session is run over the announcer, and what comes of it is compared with what its row says.
ghost use Rattle.std.specs.Prelude.{◌≤◌};

use std::alloc::{AllocError, Global};
use sw_cmd_protocol::Output;
use sw_cmd_session::serve;
use sw_io::{MemSink, MemSource};
use sw_rows_announcer::Announcer;
use sw_rows_sessions::{Ending, Row, heard_by, hub_of, looked_at, told};
use sw_text::List;
use sw_world::NoHosts;

/// `None` where the session comes out as its row says, whatever the pieces in which bytes come and go, or where it
/// doesn't and the row is told wrongly on purpose; else what differs, as lines to print.
pub fn judge(alloc: Global, row: &Row) -> Result<Option<String>, AllocError> {
    let told = judge_all(alloc, row)?;
    if !row.is_wrong {
        return Ok(told);
    }
    match told {
        Some(_) => Ok(None),
        None => Ok(Some(String::from_str(alloc, "  is told wrongly, and comes out as it says\n")?)),
    }
}

fn judge_all(alloc: Global, row: &Row) -> Result<Option<String>, AllocError> {
    for most in [4096, 7, 1] {
        if most >= 1 {
            let ending = served(alloc, row, most)?;
            let told = told(alloc, row, &ending)?;
            if told.is_some() {
                return Ok(told);
            }
        }
    }
    Ok(None)
}

// The session with at most so many bytes in a read and in a write.
fn served(alloc: Global, row: &Row, most: usize) -> Result<Ending, AllocError>
    requires { 1 ≤ most }
{
    let mut script = row.sent.to_vec(alloc)?;
    if row.status.is_none() {
        script.extend_from_slice(b"end\n")?;
    }
    let mut source = MemSource::new(List::from_vec(script), most, List::new(alloc));
    let mut output = Output {
        sink: MemSink::new(alloc, most, List::new(alloc)),
        audience: hub_of(alloc, row)?,
    };
    let mut engine = Announcer::new(alloc);
    let status = serve(alloc, &mut source, &mut output, &mut engine, &mut NoHosts);
    let replies = looked_at(alloc, row.look, output.sink.bytes())?;
    let heard = heard_by(alloc, row, &mut output.audience)?;
    Ok(Ending {
        status,
        replies,
        heard,
    })
}
