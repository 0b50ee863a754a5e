// A line is a request where compiles go on by steps, or none.
ghost use Rattle.sw_wire.specs.Words.{rest_words};
ghost use Rattle.sw_wire.specs.Requests.{step_request_of, step_named_by, step_by, IsRead};

use crate::arguments::{read_length, read_nothing};
use crate::bases::read_bases;
use crate::number::read_number;
use crate::parts::{Parts, line_parts};
use crate::{LineFault, StepRequest};
use std::alloc::Global;
use sw_text::Name;

/// The request that a line asks for where compiles go on by steps: `put PATH N`, `remove PATH` and `end` as in a
/// session, `start PATH DIR..` in the form of a session's `compile`, and `step N` with a number of 32 bits without a
/// needless leading zero. `NotARequest` comes exactly where the line is none of these.
pub fn read_step_request(alloc: Global, line: &[u8]) -> Result<StepRequest, LineFault>
    ensures { IsRead result (step_request_of line.now) }
{
    match line_parts(line) {
        None => Err(LineFault::NotARequest),
        Some(Parts::End) => Ok(StepRequest::End),
        Some(Parts::Named { name, word, more }) => read_named(alloc, name, word, more),
    }
}

// what the line's name asks for, with this word and those behind it
fn read_named(
    alloc: Global,
    name: &[u8],
    word: &str,
    more: Option<&[u8]>,
) -> Result<StepRequest, LineFault>
    ensures { IsRead result (step_named_by name.now word.now (rest_words more.entry)) }
{
    if name == b"put".as_slice() {
        let length = read_length(more)?;
        let path = Name::new(alloc, word)?;
        Ok(StepRequest::Put { path, length })
    } else if name == b"remove".as_slice() {
        read_nothing(more)?;
        let path = Name::new(alloc, word)?;
        Ok(StepRequest::Remove(path))
    } else if name == b"start".as_slice() {
        let paths = read_bases(alloc, more)?;
        let entry = Name::new(alloc, word)?;
        Ok(StepRequest::Start { entry, paths })
    } else if name == b"step".as_slice() {
        read_step(word, more)
    } else {
        Err(LineFault::NotARequest)
    }
}

fn read_step(digits: &str, more: Option<&[u8]>) -> Result<StepRequest, LineFault>
    ensures { IsRead result (step_by digits.now (rest_words more.entry)) }
{
    read_nothing(more)?;
    match read_number(u32::MAX, digits.as_bytes()) {
        None => Err(LineFault::NotARequest),
        Some(number) => Ok(StepRequest::Step(number)),
    }
}
