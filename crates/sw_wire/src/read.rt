// A line of a session is a request, or none.
ghost use Rattle.sw_wire.specs.Words.{rest_words};
ghost use Rattle.sw_wire.specs.Requests.{request_of, named_by, IsRead};

use crate::arguments::{read_length, read_nothing};
use crate::bases::read_bases;
use crate::parts::{Parts, line_parts};
use crate::{LineFault, Request};
use std::alloc::Global;
use sw_text::Name;

/// The request that a line asks for: words of the bytes 0x21 to 0x7E with one space between them, which are
/// `put PATH N` with one to seven digits without a needless leading zero, `remove PATH`, `compile PATH DIR..` with at
/// most eight load paths, or `end`. `NotARequest` comes exactly where the line is none of these.
pub fn read_request(alloc: Global, line: &[u8]) -> Result<Request, LineFault>
    ensures { IsRead result (request_of line.now) }
{
    match line_parts(line) {
        None => Err(LineFault::NotARequest),
        Some(Parts::End) => Ok(Request::End),
        Some(Parts::Named { name, word, more }) => read_named(alloc, name, word, more),
    }
}

// what the line's name asks for, with this path and the words behind it
fn read_named(
    alloc: Global,
    name: &[u8],
    path: &str,
    more: Option<&[u8]>,
) -> Result<Request, LineFault>
    ensures { IsRead result (named_by name.now path.now (rest_words more.entry)) }
{
    if name == b"put".as_slice() {
        let length = read_length(more)?;
        let path = Name::new(alloc, path)?;
        Ok(Request::Put { path, length })
    } else if name == b"remove".as_slice() {
        read_nothing(more)?;
        let path = Name::new(alloc, path)?;
        Ok(Request::Remove(path))
    } else if name == b"compile".as_slice() {
        let paths = read_bases(alloc, more)?;
        let entry = Name::new(alloc, path)?;
        Ok(Request::Compile { entry, paths })
    } else {
        Err(LineFault::NotARequest)
    }
}
