// The request of a line.
ghost use Rattle.std.specs.Prelude.{◌≡◌, Some, IfOk, IfErr};
ghost use Rattle.sw_wire.specs.Requests.{request_of};
ghost use Rattle.sw_cmd_protocol.specs.Endings.{LineStops};
ghost use Rattle.sw_cmd_session.specs.Lines.{last_stop};

use std::alloc::Global;
use sw_cmd_protocol::Stop;
use sw_wire::{LineFault, Request, read_request};

/// The request that a line asks for, or how it ends the session.
pub(crate) fn request_in(alloc: Global, line: &[u8]) -> Result<Request, Stop>
    ensures ok { IfOk result (λ request. request_of line.now ≡ Some request) }
    ensures err { IfErr result (λ stop. LineStops stop (request_of line.now)) }
{
    match read_request(alloc, line) {
        Ok(request) => Ok(request),
        Err(LineFault::NotARequest) => Err(Stop::Wrong),
        Err(LineFault::Memory) => Err(Stop::Memory),
    }
}

/// How this request ends a session that answers no more.
pub(crate) fn last_stop(request: &Request) -> Stop
    ensures { result ≡ last_stop request.now }
{
    match request {
        Request::End => Stop::Ended,
        Request::Put { .. } | Request::Remove(_) | Request::Compile { .. } => Stop::Over,
    }
}
