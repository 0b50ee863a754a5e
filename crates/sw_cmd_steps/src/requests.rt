// The request of a line.
ghost use Rattle.std.specs.Prelude.{◌≡◌, Some, IfOk, IfErr};
ghost use Rattle.sw_wire.specs.Requests.{step_request_of};
ghost use Rattle.sw_cmd_protocol.specs.Endings.{LineStops};
ghost use Rattle.sw_cmd_steps.specs.Script.{last_stop};

use std::alloc::Global;
use sw_cmd_protocol::Stop;
use sw_wire::{LineFault, StepRequest, read_step_request};

/// The request that a line asks for, or how it ends the answers.
pub(crate) fn request_in(alloc: Global, line: &[u8]) -> Result<StepRequest, Stop>
    ensures ok { IfOk result (λ request. step_request_of line.now ≡ Some request) }
    ensures err { IfErr result (λ stop. LineStops stop (step_request_of line.now)) }
{
    match read_step_request(alloc, line) {
        Ok(request) => Ok(request),
        Err(LineFault::NotARequest) => Err(Stop::Wrong),
        Err(LineFault::Memory) => Err(Stop::Memory),
    }
}

/// How this request ends the answers where no more are given.
pub(crate) fn last_stop(request: &StepRequest) -> Stop
    ensures { result ≡ last_stop request.now }
{
    match request {
        StepRequest::End => Stop::Ended,
        StepRequest::Put { .. }
        | StepRequest::Remove(_)
        | StepRequest::Start { .. }
        | StepRequest::Step(_) => Stop::Over,
    }
}
