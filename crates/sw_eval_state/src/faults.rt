// Faults that end an evaluation.
ghost use Rattle.sw_eval_questions.specs.Talk.{Fails};
ghost use Rattle.sw_eval_questions.specs.Asking.{fault};
ghost use Rattle.sw_eval_questions.specs.Did.{IsReturn};
ghost use Rattle.sw_eval_state.specs.declared.state.State.{State};

use sw_eval_questions::Stop;
use sw_text::{FaultCode, Span};

/// Ends with a fault at this place, whatever was made so far.
pub fn fails<T>(code: FaultCode, span: &Span) -> Result<T, Stop>
    ensures { (s : State) → IsReturn result s (Fails (fault code span.now)) }
{
    sw_eval_questions::fails(code, span)
}
