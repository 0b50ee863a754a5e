// Code that is called.
ghost use Rattle.std.specs.Prelude.{◌≡◌};
ghost use Rattle.sw_eval_questions.specs.Did.{IsReturn};
ghost use Rattle.sw_eval_questions.specs.Talk.{Gives};
ghost use Rattle.sw_eval_state.specs.Entering.{opened, closed, given, returned};
ghost use Rattle.sw_eval_state.specs.declared.state.State.{State};

use crate::faults::fails;
use crate::here::Here;
use crate::state::State;
use std::mem;
use sw_eval_questions::Stop;
use sw_scope::{FrameKind, Mark};
use sw_text::{FaultCode, Name, Span};
use sw_values::Value;

impl State {
    /// Goes on with code that was written there, in a new frame on this one.
    #[tactic(auto, unfolding(crate::specs::Entering::opened))]
    pub fn open(&mut self, here: &Here, mark: Option<Mark>) -> Result<(), Stop>
        ensures { IsReturn result self.new (Gives (tt, opened here.now mark self.old)) }
    {
        self.scopes.on(mark, FrameKind::Block)?;
        let here = here.share()?;
        let caller = mem::replace(&mut self.here, here);
        self.callers.push(caller)?;
        Ok(())
    }

    /// Goes on with the code that called it.
    #[tactic(auto, unfolding(crate::specs::Entering::closed))]
    pub fn close(&mut self)
        ensures { self.new ≡ closed self.old }
    {
        self.scopes.pop();
        if let Some(caller) = self.callers.pop() {
            self.here = caller;
        }
    }

    /// Gives a parameter a value.
    #[tactic(auto, unfolding(crate::specs::Entering::given))]
    pub fn give(&mut self, name: &Name, value: Value) -> Result<(), Stop>
        ensures { IsReturn result self.new (Gives (tt, given name.now value self.old)) }
    {
        let name = name.share()?;
        self.scopes.declare(name, value)?;
        Ok(())
    }
}

/// What a function gives, whose call stands here.
pub fn returned(value: Option<Value>, span: &Span) -> Result<Value, Stop>
    ensures { (s : State) → IsReturn result s (returned value span.now s) }
{
    match value {
        Some(value) => Ok(value),
        None => fails(FaultCode::NoReturn, span),
    }
}
