// The variables of loops.
ghost use Rattle.std.specs.Prelude.{◌<◌};
ghost use Rattle.sw_eval_questions.specs.Did.{IsReturn};
ghost use Rattle.sw_eval_state.specs.Loop_variables.{null_declared, nulls_declared, all_set, apart, counted_to};
ghost use Rattle.sw_eval_state.specs.Scope.{set_by};
ghost use Rattle.sw_eval_questions.specs.Talk.{Gives};

use crate::state::State;
use std::alloc::Global;
use sw_eval_literals::{Counting, taken_apart};
use sw_eval_questions::Stop;
use sw_text::{Name, Span};
use sw_values::Value;

impl State {
    /// A new variable of the innermost frame, which is null.
    #[tactic(auto, unfolding(crate::specs::Loop_variables::null_declared))]
    pub fn declare_null(&mut self, name: &Name) -> Result<(), Stop>
        ensures { IsReturn result self.new (Gives (tt, null_declared name.now self.old)) }
    {
        let name = name.share()?;
        self.scopes.declare(name, Value::null())?;
        Ok(())
    }

    /// Such variables of these names.
    pub fn declare_nulls(&mut self, names: &[Name]) -> Result<(), Stop>
        ensures { IsReturn result self.new (Gives (tt, nulls_declared names.now self.old)) }
    {
        for name in names {
            self.declare_null(name)?;
        }
        Ok(())
    }

    fn set_shared(&mut self, name: &Name, value: &Value) -> Result<(), Stop>
        ensures { IsReturn result self.new (Gives (tt, set_by self.old (name.now, value.now))) }
    {
        let name = name.share()?;
        let value = value.share()?;
        self.set_by(name, value)
    }

    // Gives each of the names its value.
    fn set_all(&mut self, names: &[Name], values: &[Value]) -> Result<(), Stop>
        ensures { IsReturn result self.new (Gives (tt, all_set names.now values.now self.old)) }
    {
        'names: for at in 0..names.len() {
            if at >= values.len() {
                return Ok(());
            }
            self.set_shared(&names[at], &values[at])?;
        }
        Ok(())
    }

    /// Gives them an element of a list, taken apart.
    pub fn take_apart(
        &mut self,
        alloc: Global,
        names: &[Name],
        element: &Value,
        span: &Span,
    ) -> Result<(), Stop>
        ensures { IsReturn result self.new (apart names.now element.now span.now self.old) }
    {
        let values = taken_apart(alloc, names.len(), element, span)?;
        self.set_all(names, values.as_slice())
    }

    /// Gives a variable the number of a turn.
    #[tactic(auto, unfolding(crate::specs::Loop_variables::counted_to))]
    pub fn count_to(&mut self, name: &Name, numbers: &Counting, turn: u32) -> Result<(), Stop>
        requires { turn < numbers.now.turns }
        ensures { IsReturn result self.new (Gives (tt, counted_to name.now numbers.now turn self.old)) }
    {
        let number = numbers.number(turn)?;
        let name = name.share()?;
        self.set_by(name, number)
    }
}
