// Values that are made of what an expression says alone, and of the values of items. Each call stays one: what it needs
// on the stack would else stand under each level of an expression.
ghost use Rattle.sw_eval_questions.specs.Did.{IsReturn};
ghost use Rattle.sw_eval_questions.specs.Refusals.{answer};
ghost use Rattle.sw_eval_questions.specs.Talk.{Gives};
ghost use Rattle.sw_eval_literals.specs.Lists.{list_value};
ghost use Rattle.sw_eval_literals.specs.Literals.{hash_value, important_value, number_value};
ghost use Rattle.sw_eval_state.specs.declared.state.State.{State};

use std::alloc::Global;
use sw_eval_literals::{hash_value, important_value, list_value, number_value};
use sw_eval_questions::{Stop, stopped};
use sw_text::{List, Name, Span};
use sw_tree::{Around, Number, Separator};
use sw_values::Value;

#[inline(never)]
pub(crate) fn of_number(number: &Number, span: &Span) -> Result<Value, Stop>
    ensures { (s : State) → IsReturn result s (answer (number_value number.now span.now) s) }
{
    stopped(number_value(number, span))
}

// `#` and a name.
#[inline(never)]
pub(crate) fn of_hash(alloc: Global, name: &Name, span: &Span) -> Result<Value, Stop>
    ensures { (s : State) → IsReturn result s (answer (hash_value name.now span.now) s) }
{
    stopped(hash_value(alloc, name, span))
}

#[inline(never)]
pub(crate) fn of_important(alloc: Global) -> Result<Value, Stop>
    ensures { (s : State) → IsReturn result s (Gives (important_value, s)) }
{
    Ok(important_value(alloc)?)
}

// A list of these values.
#[inline(never)]
pub(crate) fn of_items(
    alloc: Global,
    values: List<Value>,
    separator: Separator,
    around: Around,
    span: &Span,
) -> Result<Value, Stop>
    ensures { (s : State) → IsReturn result s (answer (list_value values separator around span.now) s) }
{
    stopped(list_value(alloc, values, separator, around, span))
}
