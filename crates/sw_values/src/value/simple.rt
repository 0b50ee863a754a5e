// Values without parts, which pass no limit.
ghost use Rattle.std.specs.Prelude.{◌≡◌};
ghost use Rattle.sw_units.specs.Numbers.{plain};
ghost use Rattle.sw_values.specs.declared.plain.Plain.TheVariants as P;

use super::{Node, Value};
use sw_fixed::Fixed;
use sw_units::{Number, Units};

impl Value {
    /// A number that is no quotient with sides. Takes no memory.
    pub fn number(value: Fixed, units: Units) -> Value
        ensures { result ≡ P.Number (plain units value) }
    {
        Value {
            node: Node::Number(Number::plain(value, units)),
            weight: 1,
            nesting: 1,
        }
    }

    /// True or false. Takes no memory.
    pub fn of_truth(truth: bool) -> Value
        ensures { result ≡ P.Bool truth }
    {
        Value {
            node: Node::Bool(truth),
            weight: 1,
            nesting: 1,
        }
    }

    /// Takes no memory.
    pub fn null() -> Value
        ensures { result ≡ P.Null }
    {
        Value {
            node: Node::Null,
            weight: 1,
            nesting: 1,
        }
    }
}
