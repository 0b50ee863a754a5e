// Values that built-in functions make.
ghost use Rattle.std.specs.Prelude.{◌≡◌, IfOk};
ghost use Rattle.sw_units.specs.Numbers.{plain};
ghost use Rattle.sw_values.specs.declared.plain.Plain.TheVariants as P;
ghost use Rattle.sw_values.specs.Shape.{plain_of};
ghost use Rattle.sw_fn_call.specs.Answers.{IsAnswer, within, unitless, count as count_of, ordinal as ordinal_of};

use crate::FnFault;
use std::alloc::Global;
use sw_fixed::Fixed;
use sw_text::{List, Memory, Name, Shared};
use sw_units::{UnitNames, Units};
use sw_values::{Node, Separator, Value, ValueFault};

/// A number that is no quotient with sides.
pub fn number(value: Fixed, units: &Units) -> Result<Value, Memory>
    ensures { IfOk result (λ number. number ≡ P.Number (plain units.now value)) }
{
    Ok(Value::number(value, units.share()?))
}

fn unitless() -> Units
    ensures { result ≡ unitless }
{
    Units {
        over: UnitNames::Empty,
        under: UnitNames::Empty,
    }
}

/// A count, as a number without units.
pub fn count(n: usize) -> Value
    ensures { result ≡ count_of n }
{
    Value::number(Fixed::from_mantissa(n as i128 * 10_000_000_000), unitless())
}

/// A place that is counted from 0, as a number that is counted from 1; null where there is none.
pub fn ordinal(at: Option<usize>) -> Value
    ensures { result ≡ ordinal_of at }
{
    match at {
        Some(at) => {
            let number = at as i128 + 1;
            Value::number(Fixed::from_mantissa(number * 10_000_000_000), unitless())
        }
        None => Value::null(),
    }
}

/// The value of a node, unless it is too heavy or too deep.
pub fn within(node: Node) -> Result<Value, FnFault>
    ensures { IsAnswer result (within (plain_of node)) }
{
    match Value::of(node) {
        Ok(value) => Ok(value),
        Err(ValueFault::TooLarge) => Err(FnFault::TooLarge),
        Err(ValueFault::NotCss) => unreachable!(),
        Err(ValueFault::DuplicateKey(_)) => unreachable!(),
        Err(ValueFault::Memory) => Err(FnFault::Memory),
    }
}

/// A string, unless it is too heavy. Its text isn't copied.
pub fn string(text: Name, quoted: bool) -> Result<Value, FnFault>
    ensures { IsAnswer result (within (P.Text text quoted)) }
{
    within(Node::Text { text, quoted })
}

/// A string of a copy of a text, unless it is too heavy.
pub fn text(alloc: Global, text: &str, quoted: bool) -> Result<Value, FnFault>
    ensures { IsAnswer result (within (P.Text text.now quoted)) }
{
    string(Name::new(alloc, text)?, quoted)
}

/// A list, unless it is too heavy or too deep.
pub fn list(
    alloc: Global,
    items: List<Value>,
    separator: Separator,
    bracketed: bool,
) -> Result<Value, FnFault>
    ensures { IsAnswer result (within (P.List items separator bracketed)) }
{
    let items = Shared::new(alloc, items)?;
    within(Node::List {
        items,
        separator,
        bracketed,
    })
}
