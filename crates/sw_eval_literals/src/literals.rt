// What literals stand for.
ghost use Rattle.std.specs.Prelude.{◌≡◌, IfOk};
ghost use Rattle.sw_eval_literals.specs.Answers.{Returns};
ghost use Rattle.sw_eval_literals.specs.Literals.{unit_names, units_of, number_value, string_value, colour_or, word_value, hash_value, constant_value, important_value};

use crate::making::within;
use crate::refused::{Refused, fails};
use std::alloc::Global;
use sw_colour::Colour;
use sw_text::{FaultCode, Memory, Name, Span};
use sw_tree::{Constant, Number};
use sw_units::{UnitNames, Units};
use sw_values::{Node, Value};

// ---- numbers

fn unit_names(unit: &Name) -> Result<UnitNames, Memory>
    ensures { IfOk result (λ names. names ≡ unit_names unit.now) }
{
    match unit.as_str().as_bytes() {
        [] => Ok(UnitNames::Empty),
        [_, ..] => Ok(UnitNames::One(unit.share()?)),
    }
}

fn units_of(unit: &Name) -> Result<Units, Memory>
    ensures { IfOk result (λ units. units ≡ units_of unit.now) }
{
    Ok(Units {
        over: unit_names(unit)?,
        under: UnitNames::Empty,
    })
}

/// The value of a number that the sheet writes here; `NumberRange` where it is beyond the greatest.
#[tactic(auto, unfolding(crate::specs::Literals::number_value))]
#[inline(always)]
pub fn number_value(number: &Number, span: &Span) -> Result<Value, Refused>
    ensures { Returns result (number_value number.now span.now) }
{
    match number.value {
        Some(value) => Ok(Value::number(value, units_of(&number.unit)?)),
        None => fails(FaultCode::NumberRange, span),
    }
}

// ---- strings

/// A string of this whole text, which stands here; `TooLarge` where it is too heavy.
#[tactic(auto, unfolding(crate::specs::Literals::string_value))]
pub fn string_value(text: Name, quoted: bool, span: &Span) -> Result<Value, Refused>
    ensures { Returns result (string_value text quoted span.now) }
{
    within(Node::Text { text, quoted }, span)
}

#[tactic(auto, using(crate::proofs::Limits::colour_is_within))]
fn colour_or(colour: Option<Colour>, text: &Name, span: &Span) -> Result<Value, Refused>
    ensures { Returns result (colour_or colour text.now span.now) }
{
    match colour {
        Some(colour) => within(Node::Colour(colour), span),
        None => string_value(text.share()?, false, span),
    }
}

/// The value of an unquoted word in which no value stands: the colour of that name in any case, spelt as the word is,
/// else a string.
#[tactic(auto, unfolding(crate::specs::Literals::word_value))]
pub fn word_value(alloc: Global, text: &Name, span: &Span) -> Result<Value, Refused>
    ensures { Returns result (word_value text.now span.now) }
{
    colour_or(Colour::by_name(alloc, text.as_str())?, text, span)
}

/// The value of `#` and what stands directly behind it: a colour by its 3, 4, 6 or 8 hex digits, else a string.
#[tactic(auto, unfolding(crate::specs::Literals::hash_value))]
pub fn hash_value(alloc: Global, text: &Name, span: &Span) -> Result<Value, Refused>
    ensures { Returns result (hash_value text.now span.now) }
{
    colour_or(Colour::from_hex(alloc, text.as_str())?, text, span)
}

// ---- constants

/// Takes no memory.
#[inline(always)]
pub fn constant_value(constant: Constant) -> Value
    ensures { result ≡ constant_value constant }
{
    match constant {
        Constant::True => Value::of_truth(true),
        Constant::False => Value::of_truth(false),
        Constant::Null => Value::null(),
    }
}

/// The value of `!important`: a string without quotes.
#[inline(always)]
pub fn important_value(alloc: Global) -> Result<Value, Memory>
    ensures { IfOk result (λ value. value ≡ important_value) }
{
    let text = Name::new(alloc, "!important")?;
    match Value::of(Node::Text {
        text,
        quoted: false,
    }) {
        Ok(value) => Ok(value),
        Err(_) => Err(Memory),
    }
}
