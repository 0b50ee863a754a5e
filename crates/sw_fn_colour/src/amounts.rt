// Numbers as amounts of a colour's parts.
ghost use Rattle.std.specs.Prelude.{◌≡◌, ◌<◌, ◌≤◌, ◌≤ℤ◌, pos, unsigned_abs, Some, Ok, IfOk};
ghost use Rattle.sw_fn_call.specs.Answers.{with};
ghost use Rattle.sw_fn_call.specs.Kinds.{number_of as number_in};
ghost use Rattle.sw_colour.specs.Hues.{hundred};
ghost use Rattle.sw_colour.specs.Changes.{IsPart};
ghost use Rattle.sw_fn_colour.specs.Amounts.{is_percent, of_channel, of_one, channel_amount, alpha_amount, percent_amount, value_of, turned, degrees, hue_amount, amount_of, up_to, part_amount, given, weight_of, opacity_of, optional, optional_part, is_null};

use sw_fixed::{Fixed, NumberFault, SCALE, nearest_natural};
use sw_fn_call::{FnFault, fault_of, number_of};
use sw_text::Name;
use sw_units::{Family, Measure, Number, UnitNames, Units, measure_of};
use sw_values::{Node, Value};

/// A hundred percent.
const HUNDRED: u128 = 100 * SCALE;

/// What a number is an amount of.
#[derive(Clone, Copy)]
pub(crate) enum Amount {
    /// Red, green or blue: a number, or percents of 255.
    Channel,
    /// A number, or percents of 1.
    Alpha,
    /// Saturation or lightness, in percent.
    Percent,
    /// In degrees.
    Hue,
}

// ---- percents

fn is_percent(units: &Units) -> bool
    ensures { result ≡ is_percent units.now }
{
    match (&units.over, &units.under) {
        (UnitNames::One(unit), UnitNames::Empty) => unit.as_str() == "%",
        _ => false,
    }
}

fn of_channel(percent: Fixed) -> Fixed
    ensures { result ≡ of_channel percent }
{
    let mantissa = percent.mantissa();
    let size = mantissa.unsigned_abs().min(HUNDRED);
    Fixed::of_magnitude(mantissa < 0, nearest_natural(size * 255, 100))
}

fn of_one(percent: Fixed) -> Fixed
    ensures { result ≡ of_one percent }
{
    let mantissa = percent.mantissa();
    Fixed::of_magnitude(mantissa < 0, nearest_natural(mantissa.unsigned_abs(), 100))
}

// ---- the amounts

fn channel_amount(number: &Number) -> Result<Fixed, FnFault>
    ensures { result ≡ channel_amount number.now }
{
    if number.units.is_unitless() {
        return Ok(number.value);
    }
    if is_percent(&number.units) {
        return Ok(of_channel(number.value));
    }
    Err(FnFault::ArgumentFault)
}

fn alpha_amount(number: &Number) -> Result<Fixed, FnFault>
    ensures { result ≡ alpha_amount number.now }
{
    if number.units.is_unitless() {
        return Ok(number.value);
    }
    if is_percent(&number.units) {
        return Ok(of_one(number.value));
    }
    Err(FnFault::ArgumentFault)
}

fn percent_amount(number: &Number) -> Result<Fixed, FnFault>
    ensures { result ≡ percent_amount number.now }
{
    if number.units.is_unitless() {
        return Ok(number.value);
    }
    if is_percent(&number.units) {
        return Ok(number.value);
    }
    Err(FnFault::ArgumentFault)
}

fn value_of(value: Result<Fixed, NumberFault>) -> Result<Fixed, FnFault>
    ensures { result ≡ value_of value }
{
    match value {
        Ok(value) => Ok(value),
        Err(fault) => Err(fault_of(fault)),
    }
}

// A number of what so many make a turn, or of another family's unit, as a hue.
fn turned(value: Fixed, found: Measure) -> Result<Fixed, FnFault>
    requires { 0 < found.count }
    ensures { result ≡ turned value found.count found.family }
{
    match found.family {
        Family::Length => Ok(value),
        Family::Angle => value_of(value.scaled(360, found.count as u64)),
        Family::Time => Ok(value),
        Family::Frequency => Ok(value),
        Family::Resolution => Ok(value),
    }
}

fn degrees(value: Fixed, unit: &Name) -> Result<Fixed, FnFault>
    ensures { result ≡ degrees value unit.now }
{
    if unit.as_str() == "rad" {
        return Err(FnFault::ArgumentFault);
    }
    match measure_of(unit) {
        Some(found) => turned(value, found),
        None => Ok(value),
    }
}

fn hue_amount(number: &Number) -> Result<Fixed, FnFault>
    ensures { result ≡ hue_amount number.now }
{
    match (&number.units.over, &number.units.under) {
        (UnitNames::One(unit), UnitNames::Empty) => degrees(number.value, unit),
        _ => Ok(number.value),
    }
}

/// The amount that a number is; `ArgumentFault` where it has other units than that takes.
#[tactic(auto, unfolding(crate::specs::Amounts::amount_of))]
pub(crate) fn amount_of(amount: Amount, number: &Number) -> Result<Fixed, FnFault>
    ensures { result ≡ amount_of amount number.now }
{
    match amount {
        Amount::Channel => channel_amount(number),
        Amount::Alpha => alpha_amount(number),
        Amount::Percent => percent_amount(number),
        Amount::Hue => hue_amount(number),
    }
}

// ---- amounts with bounds

// A number from 0 to a top.
fn up_to(top: u128, value: Fixed) -> Result<Fixed, FnFault>
    ensures value { result ≡ up_to top value }
    ensures within { IfOk result (λ amount. (pos 0 ≤ℤ amount) × (amount ≤ℤ pos top)) }
{
    let mantissa = value.mantissa();
    if mantissa < 0 {
        return Err(FnFault::ArgumentFault);
    }
    if mantissa.unsigned_abs() <= top {
        Ok(value)
    } else {
        Err(FnFault::ArgumentFault)
    }
}

fn part_amount(number: &Number) -> Result<Fixed, FnFault>
    ensures value { result ≡ part_amount number.now }
    ensures within { IfOk result (λ part. unsigned_abs part ≤ hundred) }
{
    if !is_percent(&number.units) {
        return Err(FnFault::ArgumentFault);
    }
    if number.value.mantissa().unsigned_abs() <= HUNDRED {
        Ok(number.value)
    } else {
        Err(FnFault::ArgumentFault)
    }
}

// ---- arguments

/// The amount that an argument is.
#[tactic(auto, unfolding(crate::specs::Amounts::given))]
pub(crate) fn given(amount: Amount, value: &Value) -> Result<Fixed, FnFault>
    ensures { result ≡ given amount value.now }
{
    match number_of(value) {
        Ok(number) => amount_of(amount, number),
        Err(fault) => Err(fault),
    }
}

/// An argument from 0 to a hundred.
#[tactic(auto, unfolding(crate::specs::Amounts::weight_of))]
pub(crate) fn weight_of(value: &Value) -> Result<Fixed, FnFault>
    ensures value { result ≡ weight_of value.now }
    ensures within { IfOk result (λ weight. (pos 0 ≤ℤ weight) × (weight ≤ℤ pos hundred)) }
{
    match number_of(value) {
        Ok(number) => up_to(HUNDRED, number.value),
        Err(fault) => Err(fault),
    }
}

/// An argument that is a part of alpha, from 0 to 1.
#[tactic(auto, unfolding(crate::specs::Amounts::opacity_of))]
pub(crate) fn opacity_of(value: &Value) -> Result<Fixed, FnFault>
    ensures { result ≡ opacity_of value.now }
{
    match given(Amount::Alpha, value) {
        Ok(amount) => up_to(SCALE, amount),
        Err(fault) => Err(fault),
    }
}

fn some_of(amount: Result<Fixed, FnFault>) -> Result<Option<Fixed>, FnFault>
    ensures { result ≡ with amount (λ value. Ok (Some value)) }
{
    match amount {
        Ok(value) => Ok(Some(value)),
        Err(fault) => Err(fault),
    }
}

/// The amount that an argument is; none where it is null.
#[tactic(auto, unfolding(crate::specs::Amounts::optional))]
pub(crate) fn optional(amount: Amount, value: &Value) -> Result<Option<Fixed>, FnFault>
    ensures { result ≡ optional amount value.now }
{
    match value.node() {
        Node::Number(_) => some_of(given(amount, value)),
        Node::Text { .. } => Err(FnFault::TypeFault),
        Node::Colour(_) => Err(FnFault::TypeFault),
        Node::List { .. } => Err(FnFault::TypeFault),
        Node::Map(_) => Err(FnFault::TypeFault),
        Node::Bool(_) => Err(FnFault::TypeFault),
        Node::Null => Ok(None),
        Node::Args { .. } => Err(FnFault::TypeFault),
    }
}

// The part that an argument is.
fn part_of(value: &Value) -> Result<Option<Fixed>, FnFault>
    ensures value { result ≡ with (with (number_in value.now) part_amount) (λ part. Ok (Some part)) }
    ensures within { IfOk result IsPart }
{
    let number = match number_of(value) {
        Ok(number) => number,
        Err(fault) => return Err(fault),
    };
    match part_amount(number) {
        Ok(part) => Ok(Some(part)),
        Err(fault) => Err(fault),
    }
}

/// An argument that is a part of the way, from -100 to 100 percent; none where it is null.
#[tactic(auto, unfolding(crate::specs::Amounts::optional_part))]
pub(crate) fn optional_part(value: &Value) -> Result<Option<Fixed>, FnFault>
    ensures value { result ≡ optional_part value.now }
    ensures within { IfOk result IsPart }
{
    match value.node() {
        Node::Number(_) => part_of(value),
        Node::Text { .. } => Err(FnFault::TypeFault),
        Node::Colour(_) => Err(FnFault::TypeFault),
        Node::List { .. } => Err(FnFault::TypeFault),
        Node::Map(_) => Err(FnFault::TypeFault),
        Node::Bool(_) => Err(FnFault::TypeFault),
        Node::Null => Ok(None),
        Node::Args { .. } => Err(FnFault::TypeFault),
    }
}

pub(crate) fn is_null(value: &Value) -> bool
    ensures { result ≡ is_null value.now }
{
    match value.node() {
        Node::Number(_) => false,
        Node::Text { .. } => false,
        Node::Colour(_) => false,
        Node::List { .. } => false,
        Node::Map(_) => false,
        Node::Bool(_) => false,
        Node::Null => true,
        Node::Args { .. } => false,
    }
}
