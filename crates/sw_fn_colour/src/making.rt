// Colours that are made of numbers.
ghost use Rattle.std.specs.Prelude.{◌≡◌, pos, Ok, Err, MatchResult};
ghost use Rattle.sw_colour.specs.Colours.{computed};
ghost use Rattle.sw_fn_call.specs.Answers.{IsAnswer};
ghost use Rattle.sw_fn_colour.specs.Making.{first_amount, other_amount, made, of_four, is_spaced, three_items as three_of, items_of as items_in, before_slash, alpha_behind, of_list, with_alpha, rgb, hsl};

use crate::amounts::{Amount, amount_of, given};
use crate::changes::{changed, hsl_change, rgb_change};
use crate::colours::{colour_of, coloured};
use sw_colour::Colour;
use sw_fixed::Fixed;
use sw_fn_call::{Argument, FnFault, number_of};
use sw_units::{Number, Slash};
use sw_values::{Node, Separator, Value};

/// The three parts that a colour is made of.
#[derive(Clone, Copy)]
pub(crate) enum Form {
    RedGreenBlue,
    HueSaturationLightness,
}

// ---- three numbers and alpha

fn first_amount(form: Form) -> Amount
    ensures { result ≡ first_amount form }
{
    match form {
        Form::RedGreenBlue => Amount::Channel,
        Form::HueSaturationLightness => Amount::Hue,
    }
}

fn other_amount(form: Form) -> Amount
    ensures { result ≡ other_amount form }
{
    match form {
        Form::RedGreenBlue => Amount::Channel,
        Form::HueSaturationLightness => Amount::Percent,
    }
}

// Black without alpha, whose parts are all set.
fn nothing() -> Colour
    ensures { result ≡ computed 0 0 0 (pos 0) }
{
    Colour::from_rgb(0, 0, 0, Fixed::from_mantissa(0))
}

fn made(
    form: Form,
    first: Fixed,
    second: Fixed,
    third: Fixed,
    alpha: Fixed,
) -> Result<Value, FnFault>
    ensures { IsAnswer result (made form first second third alpha) }
{
    let (first, second, third, alpha) = (Some(first), Some(second), Some(third), Some(alpha));
    match form {
        Form::RedGreenBlue => {
            let by = rgb_change(first, second, third, alpha);
            coloured(changed(&nothing(), &by))
        }
        Form::HueSaturationLightness => {
            let by = hsl_change(first, second, third, alpha);
            coloured(changed(&nothing(), &by))
        }
    }
}

#[tactic(auto, unfolding(crate::specs::Making::of_four))]
fn of_four(
    form: Form,
    first: &Value,
    second: &Value,
    third: &Value,
    alpha: &Value,
) -> Result<Value, FnFault>
    ensures { IsAnswer result (of_four form first.now second.now third.now alpha.now) }
{
    let first = given(first_amount(form), first)?;
    let second = given(other_amount(form), second)?;
    let third = given(other_amount(form), third)?;
    let alpha = given(Amount::Alpha, alpha)?;
    made(form, first, second, third, alpha)
}

// ---- a list of three numbers

fn is_spaced(separator: Separator) -> bool
    ensures { result ≡ is_spaced separator }
{
    match separator {
        Separator::Undecided => false,
        Separator::Space => true,
        Separator::Comma => false,
        Separator::Slash => false,
    }
}

fn three_items(items: &[Value]) -> Result<(&Value, &Value, &Value), FnFault>
    ensures { MatchResult result (λ found. three_of items.now ≡ Ok (found.0.now, found.1.now, found.2.now))
        (λ fault. three_of items.now ≡ Err fault) }
{
    match items {
        [first, second, third] => Ok((first, second, third)),
        _ => Err(FnFault::ArgumentFault),
    }
}

// The three items of a space list without brackets.
#[tactic(auto, unfolding(crate::specs::Making::items_of))]
fn items_of(value: &Value) -> Result<(&Value, &Value, &Value), FnFault>
    ensures { MatchResult result (λ items. items_in value.now ≡ Ok (items.0.now, items.1.now, items.2.now))
        (λ fault. items_in value.now ≡ Err fault) }
{
    match value.node() {
        Node::Number(_) => Err(FnFault::TypeFault),
        Node::Text { .. } => Err(FnFault::TypeFault),
        Node::Colour(_) => Err(FnFault::TypeFault),
        Node::List {
            items,
            separator,
            bracketed,
        } => {
            if is_spaced(*separator) && !*bracketed {
                three_items(items.get().as_slice())
            } else {
                Err(FnFault::ArgumentFault)
            }
        }
        Node::Map(_) => Err(FnFault::TypeFault),
        Node::Bool(_) => Err(FnFault::TypeFault),
        Node::Null => Err(FnFault::TypeFault),
        Node::Args { .. } => Err(FnFault::TypeFault),
    }
}

// The number, or the left side of a quotient that keeps its sides.
#[tactic(auto, unfolding(crate::specs::Making::before_slash))]
fn before_slash(number: &Number) -> &Number
    ensures { result.now ≡ before_slash number.now }
{
    match &number.slash {
        Slash::Plain => number,
        Slash::Sides(sides) => &sides.get().0,
    }
}

// Its right side as alpha, or 1.
#[tactic(auto, unfolding(crate::specs::Making::alpha_behind))]
fn alpha_behind(number: &Number) -> Result<Fixed, FnFault>
    ensures { result ≡ alpha_behind number.now }
{
    match &number.slash {
        Slash::Plain => Ok(Fixed::from_whole(1)),
        Slash::Sides(sides) => amount_of(Amount::Alpha, &sides.get().1),
    }
}

#[tactic(auto, unfolding(crate::specs::Making::of_list))]
fn of_list(form: Form, channels: &Value) -> Result<Value, FnFault>
    ensures { IsAnswer result (of_list form channels.now) }
{
    let (first, second, last) = items_of(channels)?;
    let first = given(first_amount(form), first)?;
    let second = given(other_amount(form), second)?;
    let last = number_of(last)?;
    let third = amount_of(other_amount(form), before_slash(last))?;
    let alpha = alpha_behind(last)?;
    made(form, first, second, third, alpha)
}

// ---- the functions

// A colour with another alpha.
#[tactic(auto, unfolding(crate::specs::Making::with_alpha))]
fn with_alpha(colour: &Value, alpha: &Value) -> Result<Value, FnFault>
    ensures { IsAnswer result (with_alpha colour.now alpha.now) }
{
    let colour = colour_of(colour)?;
    let alpha = given(Amount::Alpha, alpha)?;
    let by = rgb_change(None, None, None, Some(alpha));
    coloured(changed(colour, &by))
}

pub(crate) fn rgb(args: &[Argument]) -> Result<Value, FnFault>
    ensures { IsAnswer result (rgb args.now) }
{
    match args {
        [channels] => of_list(Form::RedGreenBlue, &channels.1),
        [colour, alpha] => with_alpha(&colour.1, &alpha.1),
        [red, green, blue, alpha] => {
            of_four(Form::RedGreenBlue, &red.1, &green.1, &blue.1, &alpha.1)
        }
        _ => Err(FnFault::ArgumentFault),
    }
}

pub(crate) fn hsl(args: &[Argument]) -> Result<Value, FnFault>
    ensures { IsAnswer result (hsl args.now) }
{
    match args {
        [channels] => of_list(Form::HueSaturationLightness, &channels.1),
        [hue, saturation, lightness, alpha] => of_four(
            Form::HueSaturationLightness,
            &hue.1,
            &saturation.1,
            &lightness.1,
            &alpha.1,
        ),
        _ => Err(FnFault::ArgumentFault),
    }
}
