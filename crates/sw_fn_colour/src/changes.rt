// Colours with other parts.
ghost use Rattle.std.specs.Prelude.{◌≡◌, ◌&&◌, false, IfOk, Ok, Err, MatchResult};
ghost use Rattle.sw_colour.specs.Colours.{IsAlpha};
ghost use Rattle.sw_colour.specs.Changes.{names_rgb, names_hsl, IsOfOneModel, IsPart, IsScale};
ghost use Rattle.sw_fn_call.specs.Answers.{IsAnswer};
ghost use Rattle.sw_fn_colour.specs.Changes.{rgb_change, hsl_change, set_number, set_hsl, emptied_channel, emptied_alpha, emptied, changed, first_colour as first_colour_of, three_amounts, three_parts, change_by, amounts_of as amounts_in, parts_of as parts_in, is_of_both_models, amounts_of_one as amounts_of_model, parts_of_one as parts_of_model, adjust, scale, change, complement, grayscale};

use crate::amounts::{Amount, is_null, optional, optional_part};
use crate::colours::{colour_of, coloured, one_colour};
use sw_colour::{Change, Colour, Hsl};
use sw_fixed::Fixed;
use sw_fn_call::{Argument, FnFault};
use sw_values::Value;

// ---- changes of some parts

pub(crate) fn rgb_change(
    red: Option<Fixed>,
    green: Option<Fixed>,
    blue: Option<Fixed>,
    alpha: Option<Fixed>,
) -> Change
    ensures { result ≡ rgb_change red green blue alpha }
{
    Change {
        red,
        green,
        blue,
        hue: None,
        saturation: None,
        lightness: None,
        alpha,
    }
}

pub(crate) fn hsl_change(
    hue: Option<Fixed>,
    saturation: Option<Fixed>,
    lightness: Option<Fixed>,
    alpha: Option<Fixed>,
) -> Change
    ensures { result ≡ hsl_change hue saturation lightness alpha }
{
    Change {
        red: None,
        green: None,
        blue: None,
        hue,
        saturation,
        lightness,
        alpha,
    }
}

// ---- parts that are set

fn set_number(old: Fixed, number: Option<Fixed>) -> Fixed
    ensures { result ≡ set_number old number }
{
    match number {
        Some(number) => number,
        None => old,
    }
}

fn set_hsl(hsl: Hsl, by: &Change, alpha: Fixed) -> Colour
    requires { IsAlpha alpha }
    ensures { result ≡ set_hsl hsl by.now alpha }
{
    let hsl = Hsl {
        hue: set_number(hsl.hue, by.hue),
        saturation: set_number(hsl.saturation, by.saturation),
        lightness: set_number(hsl.lightness, by.lightness),
    };
    Colour::from_hsl(&hsl, alpha)
}

fn emptied_channel(channel: u8, set: Option<Fixed>) -> u8
    ensures { result ≡ emptied_channel channel set }
{
    match set {
        Some(_) => 0,
        None => channel,
    }
}

fn emptied_alpha(alpha: Fixed, set: Option<Fixed>) -> Fixed
    requires { IsAlpha alpha }
    ensures value { result ≡ emptied_alpha alpha set }
    ensures within { IsAlpha result }
{
    match set {
        Some(_) => Fixed::from_mantissa(0),
        None => alpha,
    }
}

fn emptied(colour: &Colour, by: &Change) -> Colour
    ensures { result ≡ emptied colour.now by.now }
{
    Colour::from_rgb(
        emptied_channel(colour.red(), by.red),
        emptied_channel(colour.green(), by.green),
        emptied_channel(colour.blue(), by.blue),
        emptied_alpha(colour.alpha(), by.alpha),
    )
}

/// A colour with these parts in the place of its own, clamped.
#[tactic(auto, unfolding(crate::specs::Changes::changed))]
pub(crate) fn changed(colour: &Colour, by: &Change) -> Colour
    requires { IsOfOneModel by.now }
    ensures { result ≡ changed colour.now by.now }
{
    if by.names_hsl() {
        let alpha = emptied_alpha(colour.alpha(), by.alpha);
        let turned = set_hsl(colour.to_hsl(), by, alpha);
        return sw_colour::adjust(&turned, &hsl_change(None, None, None, by.alpha));
    }
    sw_colour::adjust(&emptied(colour, by), by)
}

// ---- the arguments of a change

#[tactic(auto, unfolding(crate::specs::Changes::first_colour))]
fn first_colour(args: &[Argument]) -> Result<&Colour, FnFault>
    ensures { MatchResult result (λ colour. first_colour_of args.now ≡ Ok colour.now)
        (λ fault. first_colour_of args.now ≡ Err fault) }
{
    match args {
        [colour, _, _, _, _, _, _, _] => colour_of(&colour.1),
        _ => Err(FnFault::ArgumentFault),
    }
}

// Three parts that belong together, of which none has to be given.
#[derive(Clone, Copy)]
struct Three {
    first: Option<Fixed>,
    second: Option<Fixed>,
    third: Option<Fixed>,
}

#[tactic(auto, unfolding(crate::specs::Changes::three_amounts))]
fn three_amounts(
    amount: Amount,
    others: Amount,
    first: &Value,
    second: &Value,
    third: &Value,
) -> Result<Three, FnFault>
    ensures { result ≡ three_amounts amount others first.now second.now third.now }
{
    let first = optional(amount, first)?;
    let second = optional(others, second)?;
    let third = optional(others, third)?;
    Ok(Three {
        first,
        second,
        third,
    })
}

#[tactic(auto, unfolding(crate::specs::Changes::three_parts))]
fn three_parts(first: &Value, second: &Value, third: &Value) -> Result<Three, FnFault>
    ensures value { result ≡ three_parts first.now second.now third.now }
    ensures within { IfOk result (λ three. IsPart three.first × IsPart three.second × IsPart three.third) }
{
    let first = optional_part(first)?;
    let second = optional_part(second)?;
    let third = optional_part(third)?;
    Ok(Three {
        first,
        second,
        third,
    })
}

fn change_by(rgb: Three, hsl: Three, alpha: Option<Fixed>) -> Change
    ensures { result ≡ change_by rgb hsl alpha }
{
    Change {
        red: rgb.first,
        green: rgb.second,
        blue: rgb.third,
        hue: hsl.first,
        saturation: hsl.second,
        lightness: hsl.third,
        alpha,
    }
}

#[tactic(auto, unfolding(crate::specs::Changes::amounts_of))]
fn amounts_of(args: &[Argument]) -> Result<Change, FnFault>
    ensures { result ≡ amounts_in args.now }
{
    match args {
        [_, red, green, blue, hue, saturation, lightness, alpha] => {
            let channel = Amount::Channel;
            let percent = Amount::Percent;
            let rgb = three_amounts(channel, channel, &red.1, &green.1, &blue.1)?;
            let hsl = three_amounts(Amount::Hue, percent, &hue.1, &saturation.1, &lightness.1)?;
            let alpha = optional(Amount::Alpha, &alpha.1)?;
            Ok(change_by(rgb, hsl, alpha))
        }
        _ => Err(FnFault::ArgumentFault),
    }
}

#[tactic(auto, unfolding(crate::specs::Changes::parts_of))]
fn parts_of(args: &[Argument]) -> Result<Change, FnFault>
    ensures value { result ≡ parts_in args.now }
    ensures parts { IfOk result IsScale }
{
    match args {
        [_, red, green, blue, hue, saturation, lightness, alpha] => {
            let rgb = three_parts(&red.1, &green.1, &blue.1)?;
            if !is_null(&hue.1) {
                return Err(FnFault::ArgumentFault);
            }
            let others = three_parts(&saturation.1, &lightness.1, &alpha.1)?;
            let hsl = Three {
                first: None,
                second: others.first,
                third: others.second,
            };
            Ok(change_by(rgb, hsl, others.third))
        }
        _ => Err(FnFault::ArgumentFault),
    }
}

fn names_rgb(by: &Change) -> bool
    ensures { result ≡ names_rgb by.now }
{
    by.red.is_some() || by.green.is_some() || by.blue.is_some()
}

fn is_of_both_models(by: &Change) -> bool
    ensures { result ≡ is_of_both_models by.now }
{
    names_rgb(by) && by.names_hsl()
}

#[tactic(auto, unfolding(crate::specs::Changes::amounts_of_one))]
fn amounts_of_one(args: &[Argument]) -> Result<Change, FnFault>
    ensures value { result ≡ amounts_of_model args.now }
    ensures model { IfOk result IsOfOneModel }
{
    let by = amounts_of(args)?;
    if is_of_both_models(&by) {
        return Err(FnFault::ArgumentFault);
    }
    Ok(by)
}

#[tactic(auto, unfolding(crate::specs::Changes::parts_of_one))]
fn parts_of_one(args: &[Argument]) -> Result<Change, FnFault>
    ensures value { result ≡ parts_of_model args.now }
    ensures model { IfOk result IsOfOneModel }
    ensures parts { IfOk result IsScale }
{
    let by = parts_of(args)?;
    if is_of_both_models(&by) {
        return Err(FnFault::ArgumentFault);
    }
    Ok(by)
}

// ---- the functions

pub(crate) fn adjust(args: &[Argument]) -> Result<Value, FnFault>
    ensures { IsAnswer result (adjust args.now) }
{
    let colour = first_colour(args)?;
    let by = amounts_of_one(args)?;
    coloured(sw_colour::adjust(colour, &by))
}

pub(crate) fn scale(args: &[Argument]) -> Result<Value, FnFault>
    ensures { IsAnswer result (scale args.now) }
{
    let colour = first_colour(args)?;
    let by = parts_of_one(args)?;
    coloured(sw_colour::scale(colour, &by))
}

pub(crate) fn change(args: &[Argument]) -> Result<Value, FnFault>
    ensures { IsAnswer result (change args.now) }
{
    let colour = first_colour(args)?;
    let by = amounts_of_one(args)?;
    coloured(changed(colour, &by))
}

pub(crate) fn complement(args: &[Argument]) -> Result<Value, FnFault>
    ensures { IsAnswer result (complement args.now) }
{
    let colour = one_colour(args)?;
    let by = hsl_change(Some(Fixed::from_whole(180)), None, None, None);
    coloured(sw_colour::adjust(colour, &by))
}

pub(crate) fn grayscale(args: &[Argument]) -> Result<Value, FnFault>
    ensures { IsAnswer result (grayscale args.now) }
{
    let colour = one_colour(args)?;
    let by = hsl_change(None, Some(Fixed::from_mantissa(0)), None, None);
    coloured(changed(colour, &by))
}
