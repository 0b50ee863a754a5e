// Calls on colours: `colour #F00` gives it as it is computed, `literal #F00` as it is spelt, `hsl #f00` its hue,
// saturation and lightness, `of_hsl 0 100 50` the colour of these, and `mix #f00 ; #00f ; 50`,
// `adjust #f00 ; hue 20, alpha -0.5` and `scale #f00 ; red -15` what is made of it.
ghost use Rattle.std.specs.Prelude.{IfOk};
ghost use Rattle.sw_colour.specs.Changes.{IsPart};
ghost use Rattle.sw_colour.specs.Colours.{IsAlpha};

use crate::decimals::{decimal, written};
use std::alloc::Global;
use sw_colour::{Change, Colour, Hsl, adjust, mix, scale};
use sw_fixed::Fixed;
use sw_rows_files::{Refusal, text_of, yes_or_no};

// One, and a hundred, as mantissas.
const ONE: i128 = 10_000_000_000;

const HUNDRED: i128 = 1_000_000_000_000;

/// What a call on colours gives, or the fault's name, as `NotColour` where a text is no colour. `NoCall` for another
/// name, or a text that isn't of the call's form; `Memory` exactly where none was found.
pub fn answer(alloc: Global, name: &str, text: &str) -> Result<String, Refusal> {
    let (left, right) = text.split_once(" ; ").unwrap_or((text, ""));
    match name {
        "named" => shown(alloc, &found(alloc, Colour::by_name(alloc, text)?)?),
        "hex" => shown(alloc, &found(alloc, Colour::from_hex(alloc, text)?)?),
        "of_hsl" => shown(alloc, &of_hsl(alloc, text)?),
        "equal" | "same" => compared(alloc, name, left, right),
        "mix" => mixed(alloc, left, right),
        _ => turned(alloc, name, &colour(alloc, left)?, right),
    }
}

fn turned(alloc: Global, name: &str, colour: &Colour, text: &str) -> Result<String, Refusal> {
    match name {
        "colour" => shown(alloc, colour),
        "literal" => spelt(alloc, &colour.share()?),
        "hsl" => hsl(alloc, colour),
        "adjust" => shown(alloc, &adjusted(alloc, colour, text)?),
        "scale" => shown(alloc, &scaled(alloc, colour, text)?),
        _ => Err(Refusal::NoCall),
    }
}

fn found(alloc: Global, colour: Option<Colour>) -> Result<Colour, Refusal> {
    match colour {
        Some(colour) => Ok(colour),
        None => Err(Refusal::named(alloc, "NotColour")?),
    }
}

// A hex form, a name, or three channels and alpha: `255 0 0 0.5`.
fn colour(alloc: Global, text: &str) -> Result<Colour, Refusal> {
    if let Some((channels, alpha)) = text.rsplit_once(' ') {
        of_channels(alloc, channels, alpha)
    } else if text.starts_with('#') {
        found(alloc, Colour::from_hex(alloc, text)?)
    } else {
        found(alloc, Colour::by_name(alloc, text)?)
    }
}

fn of_channels(alloc: Global, channels: &str, alpha: &str) -> Result<Colour, Refusal> {
    let (red, rest) = channels.split_once(' ').unwrap_or((channels, ""));
    let (green, blue) = rest.split_once(' ').unwrap_or((rest, ""));
    let (red, green, blue) = (
        red.parse::<u8>()?,
        green.parse::<u8>()?,
        blue.parse::<u8>()?,
    );
    let alpha = alpha_of(alloc, alpha)?;
    Ok(Colour::from_rgb(red, green, blue, alpha))
}

fn alpha_of(alloc: Global, text: &str) -> Result<Fixed, Refusal>
    ensures { IfOk result IsAlpha }
{
    let alpha = decimal(alloc, text)?;
    if alpha.mantissa() < 0 || alpha.mantissa() > ONE {
        return Err(Refusal::NoCall);
    }
    Ok(alpha)
}

fn of_hsl(alloc: Global, text: &str) -> Result<Colour, Refusal> {
    let (hue, rest) = text.split_once(' ').unwrap_or((text, ""));
    let (saturation, lightness) = rest.split_once(' ').unwrap_or((rest, ""));
    let hsl = Hsl {
        hue: decimal(alloc, hue)?,
        saturation: decimal(alloc, saturation)?,
        lightness: decimal(alloc, lightness)?,
    };
    Ok(Colour::from_hsl(&hsl, alpha_of(alloc, "1")?))
}

fn compared(alloc: Global, name: &str, left: &str, right: &str) -> Result<String, Refusal> {
    let left = colour(alloc, left)?;
    let right = colour(alloc, right)?;
    if name == "same" {
        yes_or_no(alloc, left.same(&right))
    } else {
        yes_or_no(alloc, left.equals(&right))
    }
}

fn mixed(alloc: Global, one: &str, rest: &str) -> Result<String, Refusal> {
    let (other, weight) = rest.split_once(" ; ").unwrap_or((rest, ""));
    let weight = decimal(alloc, weight)?;
    if weight.mantissa() < 0 || weight.mantissa() > HUNDRED {
        return Err(Refusal::NoCall);
    }
    let one = colour(alloc, one)?;
    shown(alloc, &mix(&one, &colour(alloc, other)?, weight))
}

// The amount of a part, as of `alpha` in `hue 20, alpha -0.5`.
fn amount(alloc: Global, text: &str, part: &str) -> Result<Option<Fixed>, Refusal> {
    for item in text.split(", ") {
        if let Some((name, amount)) = item.split_once(' ') {
            if name == part {
                return Ok(Some(decimal(alloc, amount)?));
            }
        }
    }
    Ok(None)
}

// The same of an amount from -100 to 100.
fn percent(alloc: Global, text: &str, part: &str) -> Result<Option<Fixed>, Refusal>
    ensures { IfOk result IsPart }
{
    let Some(percent) = amount(alloc, text, part)? else {
        return Ok(None);
    };
    if percent.mantissa() < -HUNDRED || percent.mantissa() > HUNDRED {
        return Err(Refusal::NoCall);
    }
    Ok(Some(percent))
}

// Whether a change is of the channels, and not of hue, saturation or lightness.
fn names_channels(text: &str) -> bool {
    text.contains("red ") || text.contains("green ") || text.contains("blue ")
}

fn adjusted(alloc: Global, colour: &Colour, text: &str) -> Result<Colour, Refusal> {
    let mut by = Change::default();
    by.alpha = amount(alloc, text, "alpha")?;
    if names_channels(text) {
        by.red = amount(alloc, text, "red")?;
        by.green = amount(alloc, text, "green")?;
        by.blue = amount(alloc, text, "blue")?;
    } else {
        by.hue = amount(alloc, text, "hue")?;
        by.saturation = amount(alloc, text, "saturation")?;
        by.lightness = amount(alloc, text, "lightness")?;
    }
    Ok(adjust(colour, &by))
}

fn scaled(alloc: Global, colour: &Colour, text: &str) -> Result<Colour, Refusal> {
    let mut by = Change::default();
    by.alpha = percent(alloc, text, "alpha")?;
    if names_channels(text) {
        by.red = percent(alloc, text, "red")?;
        by.green = percent(alloc, text, "green")?;
        by.blue = percent(alloc, text, "blue")?;
    } else {
        by.saturation = percent(alloc, text, "saturation")?;
        by.lightness = percent(alloc, text, "lightness")?;
    }
    Ok(scale(colour, &by))
}

fn hsl(alloc: Global, colour: &Colour) -> Result<String, Refusal> {
    let hsl = colour.to_hsl();
    let mut text = written(alloc, hsl.hue)?;
    for part in [hsl.saturation, hsl.lightness] {
        text.push(' ')?;
        text.push_str(written(alloc, part)?.as_str())?;
    }
    Ok(text)
}

fn spelt(alloc: Global, colour: &Colour) -> Result<String, Refusal> {
    let mut bytes = Vec::new(alloc);
    colour.write_into(&mut bytes)?;
    text_of(alloc, &bytes)
}

// A colour without its spelling.
fn shown(alloc: Global, colour: &Colour) -> Result<String, Refusal> {
    let computed = Colour::from_rgb(colour.red(), colour.green(), colour.blue(), colour.alpha());
    spelt(alloc, &computed)
}
