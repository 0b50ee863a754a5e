// Colours a step away.
ghost use Rattle.sw_fn_call.specs.Answers.{IsAnswer};
ghost use Rattle.sw_fn_colour.specs.Steps.{adjust_hue, lighten, darken, saturate, desaturate, opacify, transparentize};

use crate::amounts::{Amount, given, opacity_of, weight_of};
use crate::changes::hsl_change;
use crate::colours::{colour_of, coloured};
use sw_colour::adjust;
use sw_fn_call::{Argument, FnFault, two};
use sw_values::Value;

pub(crate) fn adjust_hue(args: &[Argument]) -> Result<Value, FnFault>
    ensures { IsAnswer result (adjust_hue args.now) }
{
    let (colour, degrees) = two(args)?;
    let colour = colour_of(colour)?;
    let degrees = given(Amount::Hue, degrees)?;
    coloured(adjust(colour, &hsl_change(Some(degrees), None, None, None)))
}

pub(crate) fn lighten(args: &[Argument]) -> Result<Value, FnFault>
    ensures { IsAnswer result (lighten args.now) }
{
    let (colour, amount) = two(args)?;
    let colour = colour_of(colour)?;
    let amount = weight_of(amount)?;
    coloured(adjust(colour, &hsl_change(None, None, Some(amount), None)))
}

pub(crate) fn darken(args: &[Argument]) -> Result<Value, FnFault>
    ensures { IsAnswer result (darken args.now) }
{
    let (colour, amount) = two(args)?;
    let colour = colour_of(colour)?;
    let amount = weight_of(amount)?;
    let by = hsl_change(None, None, Some(amount.negate()), None);
    coloured(adjust(colour, &by))
}

pub(crate) fn saturate(args: &[Argument]) -> Result<Value, FnFault>
    ensures { IsAnswer result (saturate args.now) }
{
    let (colour, amount) = two(args)?;
    let colour = colour_of(colour)?;
    let amount = weight_of(amount)?;
    coloured(adjust(colour, &hsl_change(None, Some(amount), None, None)))
}

pub(crate) fn desaturate(args: &[Argument]) -> Result<Value, FnFault>
    ensures { IsAnswer result (desaturate args.now) }
{
    let (colour, amount) = two(args)?;
    let colour = colour_of(colour)?;
    let amount = weight_of(amount)?;
    let by = hsl_change(None, Some(amount.negate()), None, None);
    coloured(adjust(colour, &by))
}

pub(crate) fn opacify(args: &[Argument]) -> Result<Value, FnFault>
    ensures { IsAnswer result (opacify args.now) }
{
    let (colour, amount) = two(args)?;
    let colour = colour_of(colour)?;
    let amount = opacity_of(amount)?;
    coloured(adjust(colour, &hsl_change(None, None, None, Some(amount))))
}

pub(crate) fn transparentize(args: &[Argument]) -> Result<Value, FnFault>
    ensures { IsAnswer result (transparentize args.now) }
{
    let (colour, amount) = two(args)?;
    let colour = colour_of(colour)?;
    let amount = opacity_of(amount)?;
    let by = hsl_change(None, None, None, Some(amount.negate()));
    coloured(adjust(colour, &by))
}
