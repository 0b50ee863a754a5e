// The parts of a colour as numbers.
ghost use Rattle.sw_fn_call.specs.Answers.{IsAnswer};
ghost use Rattle.sw_fn_colour.specs.Parts.{in_unit, red, green, blue, hue, saturation, lightness, alpha};

use crate::colours::one_colour;
use std::alloc::Global;
use sw_fixed::Fixed;
use sw_fn_call::{Argument, FnFault, count};
use sw_text::Name;
use sw_units::{UnitNames, Units};
use sw_values::Value;

// A number of one unit.
fn in_unit(alloc: Global, unit: &str, value: Fixed) -> Result<Value, FnFault>
    ensures { IsAnswer result (in_unit unit.now value) }
{
    let unit = Name::new(alloc, unit)?;
    let units = Units {
        over: UnitNames::One(unit),
        under: UnitNames::Empty,
    };
    Ok(Value::number(value, units))
}

pub(crate) fn red(args: &[Argument]) -> Result<Value, FnFault>
    ensures { IsAnswer result (red args.now) }
{
    let colour = one_colour(args)?;
    Ok(count(colour.red() as usize))
}

pub(crate) fn green(args: &[Argument]) -> Result<Value, FnFault>
    ensures { IsAnswer result (green args.now) }
{
    let colour = one_colour(args)?;
    Ok(count(colour.green() as usize))
}

pub(crate) fn blue(args: &[Argument]) -> Result<Value, FnFault>
    ensures { IsAnswer result (blue args.now) }
{
    let colour = one_colour(args)?;
    Ok(count(colour.blue() as usize))
}

pub(crate) fn hue(alloc: Global, args: &[Argument]) -> Result<Value, FnFault>
    ensures { IsAnswer result (hue args.now) }
{
    let colour = one_colour(args)?;
    in_unit(alloc, "deg", colour.to_hsl().hue)
}

pub(crate) fn saturation(alloc: Global, args: &[Argument]) -> Result<Value, FnFault>
    ensures { IsAnswer result (saturation args.now) }
{
    let colour = one_colour(args)?;
    in_unit(alloc, "%", colour.to_hsl().saturation)
}

pub(crate) fn lightness(alloc: Global, args: &[Argument]) -> Result<Value, FnFault>
    ensures { IsAnswer result (lightness args.now) }
{
    let colour = one_colour(args)?;
    in_unit(alloc, "%", colour.to_hsl().lightness)
}

pub(crate) fn alpha(args: &[Argument]) -> Result<Value, FnFault>
    ensures { IsAnswer result (alpha args.now) }
{
    let colour = one_colour(args)?;
    let units = Units {
        over: UnitNames::Empty,
        under: UnitNames::Empty,
    };
    Ok(Value::number(colour.alpha(), units))
}
