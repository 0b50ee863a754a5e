// Mixed and inverted colours.
ghost use Rattle.std.specs.Prelude.{◌≡◌};
ghost use Rattle.sw_fn_call.specs.Answers.{IsAnswer};
ghost use Rattle.sw_fn_colour.specs.Mixing.{mix, inverse, invert};

use crate::amounts::weight_of;
use crate::colours::{colour_of, coloured};
use sw_colour::Colour;
use sw_fn_call::{Argument, FnFault, three, two};
use sw_values::Value;

pub(crate) fn mix(args: &[Argument]) -> Result<Value, FnFault>
    ensures { IsAnswer result (mix args.now) }
{
    let (first, second, weight) = three(args)?;
    let first = colour_of(first)?;
    let second = colour_of(second)?;
    let weight = weight_of(weight)?;
    coloured(sw_colour::mix(first, second, weight))
}

fn inverse(colour: &Colour) -> Colour
    ensures { result ≡ inverse colour.now }
{
    Colour::from_rgb(
        255 - colour.red(),
        255 - colour.green(),
        255 - colour.blue(),
        colour.alpha(),
    )
}

pub(crate) fn invert(args: &[Argument]) -> Result<Value, FnFault>
    ensures { IsAnswer result (invert args.now) }
{
    let (colour, weight) = two(args)?;
    let colour = colour_of(colour)?;
    let weight = weight_of(weight)?;
    coloured(sw_colour::mix(&inverse(colour), colour, weight))
}
