// What a call of a function gives.
ghost use Rattle.sw_fn_call.specs.Answers.{IsAnswer};
ghost use Rattle.sw_fn_colour.specs.Calls.{answer};

use crate::Function;
use crate::changes::{adjust, change, complement, grayscale, scale};
use crate::making::{hsl, rgb};
use crate::mixing::{invert, mix};
use crate::parts::{alpha, blue, green, hue, lightness, red, saturation};
use crate::steps::{adjust_hue, darken, desaturate, lighten, opacify, saturate, transparentize};
use std::alloc::Global;
use sw_fn_call::{Argument, FnFault};
use sw_values::Value;

/// What a function gives for the values of its parameters, in their order. `adjust`, `scale` and `change` take the
/// colour, red, green, blue, hue, saturation, lightness and alpha, with null for what isn't given; `rgb` takes a list,
/// or a colour and alpha, or red, green, blue and alpha; `hsl` takes a list, or hue, saturation, lightness and alpha.
/// Another number of values is an `ArgumentFault`.
///
/// Arguments are values: a call that is written out as CSS, since an argument is special text or a number in the place
/// of a colour, isn't for this function.
#[tactic(auto, unfolding(crate::specs::Calls::answer))]
pub fn call(alloc: Global, function: Function, args: &[Argument]) -> Result<Value, FnFault>
    ensures { IsAnswer result (answer function args.now) }
{
    match function {
        Function::Red => red(args),
        Function::Green => green(args),
        Function::Blue => blue(args),
        Function::Hue => hue(alloc, args),
        Function::Saturation => saturation(alloc, args),
        Function::Lightness => lightness(alloc, args),
        Function::Alpha => alpha(args),
        Function::Mix => mix(args),
        Function::Adjust => adjust(args),
        Function::Scale => scale(args),
        Function::Change => change(args),
        Function::Complement => complement(args),
        Function::Grayscale => grayscale(args),
        Function::Invert => invert(args),
        Function::Rgb => rgb(args),
        Function::Hsl => hsl(args),
        Function::AdjustHue => adjust_hue(args),
        Function::Lighten => lighten(args),
        Function::Darken => darken(args),
        Function::Saturate => saturate(args),
        Function::Desaturate => desaturate(args),
        Function::Opacify => opacify(args),
        Function::Transparentize => transparentize(args),
    }
}
