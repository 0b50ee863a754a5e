// Functions of colours that CSS has too.
ghost use Rattle.std.specs.Prelude.{◌≡◌, ◌++◌, ◌∷◌, [], IfOk};
ghost use Rattle.sw_fn_call.specs.Answers.{IsAnswer, count as count_of};
ghost use Rattle.sw_builtins.specs.Written.{colour_parts as colour_parts_of, written as written_call};
ghost use Rattle.sw_builtins.specs.Calls.{opaque as opaque_args, whole as whole_args, are_special, is_number as is_number_value, of_channels as answer_of_channels, of_colour as answer_of_colour, of_hue as answer_of_hue, of_three as answer_of_three, of_four as answer_of_four, rgb, hsl, grayscale, opacity, inverted as inverted_colour, invert, saturated as saturated_value, saturate, css_answer};

use crate::built_in::Css;
use crate::special::{alone, channel_parts, colour_parts, has_special, is_special, push_shared};
use crate::written::written;
use std::alloc::Global;
use sw_fn_call::{Argument, FnFault, count, one};
use sw_fn_colour::{Function, call};
use sw_text::{List, Memory, Name};
use sw_values::{Node, Value};

// ---- arguments

fn shared(argument: &Argument) -> Result<Argument, Memory>
    ensures { IfOk result (λ other. other ≡ argument.now) }
{
    Ok((argument.0.share()?, argument.1.share()?))
}

fn counted(alloc: Global, name: &str, number: usize) -> Result<Argument, Memory>
    ensures { IfOk result (λ argument. argument ≡ (name.now, count_of number)) }
{
    let name = Name::new(alloc, name)?;
    Ok((name, count(number)))
}

fn opaque(
    alloc: Global,
    first: &Argument,
    second: &Argument,
    third: &Argument,
) -> Result<List<Argument>, Memory>
    ensures { IfOk result (λ all. all ≡ opaque_args (first.now ∷ second.now ∷ third.now ∷ [])) }
{
    let mut all = List::new(alloc);
    all.push(shared(first)?)?;
    all.push(shared(second)?)?;
    all.push(shared(third)?)?;
    all.push(counted(alloc, "alpha", 1)?)?;
    Ok(all)
}

fn two_values(alloc: Global, first: &Value, second: &Value) -> Result<List<Value>, Memory>
    ensures { IfOk result (λ values. values ≡ first.now ∷ second.now ∷ []) }
{
    let mut values = List::new(alloc);
    push_shared(&mut values, first)?;
    push_shared(&mut values, second)?;
    Ok(values)
}

fn three_values(
    alloc: Global,
    first: &Value,
    second: &Value,
    third: &Value,
) -> Result<List<Value>, Memory>
    ensures { IfOk result (λ values. values ≡ first.now ∷ second.now ∷ third.now ∷ []) }
{
    let mut values = List::new(alloc);
    push_shared(&mut values, first)?;
    push_shared(&mut values, second)?;
    push_shared(&mut values, third)?;
    Ok(values)
}

fn four_values(
    alloc: Global,
    first: &Value,
    second: &Value,
    third: &Value,
    fourth: &Value,
) -> Result<List<Value>, Memory>
    ensures { IfOk result (λ values. values ≡ first.now ∷ second.now ∷ third.now ∷ fourth.now ∷ []) }
{
    let mut values = List::new(alloc);
    push_shared(&mut values, first)?;
    push_shared(&mut values, second)?;
    push_shared(&mut values, third)?;
    push_shared(&mut values, fourth)?;
    Ok(values)
}

fn colour_and_alpha(alloc: Global, colour: &Value, alpha: &Value) -> Result<List<Value>, Memory>
    ensures { IfOk result (λ values. values ≡ colour_parts_of colour.now ++ alpha.now ∷ []) }
{
    let mut values = colour_parts(alloc, colour)?;
    push_shared(&mut values, alpha)?;
    Ok(values)
}

fn whole(alloc: Global, colour: &Argument) -> Result<List<Argument>, Memory>
    ensures { IfOk result (λ all. all ≡ whole_args colour.now) }
{
    let mut all = List::new(alloc);
    all.push(shared(colour)?)?;
    all.push(counted(alloc, "weight", 100)?)?;
    Ok(all)
}

// ---- rgb, rgba, hsl and hsla

fn of_channels(
    alloc: Global,
    name: &str,
    function: Function,
    args: &[Argument],
    channels: &Argument,
) -> Result<Value, FnFault>
    ensures { IsAnswer result (answer_of_channels name.now function args.now channels.now) }
{
    if has_special(&channels.1) {
        let parts = channel_parts(alloc, &channels.1)?;
        return written(alloc, name, parts.as_slice());
    }
    call(alloc, function, args)
}

fn of_colour(
    alloc: Global,
    name: &str,
    args: &[Argument],
    colour: &Argument,
    alpha: &Argument,
) -> Result<Value, FnFault>
    ensures { IsAnswer result (answer_of_colour name.now args.now colour.now alpha.now) }
{
    if is_special(&colour.1) || is_special(&alpha.1) {
        let parts = colour_and_alpha(alloc, &colour.1, &alpha.1)?;
        return written(alloc, name, parts.as_slice());
    }
    call(alloc, Function::Rgb, args)
}

fn of_hue(
    alloc: Global,
    name: &str,
    hue: &Argument,
    saturation: &Argument,
) -> Result<Value, FnFault>
    ensures { IsAnswer result (answer_of_hue name.now hue.now saturation.now) }
{
    if is_special(&hue.1) || is_special(&saturation.1) {
        let parts = two_values(alloc, &hue.1, &saturation.1)?;
        return written(alloc, name, parts.as_slice());
    }
    Err(FnFault::ArgumentFault)
}

fn are_special(first: &Value, second: &Value, third: &Value) -> bool
    ensures { result ≡ are_special first.now second.now third.now }
{
    is_special(first) || is_special(second) || is_special(third)
}

fn of_three(
    alloc: Global,
    name: &str,
    function: Function,
    first: &Argument,
    second: &Argument,
    third: &Argument,
) -> Result<Value, FnFault>
    ensures { IsAnswer result (answer_of_three name.now function first.now second.now third.now) }
{
    if are_special(&first.1, &second.1, &third.1) {
        let parts = three_values(alloc, &first.1, &second.1, &third.1)?;
        return written(alloc, name, parts.as_slice());
    }
    let args = opaque(alloc, first, second, third)?;
    call(alloc, function, args.as_slice())
}

fn of_four(
    alloc: Global,
    name: &str,
    function: Function,
    args: &[Argument],
) -> Result<Value, FnFault>
    ensures { IsAnswer result (answer_of_four name.now function args.now) }
{
    let [first, second, third, alpha] = args else {
        return Err(FnFault::ArgumentFault);
    };
    if are_special(&first.1, &second.1, &third.1) || is_special(&alpha.1) {
        let parts = four_values(alloc, &first.1, &second.1, &third.1, &alpha.1)?;
        return written(alloc, name, parts.as_slice());
    }
    call(alloc, function, args)
}

// The colour of some parts, or their call as CSS where one of them is for CSS.
fn rgb(alloc: Global, name: &str, args: &[Argument]) -> Result<Value, FnFault>
    ensures { IsAnswer result (rgb name.now args.now) }
{
    let function = Function::Rgb;
    match args {
        [] => Err(FnFault::ArgumentFault),
        [channels] => of_channels(alloc, name, function, args, channels),
        [colour, alpha] => of_colour(alloc, name, args, colour, alpha),
        [first, second, third] => of_three(alloc, name, function, first, second, third),
        [_, _, _, _, ..] => of_four(alloc, name, function, args),
    }
}

// The same of hue, saturation and lightness. The hue and the saturation alone are for CSS.
fn hsl(alloc: Global, name: &str, args: &[Argument]) -> Result<Value, FnFault>
    ensures { IsAnswer result (hsl name.now args.now) }
{
    let function = Function::Hsl;
    match args {
        [] => Err(FnFault::ArgumentFault),
        [channels] => of_channels(alloc, name, function, args, channels),
        [hue, saturation] => of_hue(alloc, name, hue, saturation),
        [first, second, third] => of_three(alloc, name, function, first, second, third),
        [_, _, _, _, ..] => of_four(alloc, name, function, args),
    }
}

// ---- functions of one number

#[tactic(auto, unfolding(crate::specs::Calls::is_number))]
fn is_number(value: &Value) -> bool
    ensures { result ≡ is_number_value value.now }
{
    match value.node() {
        Node::Number(_) => true,
        Node::Text { .. } => false,
        Node::Colour(_) => false,
        Node::List { .. } => false,
        Node::Map(_) => false,
        Node::Bool(_) => false,
        Node::Null => false,
        Node::Args { .. } => false,
    }
}

fn written_alone(alloc: Global, name: &str, value: &Value) -> Result<Value, FnFault>
    ensures { IsAnswer result (written_call name.now (value.now ∷ [])) }
{
    let values = alone(alloc, value)?;
    written(alloc, name, values.as_slice())
}

fn grayscale(alloc: Global, args: &[Argument]) -> Result<Value, FnFault>
    ensures { IsAnswer result (grayscale args.now) }
{
    let value = one(args)?;
    if is_number(value) {
        return written_alone(alloc, "grayscale", value);
    }
    call(alloc, Function::Grayscale, args)
}

fn opacity(alloc: Global, args: &[Argument]) -> Result<Value, FnFault>
    ensures { IsAnswer result (opacity args.now) }
{
    let value = one(args)?;
    if is_number(value) {
        return written_alone(alloc, "opacity", value);
    }
    call(alloc, Function::Alpha, args)
}

fn inverted(alloc: Global, colour: &Argument) -> Result<Value, FnFault>
    ensures { IsAnswer result (inverted_colour colour.now) }
{
    if is_number(&colour.1) {
        return written_alone(alloc, "invert", &colour.1);
    }
    let args = whole(alloc, colour)?;
    call(alloc, Function::Invert, args.as_slice())
}

fn invert(alloc: Global, args: &[Argument]) -> Result<Value, FnFault>
    ensures { IsAnswer result (invert args.now) }
{
    match args {
        [] => Err(FnFault::ArgumentFault),
        [colour] => inverted(alloc, colour),
        [_, _, ..] => call(alloc, Function::Invert, args),
    }
}

fn saturated(alloc: Global, value: &Value) -> Result<Value, FnFault>
    ensures { IsAnswer result (saturated_value value.now) }
{
    if is_number(value) {
        return written_alone(alloc, "saturate", value);
    }
    Err(FnFault::ArgumentFault)
}

fn saturate(alloc: Global, args: &[Argument]) -> Result<Value, FnFault>
    ensures { IsAnswer result (saturate args.now) }
{
    match args {
        [] => Err(FnFault::ArgumentFault),
        [colour] => saturated(alloc, &colour.1),
        [_, _, ..] => call(alloc, Function::Saturate, args),
    }
}

#[tactic(auto, unfolding(crate::specs::Calls::css_answer))]
pub(crate) fn css_call(alloc: Global, function: Css, args: &[Argument]) -> Result<Value, FnFault>
    ensures { IsAnswer result (css_answer function args.now) }
{
    match function {
        Css::Rgb => rgb(alloc, "rgb", args),
        Css::Rgba => rgb(alloc, "rgba", args),
        Css::Hsl => hsl(alloc, "hsl", args),
        Css::Hsla => hsl(alloc, "hsla", args),
        Css::Grayscale => grayscale(alloc, args),
        Css::Invert => invert(alloc, args),
        Css::Saturate => saturate(alloc, args),
        Css::Opacity => opacity(alloc, args),
    }
}
