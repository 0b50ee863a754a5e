// Which parameters a built-in function takes, a line for each.
ghost use Rattle.std.specs.Prelude.{◌≡◌, IfOk};
ghost use Rattle.sw_builtins.specs.Signatures.{math_params, text_params, list_params, map_params, colour_params, color_and_parts, parts_by_name, meta_params, asked_params, if_params, params_of};

use crate::built_in::{Asked, BuiltIn, Meta};
use crate::css_params::{css_params, hsl_and_alpha, rgb_and_alpha};
use crate::shapes::Fallback::{Auto, Half, Last, Null, Whole};
use crate::shapes::{
    color_and_parts, joining, none, one, one_and_rest, one_or, rest, three, two, two_and_rest,
    two_or,
};
use std::alloc::Global;
use sw_fn_colour::Function as Colour;
use sw_fn_list::Function as Lists;
use sw_fn_map::Function as Maps;
use sw_fn_math::Function as Math;
use sw_fn_text::Function as Text;
use sw_text::{Memory, Name};
use sw_tree::Params;

#[tactic(auto, unfolding(crate::specs::Signatures::math_params))]
fn math_params(alloc: Global, function: Math) -> Result<Params, Memory>
    ensures { IfOk result (λ params. params ≡ math_params function) }
{
    match function {
        Math::Ceil => one(alloc, "number"),
        Math::Floor => one(alloc, "number"),
        Math::Round => one(alloc, "number"),
        Math::Abs => one(alloc, "number"),
        Math::Min => rest(alloc, "number"),
        Math::Max => rest(alloc, "number"),
        Math::Clamp => three(alloc, "min", "number", "max"),
        Math::Div => two(alloc, "number1", "number2"),
        Math::Percentage => one(alloc, "number"),
        Math::Unit => one(alloc, "number"),
        Math::IsUnitless => one(alloc, "number"),
        Math::Compatible => two(alloc, "number1", "number2"),
    }
}

#[tactic(auto, unfolding(crate::specs::Signatures::text_params))]
fn text_params(alloc: Global, function: Text) -> Result<Params, Memory>
    ensures { IfOk result (λ params. params ≡ text_params function) }
{
    match function {
        Text::Quote => one(alloc, "string"),
        Text::Unquote => one(alloc, "string"),
        Text::ToUpperCase => one(alloc, "string"),
        Text::ToLowerCase => one(alloc, "string"),
        Text::Length => one(alloc, "string"),
        Text::Index => two(alloc, "string", "substring"),
        Text::Insert => three(alloc, "string", "insert", "index"),
        Text::Slice => two_or(alloc, "string", "start-at", "end-at", Last),
        Text::Split => two_or(alloc, "string", "separator", "limit", Null),
    }
}

#[tactic(auto, unfolding(crate::specs::Signatures::list_params))]
fn list_params(alloc: Global, function: Lists) -> Result<Params, Memory>
    ensures { IfOk result (λ params. params ≡ list_params function) }
{
    match function {
        Lists::Length => one(alloc, "list"),
        Lists::Nth => two(alloc, "list", "n"),
        Lists::SetNth => three(alloc, "list", "n", "value"),
        Lists::Index => two(alloc, "list", "value"),
        Lists::Zip => rest(alloc, "lists"),
        Lists::Join => joining(alloc),
        Lists::Append => two_or(alloc, "list", "val", "separator", Auto),
        Lists::IsBracketed => one(alloc, "list"),
        Lists::Separator => one(alloc, "list"),
        Lists::Slash => rest(alloc, "elements"),
    }
}

#[tactic(auto, unfolding(crate::specs::Signatures::map_params))]
fn map_params(alloc: Global, function: Maps) -> Result<Params, Memory>
    ensures { IfOk result (λ params. params ≡ map_params function) }
{
    match function {
        Maps::Get => two_and_rest(alloc, "map", "key", "keys"),
        Maps::HasKey => two_and_rest(alloc, "map", "key", "keys"),
        Maps::Keys => one(alloc, "map"),
        Maps::Values => one(alloc, "map"),
        Maps::Merge => one_and_rest(alloc, "map1", "args"),
        Maps::Set => one_and_rest(alloc, "map", "args"),
        Maps::Remove => one_and_rest(alloc, "map", "keys"),
        Maps::DeepMerge => two(alloc, "map1", "map2"),
        Maps::DeepRemove => two_and_rest(alloc, "map", "key", "keys"),
    }
}

// The parts of a colour are given by name alone.
fn parts_by_name(alloc: Global, count: usize) -> Result<Params, Memory>
    ensures { IfOk result (λ params. params ≡ parts_by_name count) }
{
    if count <= 1 {
        color_and_parts(alloc)
    } else {
        one(alloc, "color")
    }
}

#[tactic(auto, unfolding(crate::specs::Signatures::colour_params))]
fn colour_params(alloc: Global, function: Colour, count: usize) -> Result<Params, Memory>
    ensures { IfOk result (λ params. params ≡ colour_params function count) }
{
    match function {
        Colour::Red => one(alloc, "color"),
        Colour::Green => one(alloc, "color"),
        Colour::Blue => one(alloc, "color"),
        Colour::Hue => one(alloc, "color"),
        Colour::Saturation => one(alloc, "color"),
        Colour::Lightness => one(alloc, "color"),
        Colour::Alpha => one(alloc, "color"),
        Colour::Mix => two_or(alloc, "color1", "color2", "weight", Half),
        Colour::Adjust => parts_by_name(alloc, count),
        Colour::Scale => parts_by_name(alloc, count),
        Colour::Change => parts_by_name(alloc, count),
        Colour::Complement => one(alloc, "color"),
        Colour::Grayscale => one(alloc, "color"),
        Colour::Invert => one_or(alloc, "color", "weight", Whole),
        Colour::Rgb => rgb_and_alpha(alloc),
        Colour::Hsl => hsl_and_alpha(alloc),
        Colour::AdjustHue => two(alloc, "color", "degrees"),
        Colour::Lighten => two(alloc, "color", "amount"),
        Colour::Darken => two(alloc, "color", "amount"),
        Colour::Saturate => two(alloc, "color", "amount"),
        Colour::Desaturate => two(alloc, "color", "amount"),
        Colour::Opacify => two(alloc, "color", "amount"),
        Colour::Transparentize => two(alloc, "color", "amount"),
    }
}

#[tactic(auto, unfolding(crate::specs::Signatures::meta_params))]
fn meta_params(alloc: Global, function: Meta) -> Result<Params, Memory>
    ensures { IfOk result (λ params. params ≡ meta_params function) }
{
    match function {
        Meta::TypeOf => one(alloc, "value"),
        Meta::Inspect => one(alloc, "value"),
        Meta::Keywords => one(alloc, "args"),
    }
}

#[tactic(auto, unfolding(crate::specs::Signatures::asked_params))]
fn asked_params(alloc: Global, function: Asked) -> Result<Params, Memory>
    ensures { IfOk result (λ params. params ≡ asked_params function) }
{
    match function {
        Asked::VariableExists => one(alloc, "name"),
        Asked::MixinExists => one_or(alloc, "name", "module", Null),
        Asked::FunctionExists => one_or(alloc, "name", "module", Null),
        Asked::GlobalVariableExists => one_or(alloc, "name", "module", Null),
        Asked::ContentExists => Ok(none(alloc)),
    }
}

fn if_params(alloc: Global) -> Result<Params, Memory>
    ensures { IfOk result (λ params. params ≡ if_params) }
{
    three(alloc, "condition", "if-true", "if-false")
}

/// The parameters of a function. Where it has several lists, it is the first which so many arguments without a name and
/// arguments of these names fill, or else the first. A variable has no parameters.
///
/// `adjust`, `scale` and `change` take the parts of a colour by name alone: where more than one argument has no name,
/// their list is that of the colour, which such arguments don't fit. The functions that CSS has too have a list without
/// each parameter that may be left out, in place of a default, since what is left out isn't written out.
#[tactic(auto, unfolding(crate::specs::Signatures::params_of))]
pub fn params(
    alloc: Global,
    built_in: BuiltIn,
    count: usize,
    named: &[Name],
) -> Result<Params, Memory>
    ensures { IfOk result (λ params. params ≡ params_of built_in count named.now) }
{
    match built_in {
        BuiltIn::Math(function) => math_params(alloc, function),
        BuiltIn::Text(function) => text_params(alloc, function),
        BuiltIn::List(function) => list_params(alloc, function),
        BuiltIn::Map(function) => map_params(alloc, function),
        BuiltIn::Colour(function) => colour_params(alloc, function, count),
        BuiltIn::Css(function) => css_params(alloc, function, count, named),
        BuiltIn::Meta(function) => meta_params(alloc, function),
        BuiltIn::Asked(function) => asked_params(alloc, function),
        BuiltIn::If => if_params(alloc),
        BuiltIn::Variable(_) => Ok(none(alloc)),
    }
}
