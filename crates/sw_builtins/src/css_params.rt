// The parameter lists of the functions that CSS has too, of which the arguments choose one.
ghost use Rattle.std.specs.Prelude.{◌≡◌, drop, IfOk};
ghost use Rattle.std.specs.List.{list_all};
ghost use Rattle.sw_builtins.specs.Shapes.{are_together as are_so_many, is_named as is_name_of, takes as takes_them};
ghost use Rattle.sw_builtins.specs.Signatures.{rgb_and_alpha, hsl_and_alpha, rgb_list, hsl_list, invert_list, saturate_list, rgb_params, hsl_params, invert_params, saturate_params, css_params};

use crate::built_in::Css;
use crate::shapes::{four, one, three, two};
use std::alloc::Global;
use sw_text::{Memory, Name};
use sw_tree::{Param, Params};

// ---- which list takes the arguments

fn are_together(count: usize, named: &[Name], total: usize) -> bool
    ensures { result ≡ are_so_many count named.now total }
{
    count <= total && total - count == named.len()
}

fn is_named(named: &[Name], param: &Param) -> bool
    ensures { result ≡ is_name_of named.now param.now }
{
    'named: for at in 0..named.len() {
        if param.name.same(&named[at]) {
            return true;
        }
    }
    false
}

fn are_named(named: &[Name], items: &[Param]) -> bool
    ensures { result ≡ list_all (is_name_of named.now) items.now }
{
    'items: for at in 0..items.len() {
        if !is_named(named, &items[at]) {
            return false;
        }
    }
    true
}

fn takes(params: &Params, count: usize, named: &[Name]) -> bool
    ensures { result ≡ takes_them params.now count named.now }
{
    let items = params.items.as_slice();
    if !are_together(count, named, items.len()) {
        return false;
    }
    count <= items.len() && are_named(named, &items[count..])
}

// ---- the lists

pub(crate) fn rgb_and_alpha(alloc: Global) -> Result<Params, Memory>
    ensures { IfOk result (λ params. params ≡ rgb_and_alpha) }
{
    four(alloc, "red", "green", "blue", "alpha")
}

pub(crate) fn hsl_and_alpha(alloc: Global) -> Result<Params, Memory>
    ensures { IfOk result (λ params. params ≡ hsl_and_alpha) }
{
    four(alloc, "hue", "saturation", "lightness", "alpha")
}

fn rgb_list(alloc: Global, count: usize, named: &[Name]) -> Result<Params, Memory>
    ensures { IfOk result (λ params. params ≡ rgb_list count named.now) }
{
    if are_together(count, named, 3) {
        three(alloc, "red", "green", "blue")
    } else if are_together(count, named, 1) {
        one(alloc, "channels")
    } else if are_together(count, named, 2) {
        two(alloc, "color", "alpha")
    } else {
        rgb_and_alpha(alloc)
    }
}

fn hsl_list(alloc: Global, count: usize, named: &[Name]) -> Result<Params, Memory>
    ensures { IfOk result (λ params. params ≡ hsl_list count named.now) }
{
    if are_together(count, named, 3) {
        three(alloc, "hue", "saturation", "lightness")
    } else if are_together(count, named, 1) {
        one(alloc, "channels")
    } else if are_together(count, named, 2) {
        two(alloc, "hue", "saturation")
    } else {
        hsl_and_alpha(alloc)
    }
}

fn invert_list(alloc: Global, count: usize, named: &[Name]) -> Result<Params, Memory>
    ensures { IfOk result (λ params. params ≡ invert_list count named.now) }
{
    if are_together(count, named, 1) {
        one(alloc, "color")
    } else {
        two(alloc, "color", "weight")
    }
}

fn saturate_list(alloc: Global, count: usize, named: &[Name]) -> Result<Params, Memory>
    ensures { IfOk result (λ params. params ≡ saturate_list count named.now) }
{
    if are_together(count, named, 1) {
        one(alloc, "color")
    } else {
        two(alloc, "color", "amount")
    }
}

// ---- a list where it takes the arguments, or else the first

fn rgb_params(alloc: Global, count: usize, named: &[Name]) -> Result<Params, Memory>
    ensures { IfOk result (λ params. params ≡ rgb_params count named.now) }
{
    let list = rgb_list(alloc, count, named)?;
    if takes(&list, count, named) {
        return Ok(list);
    }
    rgb_and_alpha(alloc)
}

fn hsl_params(alloc: Global, count: usize, named: &[Name]) -> Result<Params, Memory>
    ensures { IfOk result (λ params. params ≡ hsl_params count named.now) }
{
    let list = hsl_list(alloc, count, named)?;
    if takes(&list, count, named) {
        return Ok(list);
    }
    hsl_and_alpha(alloc)
}

fn invert_params(alloc: Global, count: usize, named: &[Name]) -> Result<Params, Memory>
    ensures { IfOk result (λ params. params ≡ invert_params count named.now) }
{
    let list = invert_list(alloc, count, named)?;
    if takes(&list, count, named) {
        return Ok(list);
    }
    two(alloc, "color", "weight")
}

fn saturate_params(alloc: Global, count: usize, named: &[Name]) -> Result<Params, Memory>
    ensures { IfOk result (λ params. params ≡ saturate_params count named.now) }
{
    let list = saturate_list(alloc, count, named)?;
    if takes(&list, count, named) {
        return Ok(list);
    }
    two(alloc, "color", "amount")
}

#[tactic(auto, unfolding(crate::specs::Signatures::css_params))]
pub(crate) fn css_params(
    alloc: Global,
    function: Css,
    count: usize,
    named: &[Name],
) -> Result<Params, Memory>
    ensures { IfOk result (λ params. params ≡ css_params function count named.now) }
{
    match function {
        Css::Rgb => rgb_params(alloc, count, named),
        Css::Rgba => rgb_params(alloc, count, named),
        Css::Hsl => hsl_params(alloc, count, named),
        Css::Hsla => hsl_params(alloc, count, named),
        Css::Grayscale => one(alloc, "color"),
        Css::Invert => invert_params(alloc, count, named),
        Css::Saturate => saturate_params(alloc, count, named),
        Css::Opacity => one(alloc, "color"),
    }
}
