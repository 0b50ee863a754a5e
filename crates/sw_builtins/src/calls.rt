// What a call of a built-in function gives.
ghost use Rattle.sw_fn_call.specs.Answers.{IsAnswer};
ghost use Rattle.sw_builtins.specs.Calls.{meta_answer, chosen, answer};

use crate::built_in::{BuiltIn, Meta};
use crate::css_calls::css_call;
use crate::telling::{inspect, keywords, type_of};
use std::alloc::Global;
use sw_fn_call::{Argument, FnFault, three};
use sw_values::Value;

#[tactic(auto, unfolding(crate::specs::Calls::meta_answer))]
fn meta_call(alloc: Global, function: Meta, args: &[Argument]) -> Result<Value, FnFault>
    ensures { IsAnswer result (meta_answer function args.now) }
{
    match function {
        Meta::TypeOf => type_of(alloc, args),
        Meta::Inspect => inspect(alloc, args),
        Meta::Keywords => keywords(alloc, args),
    }
}

// The second value where the first one counts as true, else the third.
fn chosen(args: &[Argument]) -> Result<Value, FnFault>
    ensures { IsAnswer result (chosen args.now) }
{
    let (condition, if_true, if_false) = three(args)?;
    if condition.truth() {
        return Ok(if_true.share()?);
    }
    Ok(if_false.share()?)
}

/// What a function gives for the values of its parameters, in the order of one of its lists. Another number of values
/// is an `ArgumentFault`, and so is any call of a function that isn't computed here, or of a variable.
#[tactic(auto, unfolding(crate::specs::Calls::answer))]
pub fn call(alloc: Global, built_in: BuiltIn, args: &[Argument]) -> Result<Value, FnFault>
    ensures { IsAnswer result (answer built_in args.now) }
{
    match built_in {
        BuiltIn::Math(function) => sw_fn_math::call(alloc, function, args),
        BuiltIn::Text(function) => sw_fn_text::call(alloc, function, args),
        BuiltIn::List(function) => sw_fn_list::call(alloc, function, args),
        BuiltIn::Map(function) => sw_fn_map::call(alloc, function, args),
        BuiltIn::Colour(function) => sw_fn_colour::call(alloc, function, args),
        BuiltIn::Css(function) => css_call(alloc, function, args),
        BuiltIn::Meta(function) => meta_call(alloc, function, args),
        BuiltIn::Asked(_) => Err(FnFault::ArgumentFault),
        BuiltIn::If => chosen(args),
        BuiltIn::Variable(_) => Err(FnFault::ArgumentFault),
    }
}
