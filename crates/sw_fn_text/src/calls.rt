// What a call of a function gives.
ghost use Rattle.sw_fn_call.specs.Answers.{IsAnswer};
ghost use Rattle.sw_fn_text.specs.Calls.{answer};

use crate::Function;
use crate::cases::{quote, to_lower_case, to_upper_case, unquote};
use crate::pieces::split;
use crate::places::{index, insert, length, slice};
use std::alloc::Global;
use sw_fn_call::{Argument, FnFault};
use sw_values::Value;

/// What a function gives for the values of its parameters, in their order. Another number of values is an
/// `ArgumentFault`.
#[tactic(auto, unfolding(crate::specs::Calls::answer))]
pub fn call(alloc: Global, function: Function, args: &[Argument]) -> Result<Value, FnFault>
    ensures { IsAnswer result (answer function args.now) }
{
    match function {
        Function::Quote => quote(args),
        Function::Unquote => unquote(args),
        Function::ToUpperCase => to_upper_case(alloc, args),
        Function::ToLowerCase => to_lower_case(alloc, args),
        Function::Length => length(args),
        Function::Index => index(args),
        Function::Insert => insert(alloc, args),
        Function::Slice => slice(alloc, args),
        Function::Split => split(alloc, args),
    }
}
