// What a call of a function gives.
ghost use Rattle.sw_fn_call.specs.Answers.{IsAnswer};
ghost use Rattle.sw_fn_list.specs.Calls.{answer};

use crate::Function;
use crate::joining::{append, join, slash};
use crate::places::{index, length, nth, set_nth};
use crate::separators::{is_bracketed, separator};
use crate::zipping::zip;
use std::alloc::Global;
use sw_fn_call::{Argument, FnFault};
use sw_values::Value;

/// What a function gives for the values of its parameters, in their order; of a parameter with `...` the value is an
/// argument list. Another number of values is an `ArgumentFault`.
#[tactic(auto, unfolding(crate::specs::Calls::answer))]
pub fn call(alloc: Global, function: Function, args: &[Argument]) -> Result<Value, FnFault>
    ensures { IsAnswer result (answer function args.now) }
{
    match function {
        Function::Length => length(args),
        Function::Nth => nth(alloc, args),
        Function::SetNth => set_nth(alloc, args),
        Function::Index => index(alloc, args),
        Function::Zip => zip(alloc, args),
        Function::Join => join(alloc, args),
        Function::Append => append(alloc, args),
        Function::IsBracketed => is_bracketed(args),
        Function::Separator => separator(alloc, args),
        Function::Slash => slash(alloc, args),
    }
}
