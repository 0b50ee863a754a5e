// What a call of a function gives.
ghost use Rattle.sw_fn_call.specs.Answers.{IsAnswer};
ghost use Rattle.sw_fn_map.specs.Calls.{answer};

use crate::Function;
use crate::changes::{merge, remove, set};
use crate::deep::{deep_merge, deep_remove};
use crate::lookups::{get, has_key, keys, values};
use std::alloc::Global;
use sw_fn_call::{Argument, FnFault};
use sw_values::Value;

/// What a function gives for the values of its parameters, in their order; of a parameter with `...` the value is an
/// argument list. Another number of values is an `ArgumentFault`.
#[tactic(auto, unfolding(crate::specs::Calls::answer))]
pub fn call(alloc: Global, function: Function, args: &[Argument]) -> Result<Value, FnFault>
    ensures { IsAnswer result (answer function args.now) }
{
    match function {
        Function::Get => get(alloc, args),
        Function::HasKey => has_key(alloc, args),
        Function::Keys => keys(alloc, args),
        Function::Values => values(alloc, args),
        Function::Merge => merge(alloc, args),
        Function::Set => set(alloc, args),
        Function::Remove => remove(alloc, args),
        Function::DeepMerge => deep_merge(alloc, args),
        Function::DeepRemove => deep_remove(alloc, args),
    }
}
