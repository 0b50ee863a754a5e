// What a call of a function gives.
ghost use Rattle.sw_fn_call.specs.Answers.{IsAnswer};
ghost use Rattle.sw_fn_math.specs.Calls.{answer};

use crate::Function;
use crate::extremes::{clamp, max, min};
use crate::quotients::{compatible, div, is_unitless, percentage, unit};
use crate::rounding::{abs, ceil, floor, round};
use std::alloc::Global;
use sw_fn_call::{Argument, FnFault};
use sw_values::Value;

/// What a function gives for the values of its parameters, in their order; of a parameter with `...` the value is an
/// argument list. Another number of values is an `ArgumentFault`.
#[tactic(auto, unfolding(crate::specs::Calls::answer))]
pub fn call(alloc: Global, function: Function, args: &[Argument]) -> Result<Value, FnFault>
    ensures { IsAnswer result (answer function args.now) }
{
    match function {
        Function::Ceil => ceil(args),
        Function::Floor => floor(args),
        Function::Round => round(args),
        Function::Abs => abs(args),
        Function::Min => min(args),
        Function::Max => max(args),
        Function::Clamp => clamp(args),
        Function::Div => div(args),
        Function::Percentage => percentage(alloc, args),
        Function::Unit => unit(alloc, args),
        Function::IsUnitless => is_unitless(args),
        Function::Compatible => compatible(args),
    }
}
