// Arguments that are taken out of their list.
ghost use Rattle.std.specs.Prelude.{◌≡◌};
ghost use Rattle.sw_fn_call.specs.Arguments.{two as two_of, three as three_of};

use sw_fn_call::{Argument, FnFault};
use sw_text::List;
use sw_values::Value;

/// The values of two arguments, else `ArgumentFault`.
#[tactic(auto, using(crate::proofs::Ends::two_none))]
pub(crate) fn two_taken(arguments: List<Argument>) -> Result<(Value, Value), FnFault>
    ensures { result ≡ two_of arguments }
{
    let mut before = arguments;
    match before.pop() {
        None => Err(FnFault::ArgumentFault),
        Some(second) => match before.pop() {
            None => Err(FnFault::ArgumentFault),
            Some(first) => match before.pop() {
                None => Ok((first.1, second.1)),
                Some(_) => Err(FnFault::ArgumentFault),
            },
        },
    }
}

/// The values of three arguments, else `ArgumentFault`.
#[tactic(auto, using(crate::proofs::Ends::three_none))]
pub(crate) fn three_taken(arguments: List<Argument>) -> Result<(Value, Value, Value), FnFault>
    ensures { result ≡ three_of arguments }
{
    let mut before = arguments;
    match before.pop() {
        None => Err(FnFault::ArgumentFault),
        Some(last) => match two_taken(before) {
            Ok(both) => Ok((both.0, both.1, last.1)),
            Err(_) => Err(FnFault::ArgumentFault),
        },
    }
}
