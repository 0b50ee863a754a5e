// Numbers near a number, with its units.
ghost use Rattle.std.specs.Prelude.{◌≡◌, Ok, Err, MatchResult};
ghost use Rattle.sw_fn_call.specs.Answers.{IsAnswer};
ghost use Rattle.sw_fn_math.specs.Rounding.{one_number as one_number_of, ceil, floor, round, abs};

use sw_fn_call::{Argument, FnFault, number, number_of, one};
use sw_units::Number;
use sw_values::Value;

/// The one argument, a number.
#[tactic(auto, unfolding(crate::specs::Rounding::one_number))]
pub(crate) fn one_number(args: &[Argument]) -> Result<&Number, FnFault>
    ensures { MatchResult result (λ number. one_number_of args.now ≡ Ok number.now)
        (λ fault. one_number_of args.now ≡ Err fault) }
{
    number_of(one(args)?)
}

pub(crate) fn ceil(args: &[Argument]) -> Result<Value, FnFault>
    ensures { IsAnswer result (ceil args.now) }
{
    let given = one_number(args)?;
    Ok(number(given.value.ceil(), &given.units)?)
}

pub(crate) fn floor(args: &[Argument]) -> Result<Value, FnFault>
    ensures { IsAnswer result (floor args.now) }
{
    let given = one_number(args)?;
    Ok(number(given.value.floor(), &given.units)?)
}

pub(crate) fn round(args: &[Argument]) -> Result<Value, FnFault>
    ensures { IsAnswer result (round args.now) }
{
    let given = one_number(args)?;
    Ok(number(given.value.round(), &given.units)?)
}

pub(crate) fn abs(args: &[Argument]) -> Result<Value, FnFault>
    ensures { IsAnswer result (abs args.now) }
{
    let given = one_number(args)?;
    Ok(number(given.value.absolute(), &given.units)?)
}
