// Quotes and the case of letters.
ghost use Rattle.sw_fn_call.specs.Answers.{IsAnswer};
ghost use Rattle.sw_fn_text.specs.Cases.{quote, unquote, to_upper_case, to_lower_case};

use std::alloc::Global;
use sw_fn_call::{Argument, FnFault, is_quoted, one, string, text, text_of};
use sw_values::Value;

pub(crate) fn quote(args: &[Argument]) -> Result<Value, FnFault>
    ensures { IsAnswer result (quote args.now) }
{
    let given = text_of(one(args)?)?;
    string(given.share()?, true)
}

pub(crate) fn unquote(args: &[Argument]) -> Result<Value, FnFault>
    ensures { IsAnswer result (unquote args.now) }
{
    let given = text_of(one(args)?)?;
    string(given.share()?, false)
}

pub(crate) fn to_upper_case(alloc: Global, args: &[Argument]) -> Result<Value, FnFault>
    ensures { IsAnswer result (to_upper_case args.now) }
{
    let value = one(args)?;
    let given = text_of(value)?;
    match given.as_str().to_ascii_uppercase(alloc) {
        Ok(upper) => text(alloc, upper.as_str(), is_quoted(value)),
        Err(_) => Err(FnFault::Memory),
    }
}

pub(crate) fn to_lower_case(alloc: Global, args: &[Argument]) -> Result<Value, FnFault>
    ensures { IsAnswer result (to_lower_case args.now) }
{
    let value = one(args)?;
    let given = text_of(value)?;
    match given.as_str().to_ascii_lowercase(alloc) {
        Ok(lower) => text(alloc, lower.as_str(), is_quoted(value)),
        Err(_) => Err(FnFault::Memory),
    }
}
