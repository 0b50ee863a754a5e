// Lists made of lists.
ghost use Rattle.std.specs.Prelude.{◌≡◌, ◌++◌, ◌∷◌, [], IfOk};
ghost use Rattle.sw_fn_call.specs.Answers.{IsAnswer};
ghost use Rattle.sw_fn_list.specs.Items.{items_of};
ghost use Rattle.sw_fn_list.specs.Joining.{joined as joined_list, join, appended as appended_list, append, slashed as slashed_list, slash};

use crate::items::{brackets_of, push_items, shares};
use crate::separators::{
    brackets_chosen, or_else, separator_chosen, separator_of_both, separator_of_one,
};
use std::alloc::Global;
use sw_fn_call::{Argument, FnFault, four, list, one, rest, three};
use sw_text::{List, Memory};
use sw_values::{Separator, Value};

// The items of both.
fn both_items(alloc: Global, first: &Value, second: &Value) -> Result<List<Value>, Memory>
    ensures { IfOk result (λ items. items ≡ items_of first.now ++ items_of second.now) }
{
    let mut all = List::new(alloc);
    push_items(alloc, &mut all, first)?;
    push_items(alloc, &mut all, second)?;
    Ok(all)
}

fn joined(
    alloc: Global,
    first: &Value,
    second: &Value,
    separator: Option<Separator>,
    bracketed: bool,
) -> Result<Value, FnFault>
    ensures { IsAnswer result (joined_list first.now second.now separator bracketed) }
{
    let all = both_items(alloc, first, second)?;
    let separator = or_else(separator, separator_of_both(first, second));
    list(alloc, all, separator, bracketed)
}

pub(crate) fn join(alloc: Global, args: &[Argument]) -> Result<Value, FnFault>
    ensures { IsAnswer result (join args.now) }
{
    let (first, second, separator, bracketed) = four(args)?;
    let separator = separator_chosen(separator)?;
    joined(
        alloc,
        first,
        second,
        separator,
        brackets_chosen(first, bracketed),
    )
}

// The items of a list, and a value behind them.
fn items_and(alloc: Global, given: &Value, value: &Value) -> Result<List<Value>, Memory>
    ensures { IfOk result (λ items. items ≡ items_of given.now ++ value.now ∷ []) }
{
    let mut all = List::new(alloc);
    push_items(alloc, &mut all, given)?;
    all.push(value.share()?)?;
    Ok(all)
}

fn appended(
    alloc: Global,
    given: &Value,
    value: &Value,
    separator: Option<Separator>,
) -> Result<Value, FnFault>
    ensures { IsAnswer result (appended_list given.now value.now separator) }
{
    let all = items_and(alloc, given, value)?;
    let separator = or_else(separator, separator_of_one(given));
    list(alloc, all, separator, brackets_of(given))
}

pub(crate) fn append(alloc: Global, args: &[Argument]) -> Result<Value, FnFault>
    ensures { IsAnswer result (append args.now) }
{
    let (given, value, separator) = three(args)?;
    let separator = separator_chosen(separator)?;
    appended(alloc, given, value, separator)
}

// A list with slashes of two values at least.
fn slashed(alloc: Global, values: &[Value]) -> Result<Value, FnFault>
    ensures { IsAnswer result (slashed_list values.now) }
{
    if values.len() < 2 {
        return Err(FnFault::ArgumentFault);
    }
    let all = shares(alloc, values)?;
    list(alloc, all, Separator::Slash, false)
}

pub(crate) fn slash(alloc: Global, args: &[Argument]) -> Result<Value, FnFault>
    ensures { IsAnswer result (slash args.now) }
{
    let value = one(args)?;
    let values = rest(value)?;
    slashed(alloc, values)
}
