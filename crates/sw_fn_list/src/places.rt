// How many items a list has, and its items by their places.
ghost use Rattle.std.specs.Prelude.{◌≡◌, length as len, slice_set, IfOk};
ghost use Rattle.std.specs.List.{position_from};
ghost use Rattle.sw_fixed.specs.Arithmetic.{is_below_zero};
ghost use Rattle.sw_values.specs.Equality.{is_equal};
ghost use Rattle.sw_fn_call.specs.Answers.{IsAnswer};
ghost use Rattle.sw_fn_list.specs.Items.{items_of};
ghost use Rattle.sw_fn_list.specs.Places.{length, place_by, place_in as place_given, item_at as item_given, nth, replaced as replaced_in, set_nth, index};

use crate::items::{brackets_of, item_at, item_count, items, separator_of};
use std::alloc::Global;
use sw_fn_call::{Argument, FnFault, count, list, number_of, one, ordinal, three, two};
use sw_text::{List, Memory};
use sw_values::Value;

pub(crate) fn length(args: &[Argument]) -> Result<Value, FnFault>
    ensures { IsAnswer result (length args.now) }
{
    let given = one(args)?;
    Ok(count(item_count(given)))
}

// ---- places by number

fn is_below_zero(number: i128) -> bool
    ensures { result ≡ is_below_zero number }
{
    number < 0
}

// The place of a whole number among so many, counted from 0.
fn place_by(all: usize, place: Option<i128>) -> Result<usize, FnFault>
    ensures { result ≡ place_by all place }
{
    let Some(place) = place else {
        return Err(FnFault::Index);
    };
    let size = place.unsigned_abs();
    if size == 0 || (all as u128) < size {
        return Err(FnFault::Index);
    }
    let size = size as usize;
    Ok(if is_below_zero(place) {
        all - size
    } else {
        size - 1
    })
}

// A place in a list.
fn place_in(given: &Value, place: &Value) -> Result<usize, FnFault>
    ensures { result ≡ place_given given.now place.now }
{
    match number_of(place) {
        Ok(number) => place_by(item_count(given), number.value.whole()),
        Err(fault) => Err(fault),
    }
}

fn item_given(alloc: Global, given: &Value, at: usize) -> Result<Value, FnFault>
    ensures { IsAnswer result (item_given given.now at) }
{
    match item_at(alloc, given, at)? {
        Some(item) => Ok(item),
        None => Err(FnFault::Index),
    }
}

pub(crate) fn nth(alloc: Global, args: &[Argument]) -> Result<Value, FnFault>
    ensures { IsAnswer result (nth args.now) }
{
    let (given, place) = two(args)?;
    let at = place_in(given, place)?;
    item_given(alloc, given, at)
}

// The items of a list with another value at a place; behind the last one there is no place.
fn items_with(alloc: Global, given: &Value, value: &Value, at: usize) -> Result<List<Value>, Memory>
    ensures { IfOk result (λ items. items ≡ slice_set (items_of given.now) at value.now) }
{
    let mut all = items(alloc, given)?;
    if at < all.len() {
        all.set(at, value.share()?);
    }
    Ok(all)
}

fn replaced(alloc: Global, given: &Value, value: &Value, at: usize) -> Result<Value, FnFault>
    ensures { IsAnswer result (replaced_in given.now value.now at) }
{
    let all = items_with(alloc, given, value, at)?;
    list(alloc, all, separator_of(given), brackets_of(given))
}

pub(crate) fn set_nth(alloc: Global, args: &[Argument]) -> Result<Value, FnFault>
    ensures { IsAnswer result (set_nth args.now) }
{
    let (given, place, value) = three(args)?;
    let at = place_in(given, place)?;
    replaced(alloc, given, value, at)
}

// ---- places by value

// The place of the first of some values that is equal to a value.
fn place_of(value: &Value, all: &[Value]) -> Option<usize>
    ensures { result ≡ position_from (is_equal value.now) 0 all.now }
{
    'items: for at in 0..all.len() {
        if value.equals(&all[at]) {
            return Some(at);
        }
    }
    None
}

// The place of the first item of a list that is equal to a value.
fn place_equal(alloc: Global, given: &Value, value: &Value) -> Result<Option<usize>, Memory>
    ensures { IfOk result (λ place. place ≡ position_from (is_equal value.now) 0 (items_of given.now)) }
{
    let all = items(alloc, given)?;
    Ok(place_of(value, all.as_slice()))
}

pub(crate) fn index(alloc: Global, args: &[Argument]) -> Result<Value, FnFault>
    ensures { IsAnswer result (index args.now) }
{
    let (given, value) = two(args)?;
    Ok(ordinal(place_equal(alloc, given, value)?))
}
