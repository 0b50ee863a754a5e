// Lists and maps that grow, in place where nobody else holds them.
ghost use Rattle.std.specs.Prelude.{◌≡◌, true};
ghost use Rattle.sw_values.specs.Growing.{list_parts, is_list, list_with, map_pairs, is_map, map_with};
ghost use Rattle.sw_values.specs.Shape.{node_of};
ghost use Rattle.sw_values.specs.Weight.{is_within};
ghost use Rattle.sw_fn_call.specs.Answers.{IsAnswer, within};
ghost use Rattle.sw_fn_list.specs.Joining.{appended as appended_list};

use crate::separators::{or_else, separator_of};
use std::alloc::Global;
use sw_fn_call::FnFault;
use sw_values::{Separator, Value, ValueFault};

fn is_within(value: &Value) -> bool
    ensures { result ≡ is_within value.now }
{
    value.weight() <= 1_048_576 && value.nesting() <= 1_000
}

fn kept(value: Value) -> Result<Value, FnFault>
    ensures { IsAnswer result (within value) }
{
    if is_within(&value) {
        Ok(value)
    } else {
        Err(FnFault::TooLarge)
    }
}

fn pushed(alloc: Global, given: Value, item: Value, separator: Separator) -> Result<Value, FnFault>
    requires { is_list given ≡ true }
    ensures { IsAnswer result (within (list_with (list_parts (node_of given)) separator item)) }
{
    match given.push_item(alloc, item, separator) {
        Ok(list) => kept(list),
        Err(ValueFault::TooLarge) => Err(FnFault::TooLarge),
        Err(ValueFault::NotCss) => unreachable!(),
        Err(ValueFault::DuplicateKey(_)) => unreachable!(),
        Err(ValueFault::Memory) => Err(FnFault::Memory),
    }
}

/// A list with a value behind its items.
#[tactic(auto, using(crate::proofs::Lists::list_grows))]
pub(crate) fn appended(
    alloc: Global,
    given: Value,
    item: Value,
    separator: Option<Separator>,
) -> Result<Value, FnFault>
    requires { is_list given ≡ true }
    ensures { IsAnswer result (appended_list given item separator) }
{
    let separator = or_else(separator, separator_of(&given));
    pushed(alloc, given, item, separator)
}

/// A map with a value for a key.
pub(crate) fn keyed(
    alloc: Global,
    given: Value,
    key: &Value,
    value: &Value,
) -> Result<Value, FnFault>
    requires { is_map given ≡ true }
    ensures { IsAnswer result (within (map_with (map_pairs (node_of given)) key.now value.now)) }
{
    match given.set_key(alloc, key, value) {
        Ok(made) => kept(made),
        Err(ValueFault::TooLarge) => Err(FnFault::TooLarge),
        Err(ValueFault::NotCss) => unreachable!(),
        Err(ValueFault::DuplicateKey(_)) => unreachable!(),
        Err(ValueFault::Memory) => Err(FnFault::Memory),
    }
}
