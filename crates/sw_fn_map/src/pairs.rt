// A value as a map.
ghost use Rattle.std.specs.Prelude.{◌≡◌, [], Some, Ok, IfOk};
ghost use Rattle.sw_values.specs.Weight.{is_within};
ghost use Rattle.sw_fn_call.specs.Answers.{IsAnswer, within};
ghost use Rattle.sw_fn_map.specs.Pairs.{no_items as none_in, pairs_of as pairs_in, value_at as value_in, nested as nested_in, nested_by as nested_in_value, map_value as map_of_pairs};

use std::alloc::Global;
use sw_fn_call::FnFault;
use sw_text::Memory;
use sw_values::{Node, Pairs, Value, ValueFault, map_of};

/// The map without pairs.
pub(crate) fn no_pairs(alloc: Global) -> Result<Pairs, Memory>
    ensures { IfOk result (λ pairs. pairs ≡ []) }
{
    match map_of(alloc, &[]) {
        Ok(value) => shared(&value),
        Err(_) => Err(Memory),
    }
}

fn no_items(alloc: Global, items: &[Value]) -> Result<Pairs, FnFault>
    ensures { IsAnswer result (none_in items.now) }
{
    match items {
        [] => Ok(no_pairs(alloc)?),
        [_, ..] => Err(FnFault::TypeFault),
    }
}

/// The pairs of a map, or of a list without items; else `TypeFault`.
#[tactic(auto, unfolding(crate::specs::Pairs::pairs_of))]
pub(crate) fn pairs_of(alloc: Global, value: &Value) -> Result<Pairs, FnFault>
    ensures { IsAnswer result (pairs_in value.now) }
{
    match value.node() {
        Node::Number(_) => Err(FnFault::TypeFault),
        Node::Text { .. } => Err(FnFault::TypeFault),
        Node::Colour(_) => Err(FnFault::TypeFault),
        Node::List { items, .. } => no_items(alloc, items.get().as_slice()),
        Node::Map(pairs) => Ok(pairs.share()?),
        Node::Bool(_) => Err(FnFault::TypeFault),
        Node::Null => Err(FnFault::TypeFault),
        Node::Args { items, .. } => no_items(alloc, items.get().as_slice()),
    }
}

// One more owner of the pairs of a map.
#[tactic(auto, unfolding(crate::specs::Pairs::pairs_of))]
fn shared(value: &Value) -> Result<Pairs, Memory>
    ensures { IfOk result (λ pairs. pairs_in value.now ≡ Ok pairs) }
{
    match value.node() {
        Node::Map(pairs) => pairs.share(),
        Node::Number(_) => Err(Memory),
        Node::Text { .. } => Err(Memory),
        Node::Colour(_) => Err(Memory),
        Node::List { .. } => Err(Memory),
        Node::Bool(_) => Err(Memory),
        Node::Null => Err(Memory),
        Node::Args { .. } => Err(Memory),
    }
}

fn nested_by(alloc: Global, value: &Value) -> Result<Pairs, Memory>
    ensures { IfOk result (λ pairs. pairs ≡ nested_in_value (Some value.now)) }
{
    match pairs_of(alloc, value) {
        Ok(pairs) => Ok(pairs),
        Err(FnFault::Memory) => Err(Memory),
        Err(_) => no_pairs(alloc),
    }
}

/// The map that a map has at a key; anything else, and nothing, counts as one without pairs.
#[tactic(auto, unfolding(crate::specs::Pairs::nested))]
pub(crate) fn nested(alloc: Global, pairs: &Pairs, key: &Value) -> Result<Pairs, Memory>
    ensures { IfOk result (λ inner. inner ≡ nested_in pairs.now key.now) }
{
    let canon = key.canon(alloc)?;
    match pairs.get(&canon) {
        Some(value) => nested_by(alloc, value),
        None => no_pairs(alloc),
    }
}

/// What a map has at a key.
pub(crate) fn value_at(alloc: Global, pairs: &Pairs, key: &Value) -> Result<Option<Value>, Memory>
    ensures { IfOk result (λ value. value ≡ value_in pairs.now key.now) }
{
    let canon = key.canon(alloc)?;
    match pairs.get(&canon) {
        Some(value) => Ok(Some(value.share()?)),
        None => Ok(None),
    }
}

fn is_within(value: &Value) -> bool
    ensures { result ≡ is_within value.now }
{
    value.weight() <= 1_048_576 && value.nesting() <= 1_000
}

fn kept(value: Value) -> Result<Value, FnFault>
    ensures { IsAnswer result (within value) }
{
    if is_within(&value) {
        Ok(value)
    } else {
        Err(FnFault::TooLarge)
    }
}

/// The map of some pairs, of which no two have equal keys, unless it is too large. Two equal keys, which don't come,
/// would be want of memory.
pub fn map_value(alloc: Global, pairs: &[(Value, Value)]) -> Result<Value, FnFault>
    ensures { IsAnswer result (map_of_pairs pairs.now) }
{
    match map_of(alloc, pairs) {
        Ok(value) => kept(value),
        Err(ValueFault::TooLarge) => Err(FnFault::TooLarge),
        Err(ValueFault::NotCss) => unreachable!(),
        Err(ValueFault::DuplicateKey(_)) => Err(FnFault::Memory),
        Err(ValueFault::Memory) => Err(FnFault::Memory),
    }
}
