// Maps with other pairs.
ghost use Rattle.std.specs.Prelude.{◌≡◌, ◌++◌, ◌∷◌, [], map, filter, not, Some, None, IfOk, OnOk, MatchOption};
ghost use Rattle.sw_values.specs.Maps.{with_value};
ghost use Rattle.sw_fn_call.specs.Answers.{IsAnswer};
ghost use Rattle.sw_fn_map.specs.Pairs.{map_value as map_of_pairs};
ghost use Rattle.sw_fn_map.specs.Changes.{steps_of, innermost as innermost_of, rebuilt as rebuilt_of, parted as parted_values, set_at as set_at_path, set_by as set_with, set, updated as updated_by, is_new as is_new_in, merged as merged_pairs, merged_at as merged_at_path, merge_by as merge_with, merge, canons_after, is_among as is_among_canons, without as without_keys, remove};

use crate::pairs::{map_value, nested, pairs_of};
use indexmap::IndexSet;
use std::alloc::Global;
use sw_fn_call::{Argument, FnFault, rest, two, within};
use sw_text::{List, Memory};
use sw_values::{Canon, Node, Pairs, Value};

/// The maps on the way along some keys, each with the key at which the next one stands.
pub(crate) type Steps = List<(Pairs, Value)>;

fn push_step(steps: &mut Steps, pairs: &Pairs, key: &Value) -> Result<(), Memory>
    ensures { OnOk result (steps.new ≡ steps.old ++ (pairs.now, key.now) ∷ []) }
{
    steps.push((pairs.share()?, key.share()?))
}

/// The steps along some keys.
pub(crate) fn steps(alloc: Global, pairs: &Pairs, keys: &[Value]) -> Result<Steps, Memory>
    ensures { IfOk result (λ steps. steps ≡ steps_of pairs.now keys.now) }
{
    let mut steps = List::new(alloc);
    let mut inner = pairs.share()?;
    'keys: for at in 0..keys.len() {
        let key = &keys[at];
        push_step(&mut steps, &inner, key)?;
        inner = nested(alloc, &inner, key)?;
    }
    Ok(steps)
}

/// The map at the end of the way along some keys.
pub(crate) fn innermost(alloc: Global, pairs: &Pairs, keys: &[Value]) -> Result<Pairs, Memory>
    ensures { IfOk result (λ inner. inner ≡ innermost_of pairs.now keys.now) }
{
    let mut inner = pairs.share()?;
    'keys: for at in 0..keys.len() {
        inner = nested(alloc, &inner, &keys[at])?;
    }
    Ok(inner)
}

fn with_inner(alloc: Global, pairs: &Pairs, key: &Value, inner: &Value) -> Result<Value, FnFault>
    ensures { IsAnswer result (map_of_pairs (with_value pairs.now key.now inner.now)) }
{
    let pairs = pairs.with_value(alloc, key, inner)?;
    within(Node::Map(pairs))
}

fn stepped(alloc: Global, step: (Pairs, Value), inner: Value) -> Result<Value, FnFault>
    ensures { IsAnswer result (map_of_pairs (with_value step.0 step.1 inner)) }
{
    with_inner(alloc, &step.0, &step.1, &inner)
}

/// The maps on the way with another value at its end.
pub(crate) fn rebuilt(alloc: Global, mut steps: Steps, last: Value) -> Result<Value, FnFault>
    ensures { IsAnswer result (rebuilt_of steps last) }
{
    let mut value = last;
    'steps: while let Some(step) = steps.pop() {
        match stepped(alloc, step, value) {
            Ok(made) => value = made,
            Err(fault) => return Err(fault),
        }
    }
    Ok(value)
}

// ---- set

fn set_at(alloc: Global, pairs: &Pairs, keys: &[Value], value: &Value) -> Result<Value, FnFault>
    ensures { IsAnswer result (set_at_path pairs.now keys.now value.now) }
{
    match keys {
        [] => Err(FnFault::ArgumentFault),
        [_, ..] => {
            let value = value.share()?;
            rebuilt_along(alloc, pairs, keys, value)
        }
    }
}

pub(crate) fn set(alloc: Global, args: &[Argument]) -> Result<Value, FnFault>
    ensures { IsAnswer result (set args.now) }
{
    let (given, others) = two(args)?;
    let values = rest(others)?;
    let pairs = pairs_of(alloc, given)?;
    set_by(alloc, &pairs, values)
}

fn set_by(alloc: Global, pairs: &Pairs, values: &[Value]) -> Result<Value, FnFault>
    ensures { IsAnswer result (set_with pairs.now (parted_values values.now)) }
{
    match parted(values) {
        Some((keys, value)) => set_at(alloc, pairs, keys, value),
        None => Err(FnFault::ArgumentFault),
    }
}

/// Some values before a last one.
pub(crate) fn parted(values: &[Value]) -> Option<(&[Value], &Value)>
    ensures { MatchOption result (parted_values values.now ≡ None)
        (λ parts. parted_values values.now ≡ Some (record { before = parts.0.now; last = parts.1.now })) }
{
    match values {
        [] => None,
        [before @ .., last] => Some((before, last)),
    }
}

// ---- merge

fn updated(alloc: Global, other: &Pairs, pair: &(Value, Value)) -> Result<(Value, Value), Memory>
    ensures { IfOk result (λ made. made ≡ updated_by other.now pair.now) }
{
    let canon = pair.0.canon(alloc)?;
    match other.get(&canon) {
        Some(value) => both_shared(&pair.0, value),
        None => both_shared(&pair.0, &pair.1),
    }
}

fn both_shared(key: &Value, value: &Value) -> Result<(Value, Value), Memory>
    ensures { IfOk result (λ pair. pair ≡ (key.now, value.now)) }
{
    Ok((key.share()?, value.share()?))
}

fn is_new(alloc: Global, pairs: &Pairs, pair: &(Value, Value)) -> Result<bool, Memory>
    ensures { IfOk result (λ new. new ≡ is_new_in pairs.now pair.now) }
{
    let canon = pair.0.canon(alloc)?;
    Ok(pairs.get(&canon).is_none())
}

fn push_updated(
    alloc: Global,
    all: &mut List<(Value, Value)>,
    pairs: &[(Value, Value)],
    other: &Pairs,
) -> Result<(), Memory>
    ensures { OnOk result (all.new ≡ all.old ++ map (updated_by other.now) pairs.now) }
{
    'pairs: for at in 0..pairs.len() {
        all.push(updated(alloc, other, &pairs[at])?)?;
    }
    Ok(())
}

/// Puts those of some pairs behind others whose keys a map doesn't have.
pub(crate) fn push_new(
    alloc: Global,
    all: &mut List<(Value, Value)>,
    pairs: &Pairs,
    other: &[(Value, Value)],
) -> Result<(), Memory>
    ensures { OnOk result (all.new ≡ all.old ++ filter (is_new_in pairs.now) other.now) }
{
    'pairs: for at in 0..other.len() {
        let pair = &other[at];
        if is_new(alloc, pairs, pair)? {
            all.push(both_shared(&pair.0, &pair.1)?)?;
        }
    }
    Ok(())
}

fn merged(alloc: Global, pairs: &Pairs, other: &Pairs) -> Result<List<(Value, Value)>, Memory>
    ensures { IfOk result (λ all. all ≡ merged_pairs pairs.now other.now) }
{
    let mut all = List::new(alloc);
    push_updated(alloc, &mut all, pairs.as_slice(), other)?;
    push_new(alloc, &mut all, pairs, other.as_slice())?;
    Ok(all)
}

fn merged_value(alloc: Global, pairs: &Pairs, other: &Pairs) -> Result<Value, FnFault>
    ensures { IsAnswer result (map_of_pairs (merged_pairs pairs.now other.now)) }
{
    let all = merged(alloc, pairs, other)?;
    map_value(alloc, all.as_slice())
}

fn merged_at(alloc: Global, pairs: &Pairs, keys: &[Value], other: &Pairs) -> Result<Value, FnFault>
    ensures { IsAnswer result (merged_at_path pairs.now keys.now other.now) }
{
    let inner = innermost(alloc, pairs, keys)?;
    match merged_value(alloc, &inner, other) {
        Ok(value) => rebuilt_along(alloc, pairs, keys, value),
        Err(fault) => Err(fault),
    }
}

/// The maps along some keys with another value at the end of the way.
pub(crate) fn rebuilt_along(
    alloc: Global,
    pairs: &Pairs,
    keys: &[Value],
    value: Value,
) -> Result<Value, FnFault>
    ensures { IsAnswer result (rebuilt_of (steps_of pairs.now keys.now) value) }
{
    match steps(alloc, pairs, keys) {
        Ok(steps) => rebuilt(alloc, steps, value),
        Err(_) => Err(FnFault::Memory),
    }
}

pub(crate) fn merge(alloc: Global, args: &[Argument]) -> Result<Value, FnFault>
    ensures { IsAnswer result (merge args.now) }
{
    let (given, others) = two(args)?;
    let values = rest(others)?;
    let pairs = pairs_of(alloc, given)?;
    merge_by(alloc, &pairs, values)
}

fn merge_by(alloc: Global, pairs: &Pairs, values: &[Value]) -> Result<Value, FnFault>
    ensures { IsAnswer result (merge_with pairs.now (parted_values values.now)) }
{
    match parted(values) {
        Some((keys, other)) => {
            let other = pairs_of(alloc, other)?;
            merged_at(alloc, pairs, keys, &other)
        }
        None => Err(FnFault::ArgumentFault),
    }
}

// ---- remove

fn canons_of(alloc: Global, keys: &[Value]) -> Result<IndexSet<Canon>, Memory>
    ensures { IfOk result (λ canons. canons.keys ≡ canons_after [] keys.now) }
{
    let mut canons = IndexSet::new(alloc);
    'keys: for at in 0..keys.len() {
        canons.insert(keys[at].canon(alloc)?)?;
    }
    Ok(canons)
}

fn is_among(alloc: Global, canons: &IndexSet<Canon>, pair: &(Value, Value)) -> Result<bool, Memory>
    ensures { IfOk result (λ among. among ≡ is_among_canons canons.now.keys pair.now) }
{
    let canon = pair.0.canon(alloc)?;
    Ok(canons.contains(&canon))
}

fn without(
    alloc: Global,
    pairs: &[(Value, Value)],
    keys: &[Value],
) -> Result<List<(Value, Value)>, Memory>
    ensures { IfOk result (λ all. all ≡ without_keys pairs.now keys.now) }
{
    let canons = canons_of(alloc, keys)?;
    without_canons(alloc, pairs, &canons)
}

fn without_canons(
    alloc: Global,
    pairs: &[(Value, Value)],
    canons: &IndexSet<Canon>,
) -> Result<List<(Value, Value)>, Memory>
    ensures { IfOk result (λ all. all ≡ filter (λ p. not (is_among_canons canons.now.keys p)) pairs.now) }
{
    let mut all = List::new(alloc);
    'pairs: for at in 0..pairs.len() {
        let pair = &pairs[at];
        if !is_among(alloc, canons, pair)? {
            all.push(both_shared(&pair.0, &pair.1)?)?;
        }
    }
    Ok(all)
}

/// The map without some keys.
pub(crate) fn without_value(alloc: Global, pairs: &Pairs, keys: &[Value]) -> Result<Value, FnFault>
    ensures { IsAnswer result (map_of_pairs (without_keys pairs.now keys.now)) }
{
    let all = without(alloc, pairs.as_slice(), keys)?;
    map_value(alloc, all.as_slice())
}

pub(crate) fn remove(alloc: Global, args: &[Argument]) -> Result<Value, FnFault>
    ensures { IsAnswer result (remove args.now) }
{
    let (given, others) = two(args)?;
    let keys = rest(others)?;
    let pairs = pairs_of(alloc, given)?;
    without_value(alloc, &pairs, keys)
}
