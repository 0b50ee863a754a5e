// Changes of maps in maps.
ghost use Rattle.std.specs.Prelude.{◌≡◌, ◌++◌, ◌∷◌, [], filter, IfOk, OnOk, Some, None};
ghost use Rattle.std.specs.Option.{option_copied};
ghost use Rattle.sw_fn_call.specs.Answers.{IsAnswer};
ghost use Rattle.sw_fn_map.specs.Changes.{is_new, without, parted as parted_values};
ghost use Rattle.sw_fn_map.specs.Deep.{deep_value as deep_value_of, deep_pair as deep_pair_of, deep_pairs as deep_pairs_of, deep_merged as deep_merged_of, deep_merge, is_map as is_map_at, are_maps as are_maps_along, removed_inside as removed_inside_of, removed_at as removed_along, removed_by as removed_path, deep_remove};
ghost use Rattle.sw_fn_map.specs.Pairs.{value_at as value_in, map_value as map_of_pairs};

use crate::changes::{innermost, parted, push_new, rebuilt_along, without_value};
use crate::pairs::{map_value, nested, pairs_of};
use std::alloc::Global;
use sw_fn_call::{Argument, FnFault, rest, three, two};
use sw_text::{List, Memory, Shared};
use sw_values::{Pairs, Value};

// ---- deep-merge

// The values that a merge makes lie behind pointers, since a level of it that is open keeps place for each on the stack.

// One more owner of a value, behind a pointer.
#[inline(never)]
fn boxed(alloc: Global, value: &Value) -> Result<Shared<Value>, Memory>
    ensures { IfOk result (λ shared. shared ≡ value.now) }
{
    Shared::new(alloc, value.share()?)
}

// What becomes of two values of one key: two maps are merged, else the second stands.
#[cycle(deep)]
fn met(alloc: Global, levels: u16, old: &Value, new: &Value) -> Result<Shared<Value>, FnFault>
    ensures { IsAnswer result (deep_value_of (deep_merged_of levels) old.now (Some new.now)) }
{
    let one = match pairs_of(alloc, old) {
        Ok(pairs) => pairs,
        Err(FnFault::Memory) => return Err(FnFault::Memory),
        Err(_) => return Ok(boxed(alloc, new)?),
    };
    let other = match pairs_of(alloc, new) {
        Ok(pairs) => pairs,
        Err(FnFault::Memory) => return Err(FnFault::Memory),
        Err(_) => return Ok(boxed(alloc, new)?),
    };
    deep_merged(alloc, levels, &one, &other)
}

#[cycle(deep)]
fn deep_value(
    alloc: Global,
    levels: u16,
    old: &Value,
    new: Option<&Value>,
) -> Result<Shared<Value>, FnFault>
    ensures { IsAnswer result (deep_value_of (deep_merged_of levels) old.now (option_copied new.entry)) }
{
    match new {
        None => Ok(boxed(alloc, old)?),
        Some(new) => met(alloc, levels, old, new),
    }
}

#[inline(never)]
fn keyed(alloc: Global, key: &Value, value: &Value) -> Result<Shared<(Value, Value)>, FnFault>
    ensures { IsAnswer result (Ok (key.now, value.now)) }
{
    Ok(Shared::new(alloc, (key.share()?, value.share()?))?)
}

#[cycle(deep)]
fn deep_pair(
    alloc: Global,
    levels: u16,
    pair: &(Value, Value),
    other: &Pairs,
) -> Result<Shared<(Value, Value)>, FnFault>
    ensures { IsAnswer result (deep_pair_of (deep_merged_of levels) pair.now other.now) }
{
    let canon = pair.0.canon(alloc)?;
    match deep_value(alloc, levels, &pair.1, other.get(&canon)) {
        Ok(value) => keyed(alloc, &pair.0, value.get()),
        Err(fault) => Err(fault),
    }
}

#[inline(never)]
fn push_pair(all: &mut List<(Value, Value)>, pair: &(Value, Value)) -> Result<(), Memory>
    ensures { OnOk result (all.new ≡ all.old ++ pair.now ∷ []) }
{
    all.push((pair.0.share()?, pair.1.share()?))
}

#[cycle(deep)]
fn deep_pairs(
    alloc: Global,
    levels: u16,
    pairs: &[(Value, Value)],
    other: &Pairs,
) -> Result<List<(Value, Value)>, FnFault>
    ensures { IsAnswer result (deep_pairs_of (deep_merged_of levels) pairs.now other.now) }
{
    let mut all = List::new(alloc);
    'pairs: for at in 0..pairs.len() {
        let pair = deep_pair(alloc, levels, &pairs[at], other)?;
        push_pair(&mut all, pair.get())?;
    }
    Ok(all)
}

// The map of some pairs, behind a pointer.
#[inline(never)]
fn boxed_map(alloc: Global, pairs: &[(Value, Value)]) -> Result<Shared<Value>, FnFault>
    ensures { IsAnswer result (map_of_pairs pairs.now) }
{
    match map_value(alloc, pairs) {
        Ok(value) => Ok(Shared::new(alloc, value)?),
        Err(fault) => Err(fault),
    }
}

// The map of some pairs and of those of another map whose keys a map doesn't have.
#[inline(never)]
fn with_new(
    alloc: Global,
    mut all: List<(Value, Value)>,
    pairs: &Pairs,
    other: &Pairs,
) -> Result<Shared<Value>, FnFault>
    ensures { IsAnswer result (map_of_pairs (all ++ filter (is_new pairs.now) other.now)) }
{
    push_new(alloc, &mut all, pairs, other.as_slice())?;
    boxed_map(alloc, all.as_slice())
}

#[cycle(deep)]
#[tactic(auto, unfolding(crate::specs::Deep::deep_merged))]
fn deep_merged(
    alloc: Global,
    levels: u16,
    pairs: &Pairs,
    other: &Pairs,
) -> Result<Shared<Value>, FnFault>
    ensures { IsAnswer result (deep_merged_of levels pairs.now other.now) }
{
    if levels == 0 {
        return boxed_map(alloc, other.as_slice());
    }
    match deep_pairs(alloc, levels - 1, pairs.as_slice(), other) {
        Ok(all) => with_new(alloc, all, pairs, other),
        Err(fault) => Err(fault),
    }
}

pub(crate) fn deep_merge(alloc: Global, args: &[Argument]) -> Result<Value, FnFault>
    ensures { IsAnswer result (deep_merge args.now) }
{
    let (first, second) = two(args)?;
    let pairs = pairs_of(alloc, first)?;
    let other = pairs_of(alloc, second)?;
    match deep_merged(alloc, 1001, &pairs, &other) {
        Ok(value) => Ok(value.get().share()?),
        Err(fault) => Err(fault),
    }
}

// ---- deep-remove

fn is_map(alloc: Global, pairs: &Pairs, key: &Value) -> Result<bool, Memory>
    ensures { IfOk result (λ is. is ≡ is_map_at (value_in pairs.now key.now)) }
{
    let canon = key.canon(alloc)?;
    match pairs.get(&canon) {
        Some(value) => is_map_value(alloc, value),
        None => Ok(false),
    }
}

fn is_map_value(alloc: Global, value: &Value) -> Result<bool, Memory>
    ensures { IfOk result (λ is. is ≡ is_map_at (Some value.now)) }
{
    match pairs_of(alloc, value) {
        Ok(_) => Ok(true),
        Err(FnFault::Memory) => Err(Memory),
        Err(_) => Ok(false),
    }
}

// Whether each of some keys leads to a map.
fn are_maps(alloc: Global, pairs: &Pairs, keys: &[Value]) -> Result<bool, Memory>
    ensures { IfOk result (λ are. are ≡ are_maps_along pairs.now keys.now) }
{
    let mut inner = pairs.share()?;
    'keys: for at in 0..keys.len() {
        let key = &keys[at];
        if !is_map(alloc, &inner, key)? {
            return Ok(false);
        }
        inner = nested(alloc, &inner, key)?;
    }
    Ok(true)
}

fn alone(alloc: Global, key: &Value) -> Result<List<Value>, Memory>
    ensures { IfOk result (λ keys. keys ≡ key.now ∷ []) }
{
    let mut keys = List::new(alloc);
    keys.push(key.share()?)?;
    Ok(keys)
}

fn without_one(alloc: Global, pairs: &Pairs, key: &Value) -> Result<Value, FnFault>
    ensures { IsAnswer result (map_of_pairs (without pairs.now (key.now ∷ []))) }
{
    let keys = alone(alloc, key)?;
    without_value(alloc, pairs, keys.as_slice())
}

fn removed_inside(
    alloc: Global,
    pairs: &Pairs,
    keys: &[Value],
    last: &Value,
) -> Result<Value, FnFault>
    ensures { IsAnswer result (removed_inside_of pairs.now keys.now last.now) }
{
    let inner = innermost(alloc, pairs, keys)?;
    match without_one(alloc, &inner, last) {
        Ok(value) => rebuilt_along(alloc, pairs, keys, value),
        Err(fault) => Err(fault),
    }
}

fn removed_at(alloc: Global, pairs: &Pairs, keys: &[Value], last: &Value) -> Result<Value, FnFault>
    ensures { IsAnswer result (removed_along pairs.now keys.now last.now) }
{
    if are_maps(alloc, pairs, keys)? {
        return removed_inside(alloc, pairs, keys, last);
    }
    map_value(alloc, pairs.as_slice())
}

fn removed_by(alloc: Global, pairs: &Pairs, path: &[Value]) -> Result<Value, FnFault>
    ensures { IsAnswer result (removed_path pairs.now (parted_values path.now)) }
{
    match parted(path) {
        Some((keys, last)) => removed_at(alloc, pairs, keys, last),
        None => Err(FnFault::ArgumentFault),
    }
}

fn path_of(alloc: Global, key: &Value, keys: &[Value]) -> Result<List<Value>, Memory>
    ensures { IfOk result (λ path. path ≡ key.now ∷ keys.now) }
{
    let mut path = List::new(alloc);
    path.push(key.share()?)?;
    'keys: for at in 0..keys.len() {
        let next = &keys[at];
        path.push(next.share()?)?;
    }
    Ok(path)
}

fn removed_behind(
    alloc: Global,
    pairs: &Pairs,
    key: &Value,
    keys: &[Value],
) -> Result<Value, FnFault>
    ensures { IsAnswer result (removed_path pairs.now (parted_values (key.now ∷ keys.now))) }
{
    let path = path_of(alloc, key, keys)?;
    removed_by(alloc, pairs, path.as_slice())
}

pub(crate) fn deep_remove(alloc: Global, args: &[Argument]) -> Result<Value, FnFault>
    ensures { IsAnswer result (deep_remove args.now) }
{
    let (given, key, others) = three(args)?;
    let keys = rest(others)?;
    let pairs = pairs_of(alloc, given)?;
    removed_behind(alloc, &pairs, key, keys)
}
