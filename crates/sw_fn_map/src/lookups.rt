// What a map has.
ghost use Rattle.std.specs.Prelude.{◌≡◌, map, IfOk};
ghost use Rattle.sw_values.specs.Maps.{second};
ghost use Rattle.sw_fn_call.specs.Answers.{IsAnswer};
ghost use Rattle.sw_fn_map.specs.Lookups.{found as found_in, or_null as or_null_of, first, get, has_key, keys, values};

use crate::pairs::{nested, pairs_of, value_at};
use std::alloc::Global;
use sw_fn_call::{Argument, FnFault, list, one, rest, three};
use sw_text::{List, Memory};
use sw_values::{Pairs, Separator, Value};

// What stands behind a key and further keys.
fn found(alloc: Global, pairs: Pairs, key: &Value, keys: &[Value]) -> Result<Option<Value>, Memory>
    ensures { IfOk result (λ value. value ≡ found_in pairs key.now keys.now) }
{
    let mut inner = pairs;
    let mut next = key;
    'keys: for at in 0..keys.len() {
        inner = nested(alloc, &inner, next)?;
        next = &keys[at];
    }
    value_at(alloc, &inner, next)
}

fn or_null(value: Option<Value>) -> Value
    ensures { result ≡ or_null_of value }
{
    match value {
        Some(value) => value,
        None => Value::null(),
    }
}

pub(crate) fn get(alloc: Global, args: &[Argument]) -> Result<Value, FnFault>
    ensures { IsAnswer result (get args.now) }
{
    let (given, key, others) = three(args)?;
    let keys = rest(others)?;
    let pairs = pairs_of(alloc, given)?;
    Ok(or_null(found(alloc, pairs, key, keys)?))
}

pub(crate) fn has_key(alloc: Global, args: &[Argument]) -> Result<Value, FnFault>
    ensures { IsAnswer result (has_key args.now) }
{
    let (given, key, others) = three(args)?;
    let keys = rest(others)?;
    let pairs = pairs_of(alloc, given)?;
    Ok(Value::of_truth(found(alloc, pairs, key, keys)?.is_some()))
}

fn firsts(alloc: Global, pairs: &[(Value, Value)]) -> Result<List<Value>, Memory>
    ensures { IfOk result (λ keys. keys ≡ map first pairs.now) }
{
    let mut all = List::new(alloc);
    'pairs: for at in 0..pairs.len() {
        let pair = &pairs[at];
        all.push(pair.0.share()?)?;
    }
    Ok(all)
}

fn seconds(alloc: Global, pairs: &[(Value, Value)]) -> Result<List<Value>, Memory>
    ensures { IfOk result (λ values. values ≡ map second pairs.now) }
{
    let mut all = List::new(alloc);
    'pairs: for at in 0..pairs.len() {
        let pair = &pairs[at];
        all.push(pair.1.share()?)?;
    }
    Ok(all)
}

pub(crate) fn keys(alloc: Global, args: &[Argument]) -> Result<Value, FnFault>
    ensures { IsAnswer result (keys args.now) }
{
    let pairs = pairs_of(alloc, one(args)?)?;
    let all = firsts(alloc, pairs.as_slice())?;
    list(alloc, all, Separator::Comma, false)
}

pub(crate) fn values(alloc: Global, args: &[Argument]) -> Result<Value, FnFault>
    ensures { IsAnswer result (values args.now) }
{
    let pairs = pairs_of(alloc, one(args)?)?;
    let all = seconds(alloc, pairs.as_slice())?;
    list(alloc, all, Separator::Comma, false)
}
