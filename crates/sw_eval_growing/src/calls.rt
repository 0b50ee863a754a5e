// What a call gives whose first argument grows.
ghost use Rattle.std.specs.Prelude.{◌≡◌, ◌∷◌, ◌++◌, [], true, Some, IfOk, OnOk};
ghost use Rattle.sw_values.specs.Growing.{is_map};
ghost use Rattle.sw_fn_call.specs.Answers.{IsAnswer};
ghost use Rattle.sw_fn_call.specs.Arguments.{rest as rest_of};
ghost use Rattle.sw_fn_list.specs.Joining.{append};
ghost use Rattle.sw_fn_map.specs.Changes.{set, merge};
ghost use Rattle.sw_builtins.specs.Calls.{answer};
ghost use Rattle.sw_eval_growing.specs.Growth.{list_grows, map_grows, grows, append_to, set_in, merge_in, two_of, pairs_given, has_pairs, HasDistinctKeys};

use crate::given::{has_pairs, key_and_value, pair_given};
use crate::growing::{appended, keyed};
use crate::separators::separator_chosen;
use crate::taking::{three_taken, two_taken};
use std::alloc::Global;
use sw_builtins::{BuiltIn, call};
use sw_fn_call::{Argument, FnFault};
use sw_text::{List, Memory, Name};
use sw_values::Value;

fn list_grows(function: sw_fn_list::Function) -> bool
    ensures { result ≡ list_grows function }
{
    match function {
        sw_fn_list::Function::Append => true,
        _ => false,
    }
}

fn map_grows(function: sw_fn_map::Function) -> bool
    ensures { result ≡ map_grows function }
{
    match function {
        sw_fn_map::Function::Set => true,
        sw_fn_map::Function::Merge => true,
        _ => false,
    }
}

/// Whether a function makes its first argument grow.
pub fn grows(function: BuiltIn) -> bool
    ensures { result ≡ grows function }
{
    match function {
        BuiltIn::List(function) => list_grows(function),
        BuiltIn::Map(function) => map_grows(function),
        _ => false,
    }
}

// ---- append

fn push_value(alloc: Global, all: &mut List<Argument>, value: &Value) -> Result<(), Memory>
    ensures { OnOk result (all.new ≡ all.old ++ ([], value.now) ∷ []) }
{
    let name = Name::new(alloc, "")?;
    let value = value.share()?;
    all.push((name, value))
}

fn three_arguments(
    alloc: Global,
    given: &Value,
    item: &Value,
    separator: &Value,
) -> Result<List<Argument>, Memory>
    ensures { IfOk result (λ all. all ≡ ([], given.now) ∷ ([], item.now) ∷ ([], separator.now) ∷ []) }
{
    let mut all = List::new(alloc);
    push_value(alloc, &mut all, given)?;
    push_value(alloc, &mut all, item)?;
    push_value(alloc, &mut all, separator)?;
    Ok(all)
}

// What `append` gives by a copy.
#[tactic(auto, unfolding(sw_builtins::specs::Calls::answer, sw_fn_list::specs::Calls::answer, sw_fn_call::specs::Arguments::three))]
fn append_anew(
    alloc: Global,
    given: &Value,
    item: &Value,
    separator: &Value,
) -> Result<Value, FnFault>
    ensures { IsAnswer result (append_to given.now item.now separator.now) }
{
    let all = three_arguments(alloc, given, item, separator)?;
    let function = BuiltIn::List(sw_fn_list::Function::Append);
    call(alloc, function, all.as_slice())
}

fn append_to(alloc: Global, given: Value, item: Value, separator: &Value) -> Result<Value, FnFault>
    ensures { IsAnswer result (append_to given item separator.now) }
{
    if !given.is_list() {
        return append_anew(alloc, &given, &item, separator);
    }
    let separator = separator_chosen(separator)?;
    appended(alloc, given, item, separator)
}

fn append_call(alloc: Global, arguments: List<Argument>) -> Result<Value, FnFault>
    ensures { IsAnswer result (append arguments) }
{
    let (given, item, separator) = three_taken(arguments)?;
    append_to(alloc, given, item, &separator)
}

// ---- set

fn two_arguments(alloc: Global, given: &Value, others: &Value) -> Result<List<Argument>, Memory>
    ensures { IfOk result (λ all. all ≡ ([], given.now) ∷ ([], others.now) ∷ []) }
{
    let mut all = List::new(alloc);
    push_value(alloc, &mut all, given)?;
    push_value(alloc, &mut all, others)?;
    Ok(all)
}

// What `map.set` gives by a copy.
#[tactic(auto, unfolding(sw_builtins::specs::Calls::answer, sw_fn_map::specs::Calls::answer, sw_fn_call::specs::Arguments::two))]
fn set_anew(alloc: Global, given: &Value, others: &Value) -> Result<Value, FnFault>
    ensures { IsAnswer result (set_in given.now others.now) }
{
    let all = two_arguments(alloc, given, others)?;
    let function = BuiltIn::Map(sw_fn_map::Function::Set);
    call(alloc, function, all.as_slice())
}

// The same with one key, in place.
#[tactic(auto, using(crate::proofs::Keys::one_key))]
fn set_one(
    alloc: Global,
    given: Value,
    others: &Value,
    key: &Value,
    value: &Value,
) -> Result<Value, FnFault>
    requires map { is_map given ≡ true }
    requires key { two_of (rest_of others.now) ≡ Some (key.now, value.now) }
    ensures { IsAnswer result (set_in given others.now) }
{
    keyed(alloc, given, key, value)
}

fn set_in(alloc: Global, given: Value, others: &Value) -> Result<Value, FnFault>
    ensures { IsAnswer result (set_in given others.now) }
{
    if !given.is_map() {
        return set_anew(alloc, &given, others);
    }
    match key_and_value(others) {
        Some((key, value)) => set_one(alloc, given, others, key, value),
        None => set_anew(alloc, &given, others),
    }
}

fn set_call(alloc: Global, arguments: List<Argument>) -> Result<Value, FnFault>
    ensures { IsAnswer result (set arguments) }
{
    let (given, others) = two_taken(arguments)?;
    set_in(alloc, given, &others)
}

// ---- merge

// What `map.merge` gives by a copy.
#[tactic(auto, unfolding(sw_builtins::specs::Calls::answer, sw_fn_map::specs::Calls::answer, sw_fn_call::specs::Arguments::two))]
fn merge_anew(alloc: Global, given: &Value, others: &Value) -> Result<Value, FnFault>
    ensures { IsAnswer result (merge_in given.now others.now) }
{
    let all = two_arguments(alloc, given, others)?;
    let function = BuiltIn::Map(sw_fn_map::Function::Merge);
    call(alloc, function, all.as_slice())
}

// The same with a map of one pair, in place.
#[tactic(auto, using(crate::proofs::Merging::has_map, crate::proofs::Merging::one_pair))]
fn merge_one(
    alloc: Global,
    given: Value,
    others: &Value,
    pair: &(Value, Value),
) -> Result<Value, FnFault>
    requires pairs { has_pairs given ≡ true }
    requires distinct { HasDistinctKeys given }
    requires pair { pairs_given others.now ≡ Some pair.now }
    ensures { IsAnswer result (merge_in given others.now) }
{
    keyed(alloc, given, &pair.0, &pair.1)
}

fn merge_in(alloc: Global, given: Value, others: &Value) -> Result<Value, FnFault>
    ensures { IsAnswer result (merge_in given others.now) }
{
    if !has_pairs(&given) {
        return merge_anew(alloc, &given, others);
    }
    match pair_given(others) {
        Some(pair) => merge_one(alloc, given, others, pair),
        None => merge_anew(alloc, &given, others),
    }
}

fn merge_call(alloc: Global, arguments: List<Argument>) -> Result<Value, FnFault>
    ensures { IsAnswer result (merge arguments) }
{
    let (given, others) = two_taken(arguments)?;
    merge_in(alloc, given, &others)
}

// ---- all

/// What a function gives for the values of its parameters, which are given up: a list that `append` makes longer, or a
/// map that gets one pair by `map.set` or by `map.merge`, isn't copied where nobody else holds it.
#[tactic(auto, unfolding(sw_builtins::specs::Calls::answer, sw_fn_list::specs::Calls::answer, sw_fn_map::specs::Calls::answer))]
pub(crate) fn call_grown(
    alloc: Global,
    function: BuiltIn,
    arguments: List<Argument>,
) -> Result<Value, FnFault>
    ensures { IsAnswer result (answer function arguments) }
{
    match function {
        BuiltIn::List(sw_fn_list::Function::Append) => append_call(alloc, arguments),
        BuiltIn::Map(sw_fn_map::Function::Set) => set_call(alloc, arguments),
        BuiltIn::Map(sw_fn_map::Function::Merge) => merge_call(alloc, arguments),
        _ => call(alloc, function, arguments.as_slice()),
    }
}
