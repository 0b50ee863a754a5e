// What is given to a parameter with `...`, and to what map.
ghost use Rattle.std.specs.Prelude.{◌≡◌, Some, None, MatchOption, nat_lt, length};
ghost use Rattle.std.specs.Option.{option_copied};
ghost use Rattle.sw_values.specs.Maps.{AreDistinct};
ghost use Rattle.sw_fn_call.specs.Arguments.{rest as rest_of};
ghost use Rattle.sw_fn_map.specs.Pairs.{pairs_of};
ghost use Rattle.sw_eval_growing.specs.Growth.{one_in, one_of, two_in, two_of, pairs_given as given_pair, has_pairs as has_pairs_in, HasDistinctKeys};

use sw_fn_call::rest;
use sw_values::{Node, Pairs, Value};

type Pair = (Value, Value);

// Both items where there are two.
fn two_items(items: &[Value]) -> Option<(&Value, &Value)>
    ensures { MatchOption result (two_in items.now ≡ None) (λ pair. two_in items.now ≡ Some (pair.0.now, pair.1.now)) }
{
    match items {
        [key, value] => Some((key, value)),
        _ => None,
    }
}

/// The two values that are given, where there are two.
pub(crate) fn key_and_value(others: &Value) -> Option<(&Value, &Value)>
    ensures { MatchOption result (two_of (rest_of others.now) ≡ None)
        (λ pair. two_of (rest_of others.now) ≡ Some (pair.0.now, pair.1.now)) }
{
    match rest(others) {
        Ok(items) => two_items(items),
        Err(_) => None,
    }
}

// The only item.
fn one_item(items: &[Value]) -> Option<&Value>
    ensures { option_copied result ≡ one_in items.now }
{
    match items {
        [value] => Some(value),
        _ => None,
    }
}

// The value that is given, where it is the only one.
fn one_value(others: &Value) -> Option<&Value>
    ensures { option_copied result ≡ one_of (rest_of others.now) }
{
    match rest(others) {
        Ok(items) => one_item(items),
        Err(_) => None,
    }
}

fn only_pair(pairs: &[Pair]) -> Option<&Pair>
    ensures { option_copied result ≡ one_in pairs.now }
{
    match pairs {
        [pair] => Some(pair),
        _ => None,
    }
}

// The pair of a map that has no other.
#[tactic(auto, unfolding(sw_fn_map::specs::Pairs::pairs_of))]
fn one_pair(value: &Value) -> Option<&Pair>
    ensures { option_copied result ≡ one_of (pairs_of value.now) }
{
    match value.node() {
        Node::Number(_) => None,
        Node::Text { .. } => None,
        Node::Colour(_) => None,
        Node::List { .. } => None,
        Node::Map(pairs) => only_pair(pairs.as_slice()),
        Node::Bool(_) => None,
        Node::Null => None,
        Node::Args { .. } => None,
    }
}

/// The pair of a map that has no other, where that map is all that is given.
pub(crate) fn pair_given(others: &Value) -> Option<&Pair>
    ensures { option_copied result ≡ given_pair others.now }
{
    match one_value(others) {
        Some(map) => one_pair(map),
        None => None,
    }
}

fn are_some(pairs: &Pairs) -> bool
    ensures some { result ≡ nat_lt 0 (length pairs.now) }
    ensures distinct { AreDistinct pairs.now }
{
    pairs.len() > 0
}

/// Whether a value is a map with a pair. No two keys of a map are equal.
pub(crate) fn has_pairs(value: &Value) -> bool
    ensures pairs { result ≡ has_pairs_in value.now }
    ensures distinct { HasDistinctKeys value.now }
{
    match value.node() {
        Node::Number(_) => false,
        Node::Text { .. } => false,
        Node::Colour(_) => false,
        Node::List { .. } => false,
        Node::Map(pairs) => are_some(pairs),
        Node::Bool(_) => false,
        Node::Null => false,
        Node::Args { .. } => false,
    }
}
