// When two values are equal, as `==` has it.
ghost use Rattle.std.specs.Prelude.{◌≡◌, ◌<◌, ◌+◌, ◌&&◌, IsTrue, ◌↔◌, length, map, drop, not, bytes_eq, slice_get, Some};
ghost use Rattle.std.specs.Cmp.Lexicographic.{pointwise};
ghost use Rattle.std.specs.Option.{option_copied};
ghost use Rattle.sw_values.specs.declared.plain.Plain.{Plain};
ghost use Rattle.sw_values.specs.Canon.{canon, canon_pair, map_words, is_empty};
ghost use Rattle.sw_values.specs.Equality.{is_equal, same_separator, same_truth, is_nothing, lists_alike, value_for, pairs_within, keys_within, maps_alike, alike, MapsAreTold};
ghost use Rattle.sw_values.specs.Maps.{AreDistinct};
ghost use Rattle.sw_values.specs.Shape.{node_of};

use super::coding::{separator_word, truth_word};
use super::{Node, Pairs, Value};
use crate::Separator;
use sw_units::equal;

impl Value {
    /// Whether both are equal as `==` has it, which is so exactly where their canons are the same. Takes no memory.
    pub fn equals(&self, other: &Value) -> bool
        ensures equal { result ≡ is_equal self.now other.now }
        ensures canon { IsTrue result ↔ (canon self.now ≡ canon other.now) }
        ensures rules { result ≡ alike is_equal (node_of self.now) (node_of other.now) }
    {
        equal_values(self, other)
    }
}

impl Pairs {
    /// How many there are. No two keys are equal.
    pub fn len(&self) -> usize
        ensures len { result ≡ length self.now }
        ensures distinct { AreDistinct self.now }
    {
        self.keys.get().len()
    }

    /// Whether there are no keys. Takes no memory.
    pub fn is_empty(&self) -> bool
        ensures { result ≡ is_empty self.now }
    {
        match self.as_slice() {
            [] => true,
            [_, ..] => false,
        }
    }

    // The value of the key that another map has at a place.
    fn value_at_key(&self, other: &Pairs, place: usize) -> Option<&Value>
        requires { place < length other.now }
        ensures { (pair : Plain × Plain) → slice_get other.now place ≡ Some pair
            → option_copied result ≡ value_for is_equal pair.0 self.now }
    {
        let keys = other.keys.get().as_slice();
        self.get(&keys[place])
    }

    // Whether there is the key that another map has at a place.
    fn has_key_at(&self, other: &Pairs, place: usize) -> bool
        requires { place < length other.now }
        ensures { keys_within is_equal (drop place other.now) self.now
            ≡ (result && keys_within is_equal (drop (place + 1) other.now) self.now) }
    {
        match self.value_at_key(other, place) {
            None => false,
            Some(_) => true,
        }
    }
}

fn same_separator(one: Separator, other: Separator) -> bool
    ensures { result ≡ same_separator one other }
{
    separator_word(one) == separator_word(other)
}

fn same_truth(one: bool, other: bool) -> bool
    ensures { result ≡ same_truth one other }
{
    truth_word(one) == truth_word(other)
}

// A list without items and brackets.
fn is_nothing(bracketed: bool, items: &[Value]) -> bool
    ensures { result ≡ is_nothing bracketed items.now }
{
    match items {
        [] => !bracketed,
        [_, ..] => false,
    }
}

#[cycle(equality)]
fn equal_values(a: &Value, b: &Value) -> bool
    ensures equal { result ≡ is_equal a.now b.now }
    ensures rules { result ≡ alike is_equal (node_of a.now) (node_of b.now) }
{
    equal_nodes(&a.node, &b.node)
}

#[cycle(equality)]
fn equal_nodes(a: &Node, b: &Node) -> bool
    ensures rules { result ≡ alike is_equal a.now b.now }
    ensures told { MapsAreTold a.now b.now }
{
    match (a, b) {
        (Node::Number(number), Node::Number(other)) => equal(number, other),
        (Node::Text { text, .. }, Node::Text { text: other, .. }) => text.same(other),
        (Node::Colour(colour), Node::Colour(other)) => colour.equals(other),
        (
            Node::List {
                items,
                separator,
                bracketed,
            },
            Node::List {
                items: others,
                separator: other,
                bracketed: other_bracketed,
            },
        ) => equal_lists(
            *separator,
            *bracketed,
            items.get().as_slice(),
            *other,
            *other_bracketed,
            others.get().as_slice(),
        ),
        (
            Node::List {
                items,
                separator,
                bracketed,
            },
            Node::Args { items: others, .. },
        ) => equal_lists(
            *separator,
            *bracketed,
            items.get().as_slice(),
            Separator::Comma,
            false,
            others.get().as_slice(),
        ),
        (
            Node::Args { items, .. },
            Node::List {
                items: others,
                separator: other,
                bracketed: other_bracketed,
            },
        ) => equal_lists(
            Separator::Comma,
            false,
            items.get().as_slice(),
            *other,
            *other_bracketed,
            others.get().as_slice(),
        ),
        (Node::Args { items, .. }, Node::Args { items: others, .. }) => equal_lists(
            Separator::Comma,
            false,
            items.get().as_slice(),
            Separator::Comma,
            false,
            others.get().as_slice(),
        ),
        (
            Node::List {
                items,
                bracketed,
                ..
            },
            Node::Map(pairs),
        ) => is_nothing(*bracketed, items.get().as_slice()) && pairs.is_empty(),
        (
            Node::Map(pairs),
            Node::List {
                items,
                bracketed,
                ..
            },
        ) => is_nothing(*bracketed, items.get().as_slice()) && pairs.is_empty(),
        (Node::Args { items, .. }, Node::Map(pairs)) => {
            is_nothing(false, items.get().as_slice()) && pairs.is_empty()
        }
        (Node::Map(pairs), Node::Args { items, .. }) => {
            is_nothing(false, items.get().as_slice()) && pairs.is_empty()
        }
        (Node::Map(pairs), Node::Map(others)) => equal_maps(pairs, others),
        (Node::Bool(truth), Node::Bool(other)) => same_truth(*truth, *other),
        (Node::Null, Node::Null) => true,
        _ => false,
    }
}

#[cycle(equality)]
fn equal_lists(
    separator: Separator,
    bracketed: bool,
    items: &[Value],
    other: Separator,
    other_bracketed: bool,
    others: &[Value],
) -> bool
    ensures { result ≡ lists_alike is_equal separator bracketed items.now other other_bracketed others.now }
{
    if is_nothing(bracketed, items) {
        return is_nothing(other_bracketed, others);
    }
    if !(same_separator(separator, other) && same_truth(bracketed, other_bracketed)) {
        return false;
    }
    equal_items(items, others)
}

#[cycle(equality)]
fn equal_items(xs: &[Value], ys: &[Value]) -> bool
    ensures { result ≡ pointwise is_equal xs.now ys.now }
{
    if xs.len() != ys.len() {
        return false;
    }
    'items: for i in 0..xs.len() {
        if !equal_values(&xs[i], &ys[i]) {
            return false;
        }
    }
    true
}

#[cycle(equality)]
fn equal_maps(pairs: &Pairs, others: &Pairs) -> bool
    ensures rule { result ≡ maps_alike is_equal pairs.now others.now }
    ensures words { maps_alike is_equal pairs.now others.now
        ≡ bytes_eq (map_words (map canon_pair pairs.now)) (map_words (map canon_pair others.now)) }
{
    if pairs.len() != others.len() {
        return false;
    }
    keys_within(others, pairs) && pairs_within(pairs, others)
}

fn keys_within(pairs: &Pairs, others: &Pairs) -> bool
    ensures { result ≡ keys_within is_equal pairs.now others.now }
{
    'pairs: for i in 0..pairs.len() {
        if !others.has_key_at(pairs, i) {
            return false;
        }
    }
    true
}

#[cycle(equality)]
fn pairs_within(pairs: &Pairs, others: &Pairs) -> bool
    ensures { result ≡ pairs_within is_equal pairs.now others.now }
{
    'pairs: for i in 0..pairs.len() {
        if !is_pair_within(pairs, i, others) {
            return false;
        }
    }
    true
}

#[cycle(equality)]
fn is_pair_within(pairs: &Pairs, place: usize, others: &Pairs) -> bool
    requires { place < length pairs.now }
    ensures { pairs_within is_equal (drop place pairs.now) others.now
        ≡ (result && pairs_within is_equal (drop (place + 1) pairs.now) others.now) }
{
    let list = pairs.as_slice();
    let pair = &list[place];
    match others.value_at_key(pairs, place) {
        None => false,
        Some(other) => equal_values(&pair.1, other),
    }
}
