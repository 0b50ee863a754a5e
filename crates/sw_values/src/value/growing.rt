// Lists and maps that grow, in place where nobody else holds them.
ghost use Rattle.std.specs.Prelude.{◌≡◌, ◌+◌, ◌++◌, ◌∷◌, [], IfOk, IfErr, MatchResult, max, true};
ghost use Rattle.sw_values.specs.Growing.{list_parts, is_list, list_with, map_pairs, is_map, map_with, IsGrowthFault};
ghost use Rattle.sw_values.specs.Maps.{with_value};
ghost use Rattle.sw_values.specs.Shape.{plain_of, node_of, IsTooLarge};
ghost use Rattle.sw_values.specs.Weight.{weigh, nest};
ghost use Rattle.sw_values.specs.declared.fault.ValueFault.TheVariants as F;
ghost use Rattle.sw_values.specs.declared.plain.Plain.TheVariants as P;

use super::{Node, Pairs, Value, shares};
use crate::limits::{DEEPEST, MOST_WEIGHT};
use crate::{Separator, ValueFault};
use std::alloc::Global;
use sw_text::{List, Memory, Shared};

impl Value {
    /// Whether the value is a list, and no argument list. Takes no memory.
    pub fn is_list(&self) -> bool
        ensures { result ≡ is_list self.now }
    {
        match self.node() {
            Node::Number(_) => false,
            Node::Text { .. } => false,
            Node::Colour(_) => false,
            Node::List { .. } => true,
            Node::Map(_) => false,
            Node::Bool(_) => false,
            Node::Null => false,
            Node::Args { .. } => false,
        }
    }

    /// The list with one more item behind its items, joined by this separator. Where nobody else holds the items they
    /// aren't copied, and it takes constant time but for the list's growth. After a fault the list is left to those
    /// who hold it besides.
    pub fn push_item(
        self,
        alloc: Global,
        item: Value,
        separator: Separator,
    ) -> Result<Value, ValueFault>
        requires { is_list self ≡ true }
        ensures ok { IfOk result (λ value. value ≡ list_with (list_parts (node_of self)) separator item) }
        ensures list { IfOk result (λ value. is_list value ≡ true) }
        ensures err { IfErr result (λ fault.
            IsGrowthFault (list_with (list_parts (node_of self)) separator item) fault) }
    {
        let weight = self.weight() + item.weight();
        let nesting = self.nesting().max(item.nesting() + 1);
        let Value { node, .. } = self;
        match parts_of(node) {
            None => unreachable!(),
            Some((items, bracketed)) => match with_last(alloc, items, item) {
                Err(_) => Err(ValueFault::Memory),
                Ok(items) => sized(
                    Node::List {
                        items,
                        separator,
                        bracketed,
                    },
                    weight,
                    nesting,
                ),
            },
        }
    }

    /// Whether the value is a map. Takes no memory.
    pub fn is_map(&self) -> bool
        ensures { result ≡ is_map self.now }
    {
        match self.node() {
            Node::Number(_) => false,
            Node::Text { .. } => false,
            Node::Colour(_) => false,
            Node::List { .. } => false,
            Node::Map(_) => true,
            Node::Bool(_) => false,
            Node::Null => false,
            Node::Args { .. } => false,
        }
    }

    /// The map with a value for a key: a key that is there keeps its place and its spelling, and a new one comes last.
    /// Where nobody else holds the map none of it is copied, and a new key takes constant time but for the map's
    /// growth. After a fault the map is left to those who hold it besides.
    pub fn set_key(self, alloc: Global, key: &Value, value: &Value) -> Result<Value, ValueFault>
        requires { is_map self ≡ true }
        ensures ok { IfOk result (λ made. made ≡ map_with (map_pairs (node_of self)) key.now value.now) }
        ensures map { IfOk result (λ made. is_map made ≡ true) }
        ensures err { IfErr result (λ fault.
            IsGrowthFault (map_with (map_pairs (node_of self)) key.now value.now) fault) }
    {
        let weight = self.weight() + key.weight() + value.weight();
        let nesting = self.nesting().max(key.nesting().max(value.nesting()) + 1);
        let Value { node, .. } = self;
        match pairs_in(node) {
            None => unreachable!(),
            Some(pairs) => set_in(alloc, pairs, key, value, weight, nesting),
        }
    }
}

// The pairs of a map.
fn pairs_in(node: Node) -> Option<Pairs>
    ensures { result ≡ map_pairs node }
{
    match node {
        Node::Number(_) => None,
        Node::Text { .. } => None,
        Node::Colour(_) => None,
        Node::List { .. } => None,
        Node::Map(pairs) => Some(pairs),
        Node::Bool(_) => None,
        Node::Null => None,
        Node::Args { .. } => None,
    }
}

// The map of these pairs with a value for a key. The weight and the nesting are those with a new key.
fn set_in(
    alloc: Global,
    pairs: Pairs,
    key: &Value,
    value: &Value,
    weight: u32,
    nesting: u16,
) -> Result<Value, ValueFault>
    requires weight { weight ≡ weigh (P.Map pairs) + weigh key.now + weigh value.now }
    requires nesting { nesting ≡ max (nest (P.Map pairs)) (max (nest key.now) (nest value.now) + 1) }
    ensures ok { IfOk result (λ made. made ≡ P.Map (with_value pairs key.now value.now)) }
    ensures err { IfErr result (λ fault. IsGrowthFault (P.Map (with_value pairs key.now value.now)) fault) }
{
    match key.canon(alloc) {
        Err(_) => Err(ValueFault::Memory),
        Ok(canon) => match pairs.place_of(&canon) {
            Some(place) => match pairs.set_at(alloc, place, value) {
                Err(_) => Err(ValueFault::Memory),
                Ok(pairs) => Value::of(Node::Map(pairs)),
            },
            None => match pairs.grown(alloc, key, canon, value) {
                Err(_) => Err(ValueFault::Memory),
                Ok(pairs) => sized(Node::Map(pairs), weight, nesting),
            },
        },
    }
}

// The value of a node of this weight and nesting, unless one of them is too much.
fn sized(node: Node, weight: u32, nesting: u16) -> Result<Value, ValueFault>
    requires weight { weight ≡ weigh (plain_of node) }
    requires nesting { nesting ≡ nest (plain_of node) }
    ensures { MatchResult result (λ value. value ≡ plain_of node)
        (λ fault. (fault ≡ F.TooLarge) × IsTooLarge (plain_of node)) }
{
    if weight > MOST_WEIGHT {
        return Err(ValueFault::TooLarge);
    }
    if nesting > DEEPEST {
        return Err(ValueFault::TooLarge);
    }
    Ok(Value {
        node,
        weight,
        nesting,
    })
}

// The items of a list, and whether it stands in brackets.
fn parts_of(node: Node) -> Option<(Shared<List<Value>>, bool)>
    ensures { result ≡ list_parts node }
{
    match node {
        Node::Number(_) => None,
        Node::Text { .. } => None,
        Node::Colour(_) => None,
        Node::List {
            items,
            bracketed,
            ..
        } => Some((items, bracketed)),
        Node::Map(_) => None,
        Node::Bool(_) => None,
        Node::Null => None,
        Node::Args { .. } => None,
    }
}

// The list itself, where this is its one owner, else a copy.
fn owned(alloc: Global, items: Shared<List<Value>>) -> Result<List<Value>, Memory>
    ensures { IfOk result (λ list. list ≡ items) }
{
    match items.into_inner() {
        Ok(list) => Ok(list),
        Err(items) => shares(alloc, items.get().as_slice()),
    }
}

fn pushed(alloc: Global, list: List<Value>, item: Value) -> Result<Shared<List<Value>>, Memory>
    ensures { IfOk result (λ items. items ≡ list ++ item ∷ []) }
{
    let mut list = list;
    list.push(item)?;
    Shared::new(alloc, list)
}

fn with_last(
    alloc: Global,
    items: Shared<List<Value>>,
    item: Value,
) -> Result<Shared<List<Value>>, Memory>
    ensures { IfOk result (λ list. list ≡ items ++ item ∷ []) }
{
    match owned(alloc, items) {
        Ok(list) => pushed(alloc, list, item),
        Err(fault) => Err(fault),
    }
}
