// Values that are never too heavy and never too deep.
ghost use Rattle.std.specs.Prelude.{◌≡◌, ◌+◌, ◌<◌, ◌≤◌, ◌↔◌, ◌++◌, ◌∷◌, [], IfOk, IsErrOf, IsTrue, MatchResult, sum_by, true};
ghost use Rattle.sw_values.specs.Weight.{weigh, nest, most, deepest, greatest_by, is_within};
ghost use Rattle.sw_values.specs.Sizes.{pair_weight, pair_nest, named_weight, named_nest};
ghost use Rattle.sw_values.specs.Shape.{plain_of, node_of, truth_of, IsCapped, IsTooLarge};
ghost use Rattle.sw_values.specs.declared.fault.ValueFault.TheVariants as F;
ghost use Rattle.sw_values.specs.declared.plain.Plain.TheVariants as P;

mod coding;
mod equality;
mod equals;
mod growing;
mod inspected;
mod items;
mod maps;
mod plain_texts;
mod simple;
mod texts;

use crate::limits::{DEEPEST, MOST_WEIGHT};
use crate::numbers::number_nesting;
use crate::{Canon, Separator, ValueFault};
use indexmap::IndexSet;
pub use maps::map_of;
use std::alloc::Global;
use std::marker::Model;
use sw_colour::Colour;
use sw_text::{List, Memory, Name, Shared};
use sw_units::Number;

/// A value, which weighs at most 1,048,576 and nests at most 1,000 deep.
#[cycle(value)]
#[derive(Drop)]
pub struct Value {
    node: Node,
    weight: u32,
    nesting: u16,
}

/// What a value is.
#[cycle(value)]
#[derive(Drop)]
pub enum Node {
    Number(Number),
    Text {
        text: Name,
        quoted: bool,
    },
    Colour(Colour),
    List {
        items: Shared<List<Value>>,
        separator: Separator,
        bracketed: bool,
    },
    Map(Pairs),
    Bool(bool),
    Null,
    Args {
        items: Shared<List<Value>>,
        named: Shared<List<(Name, Value)>>,
    },
}

/// The pairs of a map. No two keys are equal. Beside the pairs as they were written stand the canons of the keys, so
/// that a key is found in constant time.
#[cycle(value)]
#[derive(Drop)]
pub struct Pairs {
    list: Shared<List<(Value, Value)>>,
    keys: Shared<IndexSet<Canon>>,
}

impl Model for Pairs {
    ghost use Rattle.std.specs.Prelude.{◌≡◌, List, map};
    ghost use Rattle.std.specs.Coded.{codes, coded_list, coded×};
    ghost use Rattle.sw_values.specs.declared.plain.Plain.{Plain};
    ghost use Rattle.sw_values.specs.contracts.plain.Plain as p;
    ghost use Rattle.sw_values.specs.Canon.{key_canon};
    ghost use Rattle.sw_values.specs.Sizes.{pairs_size, pair_nest, largest_le, last_part};
    ghost use Rattle.std.proofs.Common.{arith};

    ghost Value = { List (Plain × Plain) };

    ghost coded = { coded_list (coded× p.the_row.coded p.the_row.coded) };

    ghost view = { λ pairs. pairs.list };

    ghost invariant = { λ pairs. pairs.keys.keys ≡ map key_canon pairs.list };

    ghost size = { pairs_size };

    ghost size_decreases = { λ pairs h. last_part _ _ (largest_le _ pair_nest pairs.list (λ p. Prim.omega arith)) };
}

impl Model for Value {
    ghost use Rattle.std.specs.Prelude.{◌≡◌, ◌≤◌};
    ghost use Rattle.std.specs.Coded.{codes};
    ghost use Rattle.sw_values.specs.declared.plain.Plain.{Plain};
    ghost use Rattle.sw_values.specs.contracts.plain.Plain as p;
    ghost use Rattle.sw_values.specs.Weight.{weigh, nest};

    ghost Value = { Plain };

    ghost coded = { p.the_row.coded };

    ghost use Rattle.sw_values.specs.Shape.{plain_of, IsKept};
    ghost use Rattle.sw_values.specs.Sizes.{size_of};

    ghost view = { λ value. plain_of value.node };

    ghost invariant = { λ value. IsKept value.node value.weight value.nesting };

    ghost size = { size_of };

    ghost use Rattle.sw_values.specs.Falls.{falls};

    ghost size_decreases = { λ value h. falls value.node };
}

impl Pairs {
    /// The pairs in their order.
    pub fn as_slice(&self) -> &[(Value, Value)]
        ensures { result.now ≡ self.now }
    {
        self.list.get().as_slice()
    }

    /// One more owner, in constant time.
    #[inline(always)]
    pub fn share(&self) -> Result<Pairs, Memory>
        ensures { IfOk result (λ pairs. pairs ≡ self.now) }
    {
        let list = self.list.share()?;
        let keys = self.keys.share()?;
        Ok(Pairs { list, keys })
    }
}

impl Value {
    /// The value of a node, or `TooLarge` where it would weigh or nest too much. Looks at each item of a list once, and
    /// at nothing inside it. Takes no memory.
    #[inline(always)]
    pub fn of(node: Node) -> Result<Value, ValueFault>
        ensures { MatchResult result (λ value. (value ≡ plain_of node) × (is_within (plain_of node) ≡ true))
            (λ fault. (fault ≡ F.TooLarge) × IsTooLarge (plain_of node)) }
    {
        let weight = weight_of(&node);
        if weight > MOST_WEIGHT {
            return Err(ValueFault::TooLarge);
        }
        let nesting = nesting_of(&node);
        if nesting > DEEPEST {
            return Err(ValueFault::TooLarge);
        }
        Ok(Value {
            node,
            weight,
            nesting,
        })
    }

    /// What the value is.
    pub fn node(&self) -> &Node
        ensures plain { plain_of result.now ≡ self.now }
        ensures node { result.now ≡ node_of self.now }
    {
        &self.node
    }

    /// Whether the value counts as true: only false and null don't. Takes no memory.
    pub fn truth(&self) -> bool
        ensures { result ≡ truth_of self.now }
    {
        match self.node() {
            Node::Number(_) => true,
            Node::Text { .. } => true,
            Node::Colour(_) => true,
            Node::List { .. } => true,
            Node::Map(_) => true,
            Node::Bool(truth) => *truth,
            Node::Null => false,
            Node::Args { .. } => true,
        }
    }

    /// What the value weighs with all that is in it, from 1 to 1,048,576. It is kept, so that nothing is walked.
    pub fn weight(&self) -> u32
        ensures weight { result ≡ weigh self.now }
        ensures light { result ≤ most }
    {
        self.weight
    }

    /// How deep the value nests, up to 1,000. It is kept, so that nothing is walked.
    pub fn nesting(&self) -> u16
        ensures nesting { result ≡ nest self.now }
        ensures flat { result ≤ deepest }
    {
        self.nesting
    }

    /// One more owner, in constant time.
    #[inline(always)]
    pub fn share(&self) -> Result<Value, Memory>
        ensures { IfOk result (λ value. value ≡ self.now) }
    {
        let node = share_node(&self.node)?;
        Ok(Value {
            node,
            weight: self.weight,
            nesting: self.nesting,
        })
    }
}

#[inline(always)]
fn share_node(node: &Node) -> Result<Node, Memory>
    ensures { IfOk result (λ other. other ≡ node.now) }
{
    Ok(match node {
        Node::Number(number) => Node::Number(number.share()?),
        Node::Text { text, quoted } => Node::Text {
            text: text.share()?,
            quoted: *quoted,
        },
        Node::Colour(colour) => Node::Colour(colour.share()?),
        Node::List {
            items,
            separator,
            bracketed,
        } => Node::List {
            items: items.share()?,
            separator: *separator,
            bracketed: *bracketed,
        },
        Node::Map(pairs) => Node::Map(pairs.share()?),
        Node::Bool(truth) => Node::Bool(*truth),
        Node::Null => Node::Null,
        Node::Args { items, named } => Node::Args {
            items: items.share()?,
            named: named.share()?,
        },
    })
}

// How heavy a node is, or more than a value may weigh.
fn weight_of(node: &Node) -> u32
    ensures { IsCapped most (weigh (plain_of node.now)) result }
{
    match node {
        Node::Text { text, .. } => capped(text.as_str().len()),
        Node::List { items, .. } => items_weight(items.get().as_slice()) + 1,
        Node::Map(pairs) => pairs_weight(pairs.as_slice()) + 1,
        Node::Args { items, named } => {
            items_weight(items.get().as_slice()) + named_weight(named.get().as_slice()) + 1
        }
        Node::Number(_) => 1,
        Node::Colour(_) => 1,
        Node::Bool(_) => 1,
        Node::Null => 1,
    }
}

fn capped(bytes: usize) -> u32
    ensures capped { IsCapped most (bytes + 1) result }
    ensures few { result ≤ 1048577 }
{
    if bytes >= MOST_WEIGHT as usize {
        MOST_WEIGHT + 1
    } else {
        bytes as u32 + 1
    }
}

fn items_weight(items: &[Value]) -> u32
    ensures sum { IsCapped most (sum_by weigh items.now) result }
    ensures few { result ≤ 2097152 }
{
    let mut all = 0_u32;
    for item in items {
        all += item.weight();
        if all > MOST_WEIGHT {
            return all;
        }
    }
    all
}

fn pairs_weight(pairs: &[(Value, Value)]) -> u32
    ensures sum { IsCapped most (sum_by pair_weight pairs.now) result }
    ensures few { result ≤ 3145728 }
{
    let mut all = 0_u32;
    for pair in pairs {
        all += pair.0.weight() + pair.1.weight();
        if all > MOST_WEIGHT {
            return all;
        }
    }
    all
}

fn named_weight(named: &[(Name, Value)]) -> u32
    ensures sum { IsCapped most (sum_by named_weight named.now) result }
    ensures few { result ≤ 3145729 }
{
    let mut all = 0_u32;
    for pair in named {
        all += capped(pair.0.as_str().len()) + pair.1.weight();
        if all > MOST_WEIGHT {
            return all;
        }
    }
    all
}

// How deep a node is.
fn nesting_of(node: &Node) -> u16
    ensures { result ≡ nest (plain_of node.now) }
{
    match node {
        Node::Number(number) => number_nesting(number),
        Node::List { items, .. } => items_nesting(items.get().as_slice()) + 1,
        Node::Map(pairs) => pairs_nesting(pairs.as_slice()) + 1,
        Node::Args { items, named } => {
            items_nesting(items.get().as_slice()).max(named_nesting(named.get().as_slice())) + 1
        }
        Node::Text { .. } => 1,
        Node::Colour(_) => 1,
        Node::Bool(_) => 1,
        Node::Null => 1,
    }
}

fn items_nesting(items: &[Value]) -> u16
    ensures greatest { result ≡ greatest_by nest items.now }
    ensures few { result ≤ deepest }
{
    let mut deep = 0_u16;
    for item in items {
        deep = deep.max(item.nesting());
    }
    deep
}

fn pairs_nesting(pairs: &[(Value, Value)]) -> u16
    ensures greatest { result ≡ greatest_by pair_nest pairs.now }
    ensures few { result ≤ deepest }
{
    let mut deep = 0_u16;
    for pair in pairs {
        deep = deep.max(pair.0.nesting().max(pair.1.nesting()));
    }
    deep
}

fn named_nesting(named: &[(Name, Value)]) -> u16
    ensures greatest { result ≡ greatest_by named_nest named.now }
    ensures few { result ≤ deepest }
{
    let mut deep = 0_u16;
    for pair in named {
        deep = deep.max(pair.1.nesting());
    }
    deep
}

/// The list of these values, each with one more owner.
pub fn list_of(
    alloc: Global,
    items: &[Value],
    separator: Separator,
    bracketed: bool,
) -> Result<Value, ValueFault>
    ensures ok { IfOk result (λ value. value ≡ P.List items.now separator bracketed) }
    ensures large { IsErrOf result F.TooLarge → IsTooLarge (P.List items.now separator bracketed) }
{
    let items = Shared::new(alloc, shares(alloc, items)?)?;
    Value::of(Node::List {
        items,
        separator,
        bracketed,
    })
}

fn shares(alloc: Global, items: &[Value]) -> Result<List<Value>, Memory>
    ensures { IfOk result (λ list. list ≡ items.now) }
{
    let mut list = List::new(alloc);
    for i in 0..items.len() {
        let item = &items[i];
        list.push(item.share()?)?;
    }
    Ok(list)
}
