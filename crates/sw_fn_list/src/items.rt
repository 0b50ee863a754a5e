// Any value as a list.
ghost use Rattle.std.specs.Prelude.{◌≡◌, ◌++◌, ◌∷◌, [], length, map, IfOk, OnOk, slice_get};
ghost use Rattle.sw_fn_list.specs.Items.{pair_list as pair_as, items_of, map_separator, separator_of as separator_in, decided_by, decided as decided_in, brackets_of as brackets_in};

use std::alloc::Global;
use sw_text::{List, Memory};
use sw_values::{Node, Pairs, Separator, Value, list_of};

/// How many items a value has as a list.
#[tactic(auto, unfolding(crate::specs::Items::items_of))]
pub(crate) fn item_count(value: &Value) -> usize
    ensures { result ≡ length (items_of value.now) }
{
    match value.node() {
        Node::Number(_) => 1,
        Node::Text { .. } => 1,
        Node::Colour(_) => 1,
        Node::List { items, .. } => items.get().len(),
        Node::Map(pairs) => pairs.as_slice().len(),
        Node::Bool(_) => 1,
        Node::Null => 1,
        Node::Args { items, .. } => items.get().len(),
    }
}

// A key and its value, with a space between. The list is no heavier and no deeper than their map, so it is never too
// large.
fn pair_list(alloc: Global, pair: &(Value, Value)) -> Result<Value, Memory>
    ensures { IfOk result (λ list. list ≡ pair_as pair.now) }
{
    let both = both_of(alloc, pair)?;
    match list_of(alloc, both.as_slice(), Separator::Space, false) {
        Ok(list) => Ok(list),
        Err(_) => Err(Memory),
    }
}

fn both_of(alloc: Global, pair: &(Value, Value)) -> Result<List<Value>, Memory>
    ensures { IfOk result (λ both. both ≡ pair.now.0 ∷ pair.now.1 ∷ []) }
{
    let mut both = List::new(alloc);
    both.push(pair.0.share()?)?;
    both.push(pair.1.share()?)?;
    Ok(both)
}

// ---- all items

fn push_shares(all: &mut List<Value>, items: &[Value]) -> Result<(), Memory>
    ensures { OnOk result (all.new ≡ all.old ++ items.now) }
{
    'items: for at in 0..items.len() {
        let item = &items[at];
        all.push(item.share()?)?;
    }
    Ok(())
}

/// Some values, each with one more owner.
pub(crate) fn shares(alloc: Global, values: &[Value]) -> Result<List<Value>, Memory>
    ensures { IfOk result (λ all. all ≡ values.now) }
{
    let mut all = List::new(alloc);
    push_shares(&mut all, values)?;
    Ok(all)
}

fn push_pairs(alloc: Global, all: &mut List<Value>, pairs: &[(Value, Value)]) -> Result<(), Memory>
    ensures { OnOk result (all.new ≡ all.old ++ map pair_as pairs.now) }
{
    'pairs: for at in 0..pairs.len() {
        all.push(pair_list(alloc, &pairs[at])?)?;
    }
    Ok(())
}

/// Puts the items of a value behind others, each with one more owner.
#[tactic(auto, unfolding(crate::specs::Items::items_of))]
pub(crate) fn push_items(alloc: Global, all: &mut List<Value>, value: &Value) -> Result<(), Memory>
    ensures { OnOk result (all.new ≡ all.old ++ items_of value.now) }
{
    match value.node() {
        Node::Number(_) => all.push(value.share()?),
        Node::Text { .. } => all.push(value.share()?),
        Node::Colour(_) => all.push(value.share()?),
        Node::List { items, .. } => push_shares(all, items.get().as_slice()),
        Node::Map(pairs) => push_pairs(alloc, all, pairs.as_slice()),
        Node::Bool(_) => all.push(value.share()?),
        Node::Null => all.push(value.share()?),
        Node::Args { items, .. } => push_shares(all, items.get().as_slice()),
    }
}

/// The items of a value as a list.
pub(crate) fn items(alloc: Global, value: &Value) -> Result<List<Value>, Memory>
    ensures { IfOk result (λ items. items ≡ items_of value.now) }
{
    let mut all = List::new(alloc);
    push_items(alloc, &mut all, value)?;
    Ok(all)
}

// ---- one item

fn share_at(items: &[Value], at: usize) -> Result<Option<Value>, Memory>
    ensures { IfOk result (λ item. item ≡ slice_get items.now at) }
{
    match items.get(at) {
        Some(item) => Ok(Some(item.share()?)),
        None => Ok(None),
    }
}

fn pair_at(alloc: Global, pairs: &Pairs, at: usize) -> Result<Option<Value>, Memory>
    ensures { IfOk result (λ item. item ≡ slice_get (map pair_as pairs.now) at) }
{
    match pairs.as_slice().get(at) {
        Some(pair) => Ok(Some(pair_list(alloc, pair)?)),
        None => Ok(None),
    }
}

fn itself_at(value: &Value, at: usize) -> Result<Option<Value>, Memory>
    ensures { IfOk result (λ item. item ≡ slice_get (value.now ∷ []) at) }
{
    if at == 0 {
        return Ok(Some(value.share()?));
    }
    Ok(None)
}

/// The item of a value at a place, counted from 0; none behind the last one.
#[tactic(auto, unfolding(crate::specs::Items::items_of))]
pub(crate) fn item_at(alloc: Global, value: &Value, at: usize) -> Result<Option<Value>, Memory>
    ensures { IfOk result (λ item. item ≡ slice_get (items_of value.now) at) }
{
    match value.node() {
        Node::Number(_) => itself_at(value, at),
        Node::Text { .. } => itself_at(value, at),
        Node::Colour(_) => itself_at(value, at),
        Node::List { items, .. } => share_at(items.get().as_slice(), at),
        Node::Map(pairs) => pair_at(alloc, pairs, at),
        Node::Bool(_) => itself_at(value, at),
        Node::Null => itself_at(value, at),
        Node::Args { items, .. } => share_at(items.get().as_slice(), at),
    }
}

// ---- separator and brackets

fn map_separator(pairs: &[(Value, Value)]) -> Separator
    ensures { result ≡ map_separator pairs.now }
{
    match pairs {
        [] => Separator::Undecided,
        [_, ..] => Separator::Comma,
    }
}

/// The separator of a value as a list.
#[tactic(auto, unfolding(crate::specs::Items::separator_of))]
pub(crate) fn separator_of(value: &Value) -> Separator
    ensures { result ≡ separator_in value.now }
{
    match value.node() {
        Node::Number(_) => Separator::Undecided,
        Node::Text { .. } => Separator::Undecided,
        Node::Colour(_) => Separator::Undecided,
        Node::List { separator, .. } => *separator,
        Node::Map(pairs) => map_separator(pairs.as_slice()),
        Node::Bool(_) => Separator::Undecided,
        Node::Null => Separator::Undecided,
        Node::Args { .. } => Separator::Comma,
    }
}

fn decided_by(two: bool, separator: Separator) -> Option<Separator>
    ensures { result ≡ decided_by two separator }
{
    match separator {
        Separator::Comma => Some(Separator::Comma),
        Separator::Slash => Some(Separator::Slash),
        Separator::Space => { if two { Some(Separator::Space) } else { None } }
        Separator::Undecided => { if two { Some(Separator::Space) } else { None } }
    }
}

/// The separator of a list that has decided on one.
pub(crate) fn decided(value: &Value) -> Option<Separator>
    ensures { result ≡ decided_in value.now }
{
    decided_by(item_count(value) >= 2, separator_of(value))
}

/// Whether a list stands in brackets.
#[tactic(auto, unfolding(crate::specs::Items::brackets_of))]
pub(crate) fn brackets_of(value: &Value) -> bool
    ensures { result ≡ brackets_in value.now }
{
    match value.node() {
        Node::Number(_) => false,
        Node::Text { .. } => false,
        Node::Colour(_) => false,
        Node::List { bracketed, .. } => *bracketed,
        Node::Map(_) => false,
        Node::Bool(_) => false,
        Node::Null => false,
        Node::Args { .. } => false,
    }
}
