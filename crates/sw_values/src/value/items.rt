// Any value as a list.
ghost use Rattle.std.specs.Prelude.{◌≡◌, ◌+◌, ◌≤◌, ◌∷◌, [], IfOk, map, sum_by};
ghost use Rattle.sw_values.specs.Items.{items_of, pair_list as pair_as};
ghost use Rattle.sw_values.specs.Sizes.{pair_weight, pair_nest};
ghost use Rattle.sw_values.specs.Weight.{greatest_by, most, deepest};

use super::{Node, Value, shares};
use crate::Separator;
use std::alloc::Global;
use sw_text::{List, Memory, Shared};

impl Value {
    /// The items of the value, each with one more owner: those of a list, the pairs of a map as lists of a key and its
    /// value with a space between, and any other value itself (Sass reference documentation, "Lists").
    #[tactic(auto, unfolding(crate::specs::Items::items_of))]
    pub fn items(&self, alloc: Global) -> Result<List<Value>, Memory>
        ensures { IfOk result (λ items. items ≡ items_of self.now) }
    {
        match self.node() {
            Node::Number(_) => alone(alloc, self),
            Node::Text { .. } => alone(alloc, self),
            Node::Colour(_) => alone(alloc, self),
            Node::List { items, .. } => shares(alloc, items.get().as_slice()),
            Node::Map(pairs) => {
                // The map is neither too heavy nor too deep, so its pairs aren't.
                let _weight = self.weight();
                let _nesting = self.nesting();
                pair_lists(alloc, pairs.as_slice())
            }
            Node::Bool(_) => alone(alloc, self),
            Node::Null => alone(alloc, self),
            Node::Args { items, .. } => shares(alloc, items.get().as_slice()),
        }
    }
}

fn alone(alloc: Global, value: &Value) -> Result<List<Value>, Memory>
    ensures { IfOk result (λ items. items ≡ value.now ∷ []) }
{
    let mut items = List::new(alloc);
    items.push(value.share()?)?;
    Ok(items)
}

// The pairs of a map as lists.
fn pair_lists(alloc: Global, pairs: &[(Value, Value)]) -> Result<List<Value>, Memory>
    requires light { sum_by pair_weight pairs.now + 1 ≤ most }
    requires flat { greatest_by pair_nest pairs.now + 1 ≤ deepest }
    ensures { IfOk result (λ items. items ≡ map pair_as pairs.now) }
{
    let mut items = List::new(alloc);
    'pairs: for at in 0..pairs.len() {
        items.push(pair_list(alloc, &pairs[at])?)?;
    }
    Ok(items)
}

// A key and its value, with a space between. They are no heavier and no deeper than their map.
fn pair_list(alloc: Global, pair: &(Value, Value)) -> Result<Value, Memory>
    requires light { pair_weight pair.now + 1 ≤ most }
    requires flat { pair_nest pair.now + 1 ≤ deepest }
    ensures { IfOk result (λ list. list ≡ pair_as pair.now) }
{
    let weight = pair.0.weight() + pair.1.weight() + 1;
    let nesting = pair.0.nesting().max(pair.1.nesting()) + 1;
    let items = both_of(alloc, pair)?;
    Ok(Value {
        node: Node::List {
            items,
            separator: Separator::Space,
            bracketed: false,
        },
        weight,
        nesting,
    })
}

fn both_of(alloc: Global, pair: &(Value, Value)) -> Result<Shared<List<Value>>, Memory>
    ensures { IfOk result (λ both. both ≡ pair.now.0 ∷ pair.now.1 ∷ []) }
{
    let mut both = List::new(alloc);
    both.push(pair.0.share()?)?;
    both.push(pair.1.share()?)?;
    Shared::new(alloc, both)
}
