// The arguments of a call.
ghost use Rattle.std.specs.Prelude.{◌≡◌, ◌∷◌, [], ◌++◌, OnOk};
ghost use Rattle.std.specs.Option.{option_copied};
ghost use Rattle.sw_scope.specs.Passed.{text_of, text_by, named_of, are_names, named_by};

use std::alloc::Global;
use sw_text::{List, Memory, Name};
use sw_values::{Node, Value};

/// The arguments of a call, evaluated, in the order in which they were written.
#[derive(Drop)]
pub struct Passed {
    /// Those by place.
    pub items: List<Value>,
    /// Those by name. Names are without `$`, with `-` for each `_`.
    pub named: List<(Name, Value)>,
    /// One was written with its name.
    pub by_name: bool,
    /// No parameters take them: one was written with neither name nor `...` behind one that was written with its name,
    /// or a key of a map that was written with `...` isn't a string.
    pub faulty: bool,
}

impl Passed {
    ghost use Rattle.sw_scope.specs.Passed as s;

    /// No arguments. Takes no memory.
    pub fn new(alloc: Global) -> Passed
        ensures { result ≡ s.none_passed }
    {
        Passed {
            items: List::new(alloc),
            named: List::new(alloc),
            by_name: false,
            faulty: false,
        }
    }

    /// An argument that is written with neither name nor `...`. After `Memory` nothing more may be said of the
    /// arguments.
    pub fn pass(&mut self, value: Value) -> Result<(), Memory>
        ensures { OnOk result (self.new ≡ s.pass self.old value) }
    {
        self.items.push(value)?;
        self.faulty = self.faulty || self.by_name;
        Ok(())
    }

    /// An argument that is written with its name, without `$` and with `-` for each `_`. After `Memory` nothing more
    /// may be said of the arguments.
    pub fn pass_named(&mut self, name: Name, value: Value) -> Result<(), Memory>
        ensures { OnOk result (self.new ≡ s.pass_named self.old name value) }
    {
        self.named.push((name, value))?;
        self.by_name = true;
        Ok(())
    }

    /// A value that is written with `...`. After `Memory` nothing more may be said of the arguments.
    pub fn spread(&mut self, alloc: Global, value: &Value) -> Result<(), Memory>
        ensures { OnOk result (self.new ≡ s.spread self.old value.now) }
    {
        match value.node() {
            Node::List { items, .. } => pass_items(&mut self.items, items.get().as_slice()),
            Node::Args { items, named } => {
                pass_items(&mut self.items, items.get().as_slice())?;
                pass_variables(&mut self.named, named.get().as_slice())
            }
            Node::Map(pairs) => self.pass_pairs(alloc, pairs.as_slice()),
            Node::Number(_) => self.pass_whole(value),
            Node::Text { .. } => self.pass_whole(value),
            Node::Colour(_) => self.pass_whole(value),
            Node::Bool(_) => self.pass_whole(value),
            Node::Null => self.pass_whole(value),
        }
    }

    fn pass_whole(&mut self, value: &Value) -> Result<(), Memory>
        ensures { OnOk result (self.new ≡ s.pass_whole self.old value.now) }
    {
        self.items.push(value.share()?)
    }

    fn pass_pairs(&mut self, alloc: Global, pairs: &[(Value, Value)]) -> Result<(), Memory>
        ensures { OnOk result (self.new ≡ s.pass_pairs self.old pairs.now) }
    {
        pass_keys(alloc, &mut self.named, pairs)?;
        self.faulty = self.faulty || !are_names(pairs);
        Ok(())
    }
}

pub(crate) fn pass_items(all: &mut List<Value>, items: &[Value]) -> Result<(), Memory>
    ensures { OnOk result (all.new ≡ all.old ++ items.now) }
{
    'items: for at in 0..items.len() {
        let item = &items[at];
        all.push(item.share()?)?;
    }
    Ok(())
}

fn pass_variables(all: &mut List<(Name, Value)>, named: &[(Name, Value)]) -> Result<(), Memory>
    ensures { OnOk result (all.new ≡ all.old ++ named.now) }
{
    'named: for at in 0..named.len() {
        let variable = &named[at];
        all.push((variable.0.share()?, variable.1.share()?))?;
    }
    Ok(())
}

// The pairs whose keys are strings.
fn pass_keys(
    alloc: Global,
    all: &mut List<(Name, Value)>,
    pairs: &[(Value, Value)],
) -> Result<(), Memory>
    ensures { OnOk result (all.new ≡ all.old ++ named_of pairs.now) }
{
    'pairs: for at in 0..pairs.len() {
        let pair = &pairs[at];
        pass_key(alloc, all, &pair.0, &pair.1)?;
    }
    Ok(())
}

fn pass_key(
    alloc: Global,
    all: &mut List<(Name, Value)>,
    key: &Value,
    value: &Value,
) -> Result<(), Memory>
    ensures { OnOk result (all.new ≡ all.old ++ named_by (text_of key.now) value.now) }
{
    match text_of(key) {
        Some(text) => all.push((Name::dashed(alloc, text.as_str())?, value.share()?)),
        None => Ok(()),
    }
}

// Whether each key is a string.
fn are_names(pairs: &[(Value, Value)]) -> bool
    ensures { result ≡ are_names pairs.now }
{
    'pairs: for at in 0..pairs.len() {
        if text_of(&pairs[at].0).is_none() {
            return false;
        }
    }
    true
}

// The text of a string.
fn text_of(value: &Value) -> Option<&Name>
    ensures { option_copied result ≡ text_of value.now }
{
    text_by(value.node())
}

fn text_by(node: &Node) -> Option<&Name>
    ensures { option_copied result ≡ text_by node.now }
{
    match node {
        Node::Text { text, .. } => Some(text),
        _ => None,
    }
}
