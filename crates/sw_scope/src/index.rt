// The places of names in a frame that has many variables.
ghost use Rattle.std.specs.Prelude.{◌≡◌, ◌+◌, ◌-◌, ◌<◌, [], take, length, bytes_eq, OnOk, IfOk};
ghost use Rattle.std.specs.Map.{lookup};
ghost use Rattle.sw_scope.specs.Index.{IsIndex, IsIndexed, IsNoted};

use indexmap::IndexMap;
use std::alloc::Global;
use std::marker::Model;
use sw_text::{Memory, Name};
use sw_values::Value;

/// How many variables a frame has when its names get an index. With fewer, a search from the last one is faster.
pub(crate) const MANY: usize = 32;

/// The last place of each name. Contracts see the list of the names and places.
pub(crate) struct Index {
    places: IndexMap<Name, usize>,
}

impl Drop for Index {
    fn drop(self) {
        let Index { places: _ } = self;
    }
}

impl Model for Index {
    ghost use Rattle.std.specs.Prelude.{List, ℕ};
    ghost use Rattle.std.specs.Coded.{coded_list, coded×, coded_ℕ};

    ghost Value = { List (List ℕ × ℕ) };

    ghost coded = { coded_list (coded× (coded_list coded_ℕ) coded_ℕ) };

    ghost view = { λ index. index.places.entries };
}

impl Index {
    fn new(alloc: Global) -> Index
        ensures { result ≡ [] }
    {
        Index {
            places: IndexMap::new(alloc),
        }
    }

    /// The place of a name; `None` where it has none. Takes no memory.
    pub fn get(&self, name: &Name) -> Option<usize>
        ensures { result ≡ lookup (bytes_eq name.now) self.now }
    {
        self.places.get(name).copied()
    }

    fn add(&mut self, name: &Name, place: usize) -> Result<(), Memory>
        ensures { OnOk result (IsNoted self.old name.now place self.new) }
    {
        self.places.insert(name.share()?, place)?;
        Ok(())
    }

    // Adds the variable at a place to an index of those before it.
    fn note(&mut self, vars: &[(Name, Value)], at: usize) -> Result<(), Memory>
        requires within { at < length vars.now }
        requires index { IsIndex self.old (take at vars.now) }
        ensures { OnOk result (IsIndex self.new (take (at + 1) vars.now)) }
    {
        self.add(&vars[at].0, at)
    }
}

fn index_of(alloc: Global, vars: &[(Name, Value)]) -> Result<Index, Memory>
    ensures { IfOk result (λ index. IsIndex index vars.now) }
{
    let mut index = Index::new(alloc);
    'vars: for at in 0..vars.len() {
        index.note(vars, at)?;
    }
    Ok(index)
}

/// The index of a frame's variables, of which the last is new and the others had this index. There is none for few
/// variables, and none where no memory was found for it.
pub(crate) fn grown(alloc: Global, index: Option<Index>, vars: &[(Name, Value)]) -> Option<Index>
    requires some { 0 < length vars.now }
    requires indexed { IsIndexed index (take (length vars.now - 1) vars.now) }
    ensures { IsIndexed result vars.now }
{
    match index {
        Some(mut index) => match index.note(vars, vars.len() - 1) {
            Ok(()) => Some(index),
            Err(_) => None,
        },
        None => {
            if vars.len() != MANY {
                return None;
            }
            index_of(alloc, vars).ok()
        }
    }
}
