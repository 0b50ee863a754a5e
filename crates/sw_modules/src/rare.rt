// A table that is mostly empty.
ghost use Rattle.std.specs.Prelude.{◌≡◌, [], bytes_eq, length, take, slice_get, OnOk, OnErr};
ghost use Rattle.std.specs.Map.{lookup};
ghost use Rattle.std.specs.Map.Iter.{deref_pair};
ghost use Rattle.std.specs.Option.{option_copied, option_map, option_map_or, is_some};
ghost use Rattle.indexmap.specs.IndexMap.{insert_entry};

use std::alloc::Global;
use std::marker::Model;
use sw_text::{Memory, Name};
use sw_world::Table;

/// A table of which most modules have no entry: it is small, and takes no memory while it is empty. Contracts see the
/// list of the entries.
#[derive(Drop)]
pub struct RareTable<V> {
    some: Option<Box<Table<V>>>,
    alloc: Global,
}

impl<V> Model for RareTable<V> {
    ghost use Rattle.std.specs.Prelude.{List, ℕ, []};
    ghost use Rattle.std.specs.Option.{option_map_or};
    ghost use Rattle.std.specs.Coded.{coded_list, coded×, coded_ℕ};

    ghost Value = { List (List ℕ × V) };

    ghost coded = { coded_list (coded× (coded_list coded_ℕ) V.code) };

    ghost view = { λ rare. option_map_or (λ table. table.value) rare.some [] };
}

impl<V> RareTable<V> {
    /// No entry. Takes no memory.
    pub(crate) fn new(alloc: Global) -> RareTable<V>
        ensures { result ≡ [] }
    {
        RareTable { some: None, alloc }
    }

    /// The entries, where there are some.
    pub(crate) fn table(&self) -> Option<&Table<V>>
        ensures { option_map_or (λ table. table.now) result [] ≡ self.now }
    {
        match &self.some {
            Some(table) => Some(table.as_ref()),
            None => None,
        }
    }

    pub(crate) fn get(&self, name: &Name) -> Option<&V>
        ensures { option_copied result ≡ lookup (bytes_eq name.now) self.now }
    {
        match &self.some {
            Some(table) => table.as_ref().get(name),
            None => None,
        }
    }

    pub(crate) fn has(&self, name: &Name) -> bool
        ensures { result ≡ is_some (lookup (bytes_eq name.now) self.now) }
    {
        match &self.some {
            Some(table) => table.as_ref().has(name),
            None => false,
        }
    }

    /// The value of a name, and its place. The place `near` and the one behind it are looked at first; what is found is
    /// the same for every guess.
    #[inline(always)]
    pub(crate) fn find(&self, name: &Name, near: usize) -> Option<(usize, &V)>
        ensures { option_map (λ found. found.1.now) result ≡ lookup (bytes_eq name.now) self.now }
    {
        match &self.some {
            Some(table) => table.as_ref().find(name, near),
            None => None,
        }
    }

    /// The entry at a place.
    pub(crate) fn at(&self, place: usize) -> Option<(&Name, &V)>
        ensures { option_map deref_pair result ≡ slice_get self.now place }
    {
        match &self.some {
            Some(table) => table.as_ref().at(place),
            None => None,
        }
    }

    /// How many names it has.
    pub(crate) fn len(&self) -> usize
        ensures { result ≡ length self.now }
    {
        match &self.some {
            Some(table) => table.as_ref().len(),
            None => 0,
        }
    }
}

impl<V: Drop> RareTable<V> {
    /// Gives a name a value: a name that is there keeps its place, and a new one comes last. After `Memory` the table
    /// is as before.
    pub(crate) fn add(&mut self, name: Name, value: V) -> Result<(), Memory>
        ensures ok { OnOk result (self.new ≡ insert_entry bytes_eq self.old name value) }
        ensures err { OnErr result (self.new ≡ self.old) }
    {
        match &mut self.some {
            Some(table) => table.add(name, value),
            None => {
                let mut table = Table::new(self.alloc);
                table.add(name, value)?;
                self.some = Some(Box::new(self.alloc, table)?);
                Ok(())
            }
        }
    }

    /// Keeps the first `len` entries. Takes no memory.
    pub(crate) fn truncate(&mut self, len: usize)
        ensures { self.new ≡ take len self.old }
    {
        match &mut self.some {
            Some(table) => table.truncate(len),
            None => {}
        }
    }
}
