// Variables by their names.
ghost use Rattle.std.specs.Prelude.{◌≡◌, [], bytes_eq, OnOk, OnErr};
ghost use Rattle.std.specs.Map.{lookup};
ghost use Rattle.std.specs.Option.{option_copied, is_some};
ghost use Rattle.indexmap.specs.IndexMap.{insert_entry};

use indexmap::IndexMap;
use std::alloc::Global;
use std::marker::Model;
use sw_text::{Memory, Name};
use sw_values::Value;

/// Variables in the order in which their names came, of which calls often have none: then no name is hashed. Contracts
/// see the list of the names and values.
pub(crate) struct Table {
    entries: IndexMap<Name, Value>,
}

impl Drop for Table {
    fn drop(self) {
        let Table { entries: _ } = self;
    }
}

impl Model for Table {
    ghost use Rattle.std.specs.Prelude.{List, ℕ};
    ghost use Rattle.std.specs.Coded.{coded_list, coded×, coded_ℕ};
    ghost use Rattle.sw_values.specs.declared.plain.Plain.{Plain};
    ghost use Rattle.sw_values.specs.contracts.plain.Plain as p;

    ghost Value = { List (List ℕ × Plain) };

    ghost coded = { coded_list (coded× (coded_list coded_ℕ) p.the_row.coded) };

    ghost view = { λ table. table.entries.entries };
}

impl Table {
    /// No variable. Takes no memory.
    pub fn new(alloc: Global) -> Table
        ensures { result ≡ [] }
    {
        Table {
            entries: IndexMap::new(alloc),
        }
    }

    /// The value of a name; `None` where the name has none. Takes no memory.
    pub fn get(&self, name: &Name) -> Option<&Value>
        ensures { option_copied result ≡ lookup (bytes_eq name.now) self.now }
    {
        if self.entries.is_empty() {
            return None;
        }
        self.entries.get(name)
    }

    /// Whether a name has a value, which may be null. Takes no memory.
    pub fn has(&self, name: &Name) -> bool
        ensures { result ≡ is_some (lookup (bytes_eq name.now) self.now) }
    {
        if self.entries.is_empty() {
            return false;
        }
        self.entries.contains_key(name)
    }

    /// Gives a name a value: a name that is there keeps its place, and a new one comes last.
    /// After `Memory`, which comes exactly where none was found, all is as before.
    pub fn add(&mut self, name: Name, value: Value) -> Result<(), Memory>
        ensures ok { OnOk result (self.new ≡ insert_entry bytes_eq self.old name value) }
        ensures err { OnErr result (self.new ≡ self.old) }
    {
        self.entries.insert(name, value)?;
        Ok(())
    }
}
