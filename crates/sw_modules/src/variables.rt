// The variables of a loaded module.
ghost use Rattle.std.specs.Prelude.{◌≡◌, bytes_eq, IfOk, OnOk, OnErr};
ghost use Rattle.std.specs.Map.{lookup, set_value};
ghost use Rattle.std.specs.Option.{option_map, is_some};

use std::alloc::Global;
use std::marker::Model;
use sw_text::{Memory, Name, Shared};
use sw_values::Value;
use sw_world::{Finish, Table};

/// The variables of a loaded module: those that its body left behind, shared with its run, until the first of them is
/// given another value. Contracts see the names with their values.
pub struct Variables {
    finish: Shared<Finish>,
    own: Option<Box<Table<Value>>>,
}

impl Drop for Variables {
    fn drop(self) {
        let Variables { finish: _, own: _ } = self;
    }
}

impl Model for Variables {
    ghost use Rattle.std.specs.Prelude.{List, ℕ};
    ghost use Rattle.std.specs.Option.{option_map_or};
    ghost use Rattle.std.specs.Coded.{codes};
    ghost use Rattle.sw_values.specs.declared.plain.Plain.{Plain};
    ghost use Rattle.sw_values.specs.contracts.plain.Plain as plain;

    ghost Value = { List (List ℕ × Plain) };

    ghost coded = { Prim.hlevel (codes, plain.the_row.coded) };

    ghost view = { λ variables. option_map_or (λ own. own.value) variables.own variables.finish.variables };
}

impl Variables {
    /// What a body left behind, in constant time.
    pub fn of(finish: &Shared<Finish>) -> Result<Variables, Memory>
        ensures { IfOk result (λ variables. variables ≡ finish.now.variables) }
    {
        Ok(Variables {
            finish: finish.share()?,
            own: None,
        })
    }

    /// The names with their values.
    pub(crate) fn table(&self) -> &Table<Value>
        ensures { result.now ≡ self.now }
    {
        match &self.own {
            Some(own) => own.as_ref(),
            None => &self.finish.get().variables,
        }
    }

    /// Whether there is a value of this name.
    pub fn has(&self, name: &Name) -> bool
        ensures { result ≡ is_some (lookup (bytes_eq name.now) self.now) }
    {
        match &self.own {
            Some(own) => own.as_ref().has(name),
            None => self.finish.get().variables.has(name),
        }
    }

    /// The value of a name, and its place. The place `near` and the one behind it are looked at first; what is found is
    /// the same for every guess.
    #[inline(always)]
    pub fn find(&self, name: &Name, near: usize) -> Option<(usize, &Value)>
        ensures { option_map (λ found. found.1.now) result ≡ lookup (bytes_eq name.now) self.now }
    {
        match &self.own {
            Some(own) => own.as_ref().find(name, near),
            None => self.finish.get().variables.find(name, near),
        }
    }

    /// The name, as it stands at a place where it is the same: all who are told of a variable share its one name.
    pub fn name_at(&self, place: usize, name: &Name) -> Result<Name, Memory>
        ensures { IfOk result (λ own. own ≡ name.now) }
    {
        match self.table().at(place) {
            None => name.share(),
            Some((own, _)) => {
                if own.same(name) {
                    own.share()
                } else {
                    name.share()
                }
            }
        }
    }

    /// Gives a name that is there a value; no other changes the variables. The first time it takes a table of its own.
    /// After `Memory` the variables are as before.
    pub fn set(&mut self, alloc: Global, name: &Name, value: Value) -> Result<(), Memory>
        ensures ok { OnOk result (self.new ≡ set_value (bytes_eq name.now) self.old value) }
        ensures err { OnErr result (self.new ≡ self.old) }
    {
        match &mut self.own {
            Some(own) => own.set(name, value),
            None => {
                let mut own = self.finish.get().variables.share(alloc)?;
                own.set(name, value);
                self.own = Some(Box::new(alloc, own)?);
            }
        }
        Ok(())
    }
}
