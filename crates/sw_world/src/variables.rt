// The variables of a module that a body names behind a namespace.
ghost use Rattle.std.specs.Prelude.{◌≡◌, [], ◌∷◌, true, IfOk, OnOk};
ghost use Rattle.std.specs.Bool.{OnTrue};
ghost use Rattle.sw_world.specs.Body.{Pair};
ghost use Rattle.sw_world.specs.Named.{IsOfVariable, IsNamed};

use crate::Table;
use std::alloc::Global;
use sw_text::{Memory, Name};
use sw_values::Value;

/// The variables of the module at `path` that the module at `site` names behind the namespace `space`, each with its
/// value. They stand for two questions each: which variable a name is, and what its value is.
pub struct NamedVariables {
    pub site: Name,
    pub space: Name,
    pub path: Name,
    pub values: Table<Value>,
}

impl Drop for NamedVariables {
    fn drop(self) {
        let NamedVariables {
            site: _,
            space: _,
            path: _,
            values: _,
        } = self;
    }
}

impl NamedVariables {
    /// One variable, which the module at `site` names behind the namespace `space`.
    pub fn first(
        alloc: Global,
        site: &Name,
        space: &Name,
        path: &Name,
        name: &Name,
        value: &Value,
    ) -> Result<NamedVariables, Memory>
        ensures { IfOk result (λ named. named ≡ record {
          site = site.now;
          space = space.now;
          path = path.now;
          values = (name.now, value.now) ∷ [];
        }) }
    {
        let mut values = Table::new(alloc);
        values.add(name.share()?, value.share()?)?;
        Ok(NamedVariables {
            site: site.share()?,
            space: space.share()?,
            path: path.share()?,
            values,
        })
    }

    /// Whether they are those of the module at `path` that the module at `site` names behind the namespace `space`.
    pub fn are_of(&self, site: &Name, space: &Name, path: &Name) -> bool
        ensures { OnTrue result ((self.now.site ≡ site.now) × (self.now.space ≡ space.now) × (self.now.path ≡ path.now)) }
    {
        self.path.same(path) && self.space.same(space) && self.site.same(site)
    }

    /// One more variable is named, in constant time; false where it is named with another value.
    pub fn add(&mut self, name: &Name, value: &Value) -> Result<bool, Memory>
        ensures has { IfOk result (λ has. has ≡ true
            → (pair : Pair) → IsOfVariable self.old (name.now, value.now) pair → IsNamed self.new pair) }
        ensures keeps { OnOk result ((pair : Pair) → IsNamed self.old pair → IsNamed self.new pair) }
    {
        match self.values.get(name) {
            Some(there) => Ok(there.same(value)),
            None => {
                self.values.add(name.share()?, value.share()?)?;
                Ok(true)
            }
        }
    }
}
