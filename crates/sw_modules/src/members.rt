// Members with their origins.
ghost use Rattle.std.specs.Prelude.{◌≡◌, ℕ, take, IfOk, OnOk, OnErr};
ghost use Rattle.std.specs.Option.{option_copied};
ghost use Rattle.sw_modules.specs.Interfaces.{no_members, of_kind, origin_in, same_origin, is_other, conflicts, with_name, with_entry, joined};
ghost use Rattle.sw_modules.specs.Uses.{counts_of, first_members};

use crate::RareTable;
use std::alloc::Global;
use sw_text::{Memory, Name};
use sw_tree::Kind;

/// Where a member is from: the path of the module that declares it, or the URL of the built-in module that has it, and
/// its name there.
pub struct Origin {
    pub path: Name,
    pub name: Name,
}

impl Drop for Origin {
    fn drop(self) {
        let Origin { path: _, name: _ } = self;
    }
}

/// A member of an interface: its kind, its name there and its origin.
pub struct Entry {
    pub kind: Kind,
    pub name: Name,
    pub origin: Origin,
}

impl Drop for Entry {
    fn drop(self) {
        let Entry {
            kind: _,
            name: _,
            origin: _,
        } = self;
    }
}

/// The members that the forwards of a module brought, by their names in its interface.
pub struct Members {
    pub variables: RareTable<Origin>,
    pub functions: RareTable<Origin>,
    pub mixins: RareTable<Origin>,
}

impl Drop for Members {
    fn drop(self) {
        let Members {
            variables: _,
            functions: _,
            mixins: _,
        } = self;
    }
}

/// How many members there are of each kind.
#[derive(Clone, Copy, Drop)]
pub struct Counts {
    pub variables: usize,
    pub functions: usize,
    pub mixins: usize,
}

impl Origin {
    fn share(&self) -> Result<Origin, Memory>
        ensures { IfOk result (λ origin. origin ≡ self.now) }
    {
        Ok(Origin {
            path: self.path.share()?,
            name: self.name.share()?,
        })
    }

    fn same(&self, other: &Origin) -> bool
        ensures { result ≡ same_origin self.now other.now }
    {
        self.path.same(&other.path) && self.name.same(&other.name)
    }
}

/// Gives a name that isn't in a table an origin. After `Memory` the table is as before.
fn add_name(table: &mut RareTable<Origin>, name: &Name, origin: &Origin) -> Result<(), Memory>
    ensures ok { OnOk result (table.new ≡ with_name table.old name.now origin.now) }
    ensures err { OnErr result (table.new ≡ table.old) }
{
    if table.has(name) {
        return Ok(());
    }
    let name = name.share()?;
    let origin = origin.share()?;
    table.add(name, origin)
}

impl Members {
    /// None. Takes no memory.
    pub(crate) fn new(alloc: Global) -> Members
        ensures { result ≡ no_members }
    {
        Members {
            variables: RareTable::new(alloc),
            functions: RareTable::new(alloc),
            mixins: RareTable::new(alloc),
        }
    }

    pub(crate) fn of_kind(&self, kind: Kind) -> &RareTable<Origin>
        ensures { result.now ≡ of_kind kind self.now }
    {
        match kind {
            Kind::Variable => &self.variables,
            Kind::Function => &self.functions,
            Kind::Mixin => &self.mixins,
        }
    }

    /// Where the member of a name is from.
    pub(crate) fn origin(&self, kind: Kind, name: &Name) -> Option<&Origin>
        ensures { option_copied result ≡ origin_in self.now kind name.now }
    {
        self.of_kind(kind).get(name)
    }

    fn is_other(&self, one: &Entry) -> bool
        ensures { result ≡ is_other self.now one.now }
    {
        match self.origin(one.kind, &one.name) {
            Some(there) => !there.same(&one.origin),
            None => false,
        }
    }

    /// Whether one of these has the kind and name of a member that is from elsewhere.
    pub(crate) fn conflicts(&self, entries: &[Entry]) -> bool
        ensures { result ≡ conflicts self.now entries.now }
    {
        'entries: for one in entries {
            if self.is_other(one) {
                return true;
            }
        }
        false
    }

    fn add(&mut self, one: &Entry) -> Result<(), Memory>
        ensures ok { OnOk result (self.new ≡ with_entry self.old one.now) }
        ensures err { OnErr result (self.new ≡ self.old) }
    {
        match one.kind {
            Kind::Variable => add_name(&mut self.variables, &one.name, &one.origin),
            Kind::Function => add_name(&mut self.functions, &one.name, &one.origin),
            Kind::Mixin => add_name(&mut self.mixins, &one.name, &one.origin),
        }
    }

    // After `Memory` some of them were added.
    fn add_each(&mut self, entries: &[Entry]) -> Result<(), Memory>
        ensures ok { OnOk result (self.new ≡ joined self.old entries.now) }
        ensures err { OnErr result ((count : ℕ) × (self.new ≡ joined self.old (take count entries.now))) }
    {
        'entries: for one in entries {
            self.add(one)?;
        }
        Ok(())
    }

    /// Adds those whose kind and name isn't there. After `Memory` the members are as before.
    pub(crate) fn join(&mut self, entries: &[Entry]) -> Result<(), Memory>
        ensures ok { OnOk result (self.new ≡ joined self.old entries.now) }
        ensures err { OnErr result (self.new ≡ self.old) }
    {
        let counts = self.counts();
        match self.add_each(entries) {
            Ok(()) => Ok(()),
            Err(memory) => {
                self.truncate(counts);
                Err(memory)
            }
        }
    }

    pub(crate) fn counts(&self) -> Counts
        ensures { result ≡ counts_of self.now }
    {
        Counts {
            variables: self.variables.len(),
            functions: self.functions.len(),
            mixins: self.mixins.len(),
        }
    }

    /// Keeps the first of each kind. Takes no memory.
    pub(crate) fn truncate(&mut self, counts: Counts)
        ensures { self.new ≡ first_members counts self.old }
    {
        self.variables.truncate(counts.variables);
        self.functions.truncate(counts.functions);
        self.mixins.truncate(counts.mixins);
    }
}
