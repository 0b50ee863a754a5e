// The functions and mixins of a loaded module.
ghost use Rattle.std.specs.Prelude.{◌≡◌, IfOk, OnOk};
ghost use Rattle.sw_modules.specs.Callables.{no_callables, with_callable, callables_of};

use crate::RareTable;
use std::alloc::Global;
use sw_text::{Memory, Shared};
use sw_tree::{Callable, Kind};

/// A module's own functions and mixins by their names, each shared with the body that left it behind.
pub struct Callables {
    pub functions: RareTable<Shared<Callable>>,
    pub mixins: RareTable<Shared<Callable>>,
}

impl Drop for Callables {
    fn drop(self) {
        let Callables {
            functions: _,
            mixins: _,
        } = self;
    }
}

impl Callables {
    /// Those that a body declared in this order: of two of one kind and name the later one counts.
    pub fn of(alloc: Global, declared: &[Shared<Callable>]) -> Result<Callables, Memory>
        ensures { IfOk result (λ callables. callables ≡ callables_of declared.now) }
    {
        let mut callables = Callables::new(alloc);
        'declared: for one in declared {
            callables.add(one)?;
        }
        Ok(callables)
    }

    fn new(alloc: Global) -> Callables
        ensures { result ≡ no_callables }
    {
        Callables {
            functions: RareTable::new(alloc),
            mixins: RareTable::new(alloc),
        }
    }

    fn add(&mut self, one: &Shared<Callable>) -> Result<(), Memory>
        ensures { OnOk result (self.new ≡ with_callable self.old one.now) }
    {
        let callable = one.get();
        match callable.kind {
            Kind::Variable => Ok(()),
            Kind::Function => self.functions.add(callable.name.share()?, one.share()?),
            Kind::Mixin => self.mixins.add(callable.name.share()?, one.share()?),
        }
    }
}
