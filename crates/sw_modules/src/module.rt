// Modules and open loads.
ghost use Rattle.std.specs.Prelude.{◌≡◌, IfOk};
ghost use Rattle.sw_modules.specs.State.{module_of};
ghost use Rattle.sw_modules.specs.Uses.{no_uses};

use crate::{Callables, Uses, Variables};
use std::alloc::Global;
use sw_text::{Memory, Name, Shared};
use sw_world::Finish;

/// A loaded module.
pub struct Module {
    /// The values that its own variables have now.
    pub variables: Variables,
    pub callables: Callables,
    pub uses: Uses,
}

impl Drop for Module {
    fn drop(self) {
        let Module {
            variables: _,
            callables: _,
            uses: _,
        } = self;
    }
}

/// A load whose body hasn't ended.
#[derive(Drop)]
pub struct Opened {
    pub path: Name,
    /// The modules that it uses so far.
    pub uses: Uses,
}

impl Module {
    /// What a body left behind, as yet without the module's uses.
    pub fn of(alloc: Global, finish: &Shared<Finish>) -> Result<Module, Memory>
        ensures { IfOk result (λ held. held ≡ module_of finish.now no_uses) }
    {
        let callables = Callables::of(alloc, finish.get().callables.as_slice())?;
        Ok(Module {
            variables: Variables::of(finish)?,
            callables,
            uses: Uses::new(alloc),
        })
    }

    /// Its uses are known now.
    pub(crate) fn set_uses(&mut self, uses: Uses)
        ensures { self.new ≡ record self.old { uses = uses } }
    {
        self.uses = uses;
    }
}
