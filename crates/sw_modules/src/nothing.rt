// What most loads have: no name that was taken, and no configuration.
ghost use Rattle.std.specs.Prelude.{◌≡◌, [], IfOk};

use std::alloc::Global;
use sw_text::{List, Memory, Name, Shared};
use sw_world::Config;

/// A list of no names and an empty configuration, which all loads of a compile share.
#[derive(Drop)]
pub struct Nothing {
    names: Shared<List<Name>>,
    config: Config,
    ghost no_names: { names ≡ [] },
    ghost no_config: { config ≡ [] },
}

impl Nothing {
    /// Both lists, which are empty. `Memory` exactly where none was found.
    pub fn new(alloc: Global) -> Result<Nothing, Memory> {
        Ok(Nothing {
            names: Shared::new(alloc, List::new(alloc))?,
            config: Shared::new(alloc, List::new(alloc))?,
        })
    }

    /// One more owner of both, in constant time.
    pub(crate) fn share(&self) -> Result<Nothing, Memory> {
        Ok(Nothing {
            names: self.names.share()?,
            config: self.config.share()?,
        })
    }

    /// No names, in constant time.
    pub(crate) fn names(&self) -> Result<Shared<List<Name>>, Memory>
        ensures { IfOk result (λ names. names ≡ []) }
    {
        self.names.share()
    }

    /// No configuration, in constant time.
    pub fn config(&self) -> Result<Config, Memory>
        ensures { IfOk result (λ config. config ≡ []) }
    {
        self.config.share()
    }
}
