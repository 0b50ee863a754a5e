// How bodies end, and where they stop.
ghost use Rattle.std.specs.Prelude.{◌≡◌, IfOk};

use crate::{Question, Table};
use sw_css_tree::CssTree;
use sw_text::{Fault, List, Memory, Name, Shared};
use sw_tree::Callable;
use sw_values::Value;

/// The names and values with which a module is configured; each name once.
pub type Config = Shared<List<(Name, Value)>>;

/// What a body leaves behind.
pub struct Finish {
    /// The module's own variables with their values.
    pub variables: Table<Value>,
    /// The module's own functions and mixins.
    pub callables: List<Shared<Callable>>,
    pub css: Shared<CssTree>,
    /// The names of the configuration that the module took.
    pub taken: List<Name>,
}

impl Drop for Finish {
    fn drop(self) {
        let Finish {
            variables: _,
            callables: _,
            css: _,
            taken: _,
        } = self;
    }
}

/// How a body ended.
#[derive(Drop)]
pub enum End {
    Done(Shared<Finish>),
    Fault(Fault),
}

/// Where a body stopped.
#[derive(Drop)]
pub enum Turn {
    /// It waits for the answer to this load.
    Load(Question),
    Ended(End),
}

impl End {
    /// One more owner of its parts, in constant time.
    pub fn share(&self) -> Result<End, Memory>
        ensures { IfOk result (λ end. end ≡ self.now) }
    {
        match self {
            End::Done(finish) => Ok(End::Done(finish.share()?)),
            End::Fault(fault) => Ok(End::Fault(fault.share()?)),
        }
    }
}
