// The outputs of the modules whose bodies ended.
ghost use Rattle.std.specs.Prelude.{◌≡◌, ◌-◌, ◌++◌, ◌∷◌, [], length, map, take, OnOk, OnErr};

use std::alloc::Global;
use std::marker::Model;
use sw_text::{List, Memory, Shared};
use sw_world::Finish;

/// The outputs of the modules whose bodies ended, in that order. Contracts see the outputs; what is held is what the
/// bodies left behind, which the modules share anyway.
pub(crate) struct Outputs {
    ended: List<Shared<Finish>>,
}

impl Drop for Outputs {
    fn drop(self) {
        let Outputs { ended: _ } = self;
    }
}

impl Model for Outputs {
    ghost use Rattle.std.specs.Prelude.{List, map};
    ghost use Rattle.std.specs.Coded.{codes};
    ghost use Rattle.sw_css_tree.specs.Output.{Output};

    ghost Value = { List Output };

    ghost coded = { Prim.hlevel codes };

    ghost view = { λ outputs. map (λ finish. finish.css) outputs.ended };
}

impl Outputs {
    /// None ended yet. Takes no memory.
    pub(crate) fn new(alloc: Global) -> Outputs
        ensures { result ≡ [] }
    {
        Outputs {
            ended: List::new(alloc),
        }
    }

    /// Adds the output of a body that ended, in constant time. After `Memory` the outputs are as before.
    pub(crate) fn add(&mut self, finish: &Shared<Finish>) -> Result<(), Memory>
        ensures ok { OnOk result (self.new ≡ self.old ++ finish.now.css ∷ []) }
        ensures err { OnErr result (self.new ≡ self.old) }
    {
        self.ended.push(finish.share()?)
    }

    /// What the bodies left behind, which isn't copied.
    pub(crate) fn ended(&self) -> &[Shared<Finish>]
        ensures { map (λ finish. finish.css) result.now ≡ self.now }
    {
        self.ended.as_slice()
    }

    /// Takes the last one back. Takes no memory.
    pub(crate) fn take_back(&mut self)
        ensures { self.new ≡ take (length self.old - 1) self.old }
    {
        self.ended.truncate(self.ended.len().saturating_sub(1));
    }
}
