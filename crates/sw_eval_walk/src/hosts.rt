// Functions of the host.
ghost use Rattle.sw_tree.specs.declared.text.Parts.{out-Parts};
ghost use Rattle.sw_eval_walk.specs.Going.{Goes_on};
ghost use Rattle.sw_eval_walk.specs.Hosts.{hosted, hosted_by, hosted_value};

use crate::walk::Walk;
use sw_eval_questions::Stop;
use sw_text::{List, Name, Shared, Span};
use sw_tree::{Callee, Parts};
use sw_values::Value;
use sw_world::{Answer, World};

impl Walk {
    // What the host's function of a name gives, where there is one.
    fn hosted<W: World>(
        &mut self,
        name: &Name,
        values: &Shared<List<Value>>,
        span: &Span,
        world: &mut W,
    ) -> Result<Option<Value>, Stop>
        ensures { Goes_on W.gives (hosted name.now values.now span.now) self.old world.old result self.new world.new }
    {
        let name = Name::dashed(self.alloc, name.as_str())?;
        let a = self.ask_call(name, values.share()?, span, world)?;
        match a.1 {
            Answer::Hosted(given) => Ok(given),
            _ => Ok(None),
        }
    }

    // A name in which a value stands is no host's.
    fn hosted_by<W: World>(
        &mut self,
        parts: &Parts,
        name: &Name,
        values: &Shared<List<Value>>,
        span: &Span,
        world: &mut W,
    ) -> Result<Option<Value>, Stop>
        ensures { Goes_on W.gives (hosted_by (out-Parts parts.now) name.now values.now span.now) self.old world.old
            result self.new world.new }
    {
        match parts {
            Parts::Plain(_) => self.hosted(name, values, span, world),
            Parts::Mixed(_) => Ok(None),
        }
    }

    /// What the host's function gives for the values, where there is one. A name with `#{}` is no host's, and isn't asked
    /// for.
    pub fn hosted_value<W: World>(
        &mut self,
        callee: &Callee,
        name: &Name,
        values: List<Value>,
        span: &Span,
        world: &mut W,
    ) -> Result<Option<Value>, Stop>
        ensures { Goes_on W.gives (hosted_value callee.now name.now values span.now) self.old world.old result self.new
            world.new }
    {
        let values = Shared::new(self.alloc, values)?;
        self.hosted_by(&callee.name.parts, name, &values, span, world)
    }
}
