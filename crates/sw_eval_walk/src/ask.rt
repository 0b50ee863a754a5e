// Questions of the walk.
ghost use Rattle.std.specs.Prelude.{◌<◌, IfOk};
ghost use Rattle.sw_eval_questions.specs.Talk.{Gets, Puts, Says, Calls};
ghost use Rattle.sw_eval_questions.specs.Asking.{asking};
ghost use Rattle.sw_eval_walk.specs.Going.{Goes_on, finding};

use crate::walk::Walk;
use sw_eval_questions::{Stop, ask, lost};
use sw_text::{List, Name, Shared, Span};
use sw_tree::Kind;
use sw_values::Value;
use sw_world::{Answer, Question, SayKind, World};

impl Walk {
    /// What a name means in the module whose code runs, with the question's number, which is below 1,000,000. `Turns`
    /// at `span` for a question too many (docs/LANGUAGE.md, Limits); `Memory` where none was found.
    pub fn find<W: World>(
        &mut self,
        space: Option<Name>,
        kind: Kind,
        name: &Name,
        span: &Span,
        world: &mut W,
    ) -> Result<(usize, Answer), Stop>
        ensures did { Goes_on W.gives (finding space kind name.now span.now) self.old world.old result self.new
            world.new }
        ensures few { IfOk result (λ a. a.0 < 1000000) }
    {
        let site = self.asked.site(self.state.here.site)?;
        let name = name.share()?;
        let op = Question::Find {
            site,
            space,
            kind,
            name,
        };
        ask(self.alloc, &mut self.asked, op, span, world)
    }

    /// What the variable holds that the answer of number `owner` names. `UnknownVariable` at `span` where that names
    /// none, `Turns` for a question too many; `Memory` where none was found.
    pub fn ask_get<W: World>(
        &mut self,
        owner: usize,
        span: &Span,
        world: &mut W,
    ) -> Result<(usize, Answer), Stop>
        ensures { Goes_on W.gives (asking (Gets owner) span.now) self.old world.old result self.new world.new }
    {
        match self.asked.owner(owner)? {
            Some((path, name)) => {
                let op = Question::Get { owner: path, name };
                ask(self.alloc, &mut self.asked, op, span, world)
            }
            None => lost(&self.asked, span),
        }
    }

    /// Gives a value to the variable that the answer of number `owner` names. `UnknownVariable` at `span` where that
    /// names none, `Turns` for a question too many; `Memory` where none was found.
    pub fn ask_put<W: World>(
        &mut self,
        owner: usize,
        value: Value,
        span: &Span,
        world: &mut W,
    ) -> Result<(usize, Answer), Stop>
        ensures { Goes_on W.gives (asking (Puts owner value) span.now) self.old world.old result self.new world.new }
    {
        match self.asked.owner(owner)? {
            Some((path, name)) => {
                let op = Question::Put {
                    owner: path,
                    name,
                    value,
                };
                ask(self.alloc, &mut self.asked, op, span, world)
            }
            None => lost(&self.asked, span),
        }
    }

    /// Says a message that stands at `span`; it counts as one of the body's questions. `Turns` at `span` for a question too
    /// many; `Memory` where none was found.
    pub fn ask_say<W: World>(
        &mut self,
        kind: SayKind,
        text: Name,
        span: &Span,
        world: &mut W,
    ) -> Result<(usize, Answer), Stop>
        ensures { Goes_on W.gives (asking (Says kind span.now text) span.now) self.old world.old result self.new
            world.new }
    {
        let place = span.share()?;
        let op = Question::Say {
            kind,
            span: place,
            text,
        };
        ask(self.alloc, &mut self.asked, op, span, world)
    }

    /// Asks for the host's function of a name, whose answer may be that there is none. `Turns` at `span` for a question
    /// too many; `Memory` where none was found.
    pub fn ask_call<W: World>(
        &mut self,
        name: Name,
        args: Shared<List<Value>>,
        span: &Span,
        world: &mut W,
    ) -> Result<(usize, Answer), Stop>
        ensures { Goes_on W.gives (asking (Calls name args) span.now) self.old world.old result self.new world.new }
    {
        let op = Question::Call { name, args };
        ask(self.alloc, &mut self.asked, op, span, world)
    }
}
