// Functions that ask what is declared.
ghost use Rattle.std.specs.Prelude.{◌≡◌, ◌||◌};
ghost use Rattle.sw_eval_state.specs.Existing.{is_built_in};
ghost use Rattle.sw_eval_walk.specs.Going.{Goes_on};
ghost use Rattle.sw_eval_walk.specs.Existence.{exists, member_exists, variable_exists, global_exists, mixin_exists, function_exists, kind_exists, asked_of, asked, asking_call, built_in_called};

use crate::walk::Walk;
use sw_builtins::{Asked, BuiltIn};
use sw_eval_built_in_calls::{built_in_arguments, built_in_call};
use sw_eval_calls::all_passed;
use sw_eval_questions::{Stop, stopped};
use sw_eval_state::{exists_by, is_built_in, module_in, name_in, truth};
use sw_scope::Passed;
use sw_text::{Name, Span};
use sw_tree::{Argument, Kind};
use sw_values::Value;
use sw_world::World;

// A function exists where one was found, or the name is that of a built-in one.
fn or_built_in(exists: bool, name: &Name) -> bool
    ensures { result ≡ (exists || is_built_in name.now) }
{
    exists || is_built_in(name)
}

impl Walk {
    // Whether a name means something.
    fn exists<W: World>(
        &mut self,
        kind: Kind,
        space: Option<Name>,
        name: &Name,
        span: &Span,
        world: &mut W,
    ) -> Result<bool, Stop>
        ensures { Goes_on W.gives (exists kind space name.now span.now) self.old world.old result self.new world.new }
    {
        let a = self.find(space, kind, name, span, world)?;
        exists_by(&a.1, span)
    }

    // A private name means nothing behind a namespace.
    fn member_exists<W: World>(
        &mut self,
        kind: Kind,
        space: Name,
        name: &Name,
        span: &Span,
        world: &mut W,
    ) -> Result<bool, Stop>
        ensures { Goes_on W.gives (member_exists kind space name.now span.now) self.old world.old result self.new
            world.new }
    {
        if name.is_private() {
            return Ok(false);
        }
        self.exists(kind, Some(space), name, span, world)
    }

    fn variable_exists<W: World>(
        &mut self,
        name: &Name,
        span: &Span,
        world: &mut W,
    ) -> Result<bool, Stop>
        ensures { Goes_on W.gives (variable_exists name.now span.now) self.old world.old result self.new world.new }
    {
        if self.state.sees(name) {
            return Ok(true);
        }
        self.exists(Kind::Variable, None, name, span, world)
    }

    fn global_exists<W: World>(
        &mut self,
        name: &Name,
        span: &Span,
        world: &mut W,
    ) -> Result<bool, Stop>
        ensures { Goes_on W.gives (global_exists name.now span.now) self.old world.old result self.new world.new }
    {
        if self.state.sees_top(name) {
            return Ok(true);
        }
        self.exists(Kind::Variable, None, name, span, world)
    }

    fn mixin_exists<W: World>(
        &mut self,
        name: &Name,
        span: &Span,
        world: &mut W,
    ) -> Result<bool, Stop>
        ensures { Goes_on W.gives (mixin_exists name.now span.now) self.old world.old result self.new world.new }
    {
        if self.state.sees_mixin(name) {
            return Ok(true);
        }
        self.exists(Kind::Mixin, None, name, span, world)
    }

    fn function_exists<W: World>(
        &mut self,
        name: &Name,
        span: &Span,
        world: &mut W,
    ) -> Result<bool, Stop>
        ensures { Goes_on W.gives (function_exists name.now span.now) self.old world.old result self.new world.new }
    {
        if self.state.sees_function(name) {
            return Ok(true);
        }
        let exists = self.exists(Kind::Function, None, name, span, world)?;
        Ok(or_built_in(exists, name))
    }

    // As at the top level of the sheet in which the call is written.
    fn kind_exists<W: World>(
        &mut self,
        kind: Kind,
        name: &Name,
        span: &Span,
        world: &mut W,
    ) -> Result<bool, Stop>
        ensures { Goes_on W.gives (kind_exists kind name.now span.now) self.old world.old result self.new world.new }
    {
        match kind {
            Kind::Variable => self.global_exists(name, span, world),
            Kind::Function => self.function_exists(name, span, world),
            Kind::Mixin => self.mixin_exists(name, span, world),
        }
    }

    // The same, or behind a namespace.
    fn asked_of<W: World>(
        &mut self,
        kind: Kind,
        arguments: &[(Name, Value)],
        span: &Span,
        world: &mut W,
    ) -> Result<bool, Stop>
        ensures { Goes_on W.gives (asked_of kind arguments.now span.now) self.old world.old result self.new world.new }
    {
        let name = name_in(self.alloc, arguments, span)?;
        match module_in(arguments, span)? {
            Some(space) => self.member_exists(kind, space, &name, span, world),
            None => self.kind_exists(kind, &name, span, world),
        }
    }

    fn asked<W: World>(
        &mut self,
        function: Asked,
        arguments: &[(Name, Value)],
        span: &Span,
        world: &mut W,
    ) -> Result<bool, Stop>
        ensures { Goes_on W.gives (asked function arguments.now span.now) self.old world.old result self.new world.new }
    {
        match function {
            Asked::VariableExists => {
                let name = name_in(self.alloc, arguments, span)?;
                self.variable_exists(&name, span, world)
            }
            Asked::GlobalVariableExists => self.asked_of(Kind::Variable, arguments, span, world),
            Asked::FunctionExists => self.asked_of(Kind::Function, arguments, span, world),
            Asked::MixinExists => self.asked_of(Kind::Mixin, arguments, span, world),
            Asked::ContentExists => self.state.content_exists(span),
        }
    }

    // A function that asks what exists gives a truth.
    fn asking_call<W: World>(
        &mut self,
        asked: Asked,
        function: BuiltIn,
        passed: &Passed,
        span: &Span,
        world: &mut W,
    ) -> Result<Value, Stop>
        ensures { Goes_on W.gives (asking_call asked function passed.now span.now) self.old world.old result self.new
            world.new }
    {
        let arguments = stopped(built_in_arguments(self.alloc, function, passed, span))?;
        let holds = self.asked(asked, arguments.as_slice(), span, world)?;
        Ok(truth(holds))
    }

    /// The value for arguments that have these values, without sides; a function that asks what exists gives a truth.
    /// What is wrong in the arguments is a fault at `span`, but what can't be written in CSS at its argument
    /// (docs/LANGUAGE.md, Functions).
    #[inline(never)]
    pub fn built_in_called<W: World>(
        &mut self,
        function: BuiltIn,
        arguments: &[Argument],
        values: &[Value],
        span: &Span,
        world: &mut W,
    ) -> Result<Value, Stop>
        ensures { Goes_on W.gives (built_in_called function arguments.now values.now span.now) self.old world.old
            result self.new world.new }
    {
        match function {
            BuiltIn::Asked(asked) => {
                let passed = all_passed(self.alloc, arguments, values)?;
                self.asking_call(asked, function, &passed, span, world)
            }
            _ => stopped(built_in_call(self.alloc, function, arguments, values, span)),
        }
    }
}
