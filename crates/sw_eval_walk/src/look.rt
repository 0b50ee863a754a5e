// Variables, also those of other modules.
ghost use Rattle.sw_eval_walk.specs.Going.{Goes_on};
ghost use Rattle.sw_eval_walk.specs.Variables.{owner_of, outside, variable, qualified, targeted, getting, putting, held_by, named_by, sought_by, sought, before_by, before_default, has_value, kept, put_global, set_global, stored};

use crate::walk::Walk;
use sw_eval_built_in_calls::built_in_variable;
use sw_eval_questions::{Stop, stopped};
use sw_eval_state::{fails, got, is_absent, is_null, named_owner, or_null, owner, target};
use sw_text::{FaultCode, Name, Span};
use sw_tree::{Flags, Kind, Qualified};
use sw_values::Value;
use sw_world::{Answer, World};

impl Walk {
    /// The value of the variable that the answer of this number names. `UnknownVariable` at `span` where that names none,
    /// `Turns` for a question too many; `Memory` where none was found.
    pub fn getting<W: World>(
        &mut self,
        number: usize,
        span: &Span,
        world: &mut W,
    ) -> Result<Value, Stop>
        ensures { Goes_on W.gives (getting number span.now) self.old world.old result self.new world.new }
    {
        let b = self.ask_get(number, span, world)?;
        got(span, b.1)
    }

    /// Gives a value to the variable that the answer of this number names. `UnknownVariable` at `span` where that names
    /// none, `Turns` for a question too many; `Memory` where none was found.
    pub fn putting<W: World>(
        &mut self,
        number: usize,
        value: Value,
        span: &Span,
        world: &mut W,
    ) -> Result<(), Stop>
        ensures { Goes_on W.gives (putting number value span.now) self.old world.old result self.new world.new }
    {
        let _done = self.ask_put(number, value, span, world)?;
        Ok(())
    }

    // The owner of another module's variable that is given a value.
    fn owner_of<W: World>(
        &mut self,
        name: &Name,
        name_span: &Span,
        span: &Span,
        world: &mut W,
    ) -> Result<usize, Stop>
        ensures { Goes_on W.gives (owner_of name.now name_span.now span.now) self.old world.old result self.new
            world.new }
    {
        let a = self.find(None, Kind::Variable, name, span, world)?;
        named_owner(name_span, span, a.0, &a.1)
    }

    // What the variable holds that was answered: that of a built-in module is known.
    fn held_by<W: World>(
        &mut self,
        unknown: FaultCode,
        span: &Span,
        space_span: &Span,
        number: usize,
        answer: &Answer,
        world: &mut W,
    ) -> Result<Value, Stop>
        ensures { Goes_on W.gives (held_by unknown span.now space_span.now number answer.now) self.old world.old result
            self.new world.new }
    {
        match answer {
            Answer::BuiltIn { module, name } => {
                stopped(built_in_variable(self.alloc, unknown, module, name, span))
            }
            _ => {
                let number = owner(unknown, span, space_span, number, answer)?;
                self.getting(number, span, world)
            }
        }
    }

    // What another module's variable holds.
    fn outside<W: World>(
        &mut self,
        unknown: FaultCode,
        space: Option<Name>,
        name: &Name,
        span: &Span,
        space_span: &Span,
        world: &mut W,
    ) -> Result<Value, Stop>
        ensures { Goes_on W.gives (outside unknown space name.now span.now space_span.now) self.old world.old result
            self.new world.new }
    {
        let a = self.find(space, Kind::Variable, name, span, world)?;
        self.held_by(unknown, span, space_span, a.0, &a.1, world)
    }

    /// The value of a variable without a namespace: the one that is seen, else the module's, which is asked for.
    /// `UnknownVariable` at `span` where there is none (docs/LANGUAGE.md, Modules).
    #[inline(never)]
    pub fn variable<W: World>(
        &mut self,
        name: &Name,
        span: &Span,
        world: &mut W,
    ) -> Result<Value, Stop>
        ensures { Goes_on W.gives (variable name.now span.now) self.old world.old result self.new world.new }
    {
        match self.state.own(name) {
            Some(value) => Ok(value.share()?),
            None => self.outside(FaultCode::UnknownVariable, None, name, span, span, world),
        }
    }

    /// The value of a variable behind a namespace. `Private` or `UnknownMember` at `span`, `UnknownNamespace` at the
    /// namespace (docs/LANGUAGE.md, Modules).
    #[inline(never)]
    pub fn qualified<W: World>(
        &mut self,
        q: &Qualified,
        span: &Span,
        world: &mut W,
    ) -> Result<Value, Stop>
        ensures { Goes_on W.gives (qualified q.now span.now) self.old world.old result self.new world.new }
    {
        if q.name.is_private() {
            return fails(FaultCode::Private, span);
        }
        let space = q.namespace.name.share()?;
        self.outside(
            FaultCode::UnknownMember,
            Some(space),
            &q.name,
            span,
            &q.namespace.span,
            world,
        )
    }

    /// The number of the answer that names the variable to assign. `Private` or `UnknownMember` at `name_span`,
    /// `UnknownNamespace` at the namespace, `NotConfigurable` at `span` for one of a built-in module.
    pub fn targeted<W: World>(
        &mut self,
        q: &Qualified,
        name_span: &Span,
        span: &Span,
        world: &mut W,
    ) -> Result<usize, Stop>
        ensures { Goes_on W.gives (targeted q.now name_span.now span.now) self.old world.old result self.new world.new }
    {
        if q.name.is_private() {
            return fails(FaultCode::Private, name_span);
        }
        let space = q.namespace.name.share()?;
        let a = self.find(Some(space), Kind::Variable, &q.name, span, world)?;
        target(span, name_span, &q.namespace.span, a.0, &a.1)
    }

    // What the variable has that was answered, whose name stands at the first place.
    fn named_by<W: World>(
        &mut self,
        name_span: &Span,
        span: &Span,
        number: usize,
        answer: &Answer,
        world: &mut W,
    ) -> Result<Value, Stop>
        ensures { Goes_on W.gives (named_by name_span.now span.now number answer.now) self.old world.old result self.new
            world.new }
    {
        match answer {
            Answer::BuiltIn { module, name } => stopped(built_in_variable(
                self.alloc,
                FaultCode::UnknownVariable,
                module,
                name,
                name_span,
            )),
            _ => {
                let number = named_owner(name_span, span, number, answer)?;
                self.getting(number, span, world)
            }
        }
    }

    // Null where there is none.
    fn sought_by<W: World>(
        &mut self,
        name_span: &Span,
        span: &Span,
        number: usize,
        answer: &Answer,
        world: &mut W,
    ) -> Result<Value, Stop>
        ensures { Goes_on W.gives (sought_by name_span.now span.now number answer.now) self.old world.old result
            self.new world.new }
    {
        if is_absent(answer) {
            return Ok(Value::null());
        }
        self.named_by(name_span, span, number, answer, world)
    }

    // What the variable has that a name means, which is asked.
    fn sought<W: World>(
        &mut self,
        name: &Name,
        name_span: &Span,
        span: &Span,
        world: &mut W,
    ) -> Result<Value, Stop>
        ensures { Goes_on W.gives (sought name.now name_span.now span.now) self.old world.old result self.new
            world.new }
    {
        let a = self.find(None, Kind::Variable, name, span, world)?;
        self.sought_by(name_span, span, a.0, &a.1, world)
    }

    // What a name has before its default, where not the module's own variables alone count.
    fn before_by<W: World>(
        &mut self,
        global: bool,
        name: &Name,
        name_span: &Span,
        span: &Span,
        world: &mut W,
    ) -> Result<Value, Stop>
        ensures { Goes_on W.gives (before_by global name.now name_span.now span.now) self.old world.old result self.new
            world.new }
    {
        if global {
            return self.sought(name, name_span, span, world);
        }
        match self.state.own(name) {
            Some(value) => Ok(value.share()?),
            None => self.sought(name, name_span, span, world),
        }
    }

    // What a name has before its default.
    fn before_default<W: World>(
        &mut self,
        global: bool,
        name: &Name,
        name_span: &Span,
        span: &Span,
        world: &mut W,
    ) -> Result<Value, Stop>
        ensures { Goes_on W.gives (before_default global name.now name_span.now span.now) self.old world.old result
            self.new world.new }
    {
        if self.state.is_mine(global) {
            let own = self.state.scopes.look_top(name);
            return Ok(or_null(own)?);
        }
        self.before_by(global, name, name_span, span, world)
    }

    // Whether it is a value that isn't null.
    fn has_value<W: World>(
        &mut self,
        global: bool,
        name: &Name,
        name_span: &Span,
        span: &Span,
        world: &mut W,
    ) -> Result<bool, Stop>
        ensures { Goes_on W.gives (has_value global name.now name_span.now span.now) self.old world.old result self.new
            world.new }
    {
        let old = self.before_default(global, name, name_span, span, world)?;
        Ok(!is_null(&old))
    }

    /// Whether an assignment with `!default` does nothing, as its variable has a value other than null. Without
    /// `!default` it is false, and nothing is asked (docs/LANGUAGE.md, Variables). `MemberConflict` and `LeftOut` at
    /// the name.
    pub fn kept<W: World>(
        &mut self,
        flags: Flags,
        name: &Name,
        name_span: &Span,
        span: &Span,
        world: &mut W,
    ) -> Result<bool, Stop>
        ensures { Goes_on W.gives (kept flags name.now name_span.now span.now) self.old world.old result self.new
            world.new }
    {
        if flags.default {
            self.has_value(flags.global, name, name_span, span, world)
        } else {
            Ok(false)
        }
    }

    // Gives the running code's module's variable a value, where that is another module.
    fn put_global<W: World>(
        &mut self,
        name: &Name,
        value: Value,
        name_span: &Span,
        span: &Span,
        world: &mut W,
    ) -> Result<(), Stop>
        ensures { Goes_on W.gives (put_global name.now value name_span.now span.now) self.old world.old result self.new
            world.new }
    {
        let number = self.owner_of(name, name_span, span, world)?;
        self.putting(number, value, span, world)
    }

    // Gives a variable of the running code's module a value.
    fn set_global<W: World>(
        &mut self,
        name: &Name,
        value: Value,
        name_span: &Span,
        span: &Span,
        world: &mut W,
    ) -> Result<(), Stop>
        ensures { Goes_on W.gives (set_global name.now value name_span.now span.now) self.old world.old result self.new
            world.new }
    {
        if self.state.is_home() {
            self.state.set_own(name, value)
        } else {
            self.put_global(name, value, name_span, span, world)
        }
    }

    /// Assigns to the variable that is seen, or to a new one; with `global` to that of the running code's module.
    /// `UnknownVariable` at `span` where that is another module without it, `MemberConflict` and `LeftOut` at the name
    /// (docs/LANGUAGE.md, Variables).
    pub fn stored<W: World>(
        &mut self,
        global: bool,
        name: &Name,
        value: Value,
        name_span: &Span,
        span: &Span,
        world: &mut W,
    ) -> Result<(), Stop>
        ensures { Goes_on W.gives (stored global name.now value name_span.now span.now) self.old world.old result
            self.new world.new }
    {
        if global {
            return self.set_global(name, value, name_span, span, world);
        }
        let name = name.share()?;
        self.state.set_by(name, value)
    }
}
