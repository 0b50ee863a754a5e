// What a call means, and which mixin is included.
ghost use Rattle.std.specs.Prelude.{◌≡◌, IfOk};
ghost use Rattle.sw_eval_walk.specs.Going.{Goes_on};
ghost use Rattle.sw_eval_walk.specs.Callees.{from_to, function_called, member_called, plain_called, called, plain_mixin, member_mixin, mixin_called};

use crate::walk::Walk;
use sw_eval_questions::Stop;
use sw_eval_state::{Called, Found, fails, function_by, member_by, mixin_by};
use sw_text::{FaultCode, Memory, Name, Span};
use sw_tree::{Callee, Kind, Mixin, Namespaced, Parts};
use sw_world::World;

// From the start of a part of a sheet to the end of another.
fn from_to(first: &Span, last: &Span) -> Result<Span, Memory>
    ensures { IfOk result (λ span. span ≡ from_to first.now last.now) }
{
    Ok(Span {
        file: first.file.share()?,
        from: first.from,
        to: last.to,
    })
}

impl Walk {
    // A name without a namespace, which stands at the first place; the call stands at the second.
    fn function_called<W: World>(
        &mut self,
        name: &Name,
        name_span: &Span,
        span: &Span,
        world: &mut W,
    ) -> Result<Called, Stop>
        ensures { Goes_on W.gives (function_called name.now name_span.now span.now) self.old world.old result self.new
            world.new }
    {
        let name = Name::dashed(self.alloc, name.as_str())?;
        if let Some(callable) = self.state.own_function(&name) {
            let callable = callable.share()?;
            return Ok(Called::Sheet(Found { site: 0, callable }));
        }
        let a = self.find(None, Kind::Function, &name, span, world)?;
        function_by(&name, span, name_span, a.0, a.1)
    }

    // A name behind a namespace.
    fn member_called<W: World>(
        &mut self,
        space: &Namespaced,
        name: &Name,
        name_span: &Span,
        span: &Span,
        world: &mut W,
    ) -> Result<Called, Stop>
        ensures { Goes_on W.gives (member_called space.now name.now name_span.now span.now) self.old world.old result
            self.new world.new }
    {
        if name.is_private() {
            return fails(FaultCode::Private, name_span);
        }
        let name = Name::dashed(self.alloc, name.as_str())?;
        let space_name = space.name.share()?;
        let a = self.find(Some(space_name), Kind::Function, &name, span, world)?;
        member_by(span, name_span, &space.span, a.0, a.1)
    }

    fn plain_called<W: World>(
        &mut self,
        space: &Option<Namespaced>,
        name: &Name,
        name_span: &Span,
        span: &Span,
        world: &mut W,
    ) -> Result<Called, Stop>
        ensures { Goes_on W.gives (plain_called space.now name.now name_span.now span.now) self.old world.old result
            self.new world.new }
    {
        match space {
            None => self.function_called(name, name_span, span, world),
            Some(space) => {
                let whole = from_to(&space.span, name_span)?;
                self.member_called(space, name, &whole, span, world)
            }
        }
    }

    /// What a call means: code of the body's own module finds its functions unasked, and a name with `#{}` is CSS.
    /// `Private` for a private name behind a namespace; other faults are by the answer, or `Turns`.
    #[inline(never)]
    pub fn called<W: World>(
        &mut self,
        callee: &Callee,
        span: &Span,
        world: &mut W,
    ) -> Result<Called, Stop>
        ensures { Goes_on W.gives (called callee.now span.now) self.old world.old result self.new world.new }
    {
        match &callee.name.parts {
            Parts::Plain(name) => {
                self.plain_called(&callee.namespace, name, &callee.name.span, span, world)
            }
            Parts::Mixed(_) => Ok(Called::Css),
        }
    }

    fn member_mixin<W: World>(
        &mut self,
        space: &Namespaced,
        mixin: &Mixin,
        span: &Span,
        world: &mut W,
    ) -> Result<Found, Stop>
        ensures { Goes_on W.gives (member_mixin space.now mixin.now span.now) self.old world.old result self.new
            world.new }
    {
        if mixin.name.is_private() {
            return fails(FaultCode::Private, &mixin.name_span);
        }
        let space_name = space.name.share()?;
        let a = self.find(Some(space_name), Kind::Mixin, &mixin.name, span, world)?;
        mixin_by(span, &mixin.name_span, &space.span, a.0, a.1)
    }

    // A name without a namespace.
    fn plain_mixin<W: World>(
        &mut self,
        mixin: &Mixin,
        span: &Span,
        world: &mut W,
    ) -> Result<Found, Stop>
        ensures { Goes_on W.gives (plain_mixin mixin.now span.now) self.old world.old result self.new world.new }
    {
        if let Some(callable) = self.state.own_mixin(&mixin.name) {
            let callable = callable.share()?;
            return Ok(Found { site: 0, callable });
        }
        let a = self.find(None, Kind::Mixin, &mixin.name, span, world)?;
        mixin_by(span, &mixin.name_span, &mixin.name_span, a.0, a.1)
    }

    /// The mixin: code of the body's own module finds its mixins unasked. `Private` at the name for a private one
    /// behind a namespace; other faults are by the answer, or `Turns`.
    pub fn mixin_called<W: World>(
        &mut self,
        mixin: &Mixin,
        span: &Span,
        world: &mut W,
    ) -> Result<Found, Stop>
        ensures { Goes_on W.gives (mixin_called mixin.now span.now) self.old world.old result self.new world.new }
    {
        match &mixin.namespace {
            None => self.plain_mixin(mixin, span, world),
            Some(space) => self.member_mixin(space, mixin, span, world),
        }
    }
}
