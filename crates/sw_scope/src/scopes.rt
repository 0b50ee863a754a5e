// The variables that running code sees.
ghost use Rattle.std.specs.Prelude.{◌≡◌, OnOk, OnErr};
ghost use Rattle.std.specs.Option.{option_copied};
ghost use Rattle.sw_scope.specs.Scopes.{is_own, number_of};

use crate::frames::Frames;
use crate::mark::{FrameKind, Mark, Origin};
use crate::table::Table;
use std::alloc::Global;
use sw_text::{Memory, Name};
use sw_values::Value;

/// The variables that running code sees: those of the module's top, and those of the frames, of which the running code
/// is in the innermost.
pub struct Scopes {
    top: Table,
    frames: Frames,
}

impl Drop for Scopes {
    fn drop(self) {
        let Scopes { top: _, frames: _ } = self;
    }
}

impl Scopes {
    ghost use Rattle.sw_scope.specs.Scopes as s;

    /// No variable, and no frame but the top. Takes no memory.
    pub fn new(alloc: Global) -> Scopes
        ensures { result ≡ s.empty }
    {
        Scopes {
            top: Table::new(alloc),
            frames: Frames::new(alloc),
        }
    }

    /// The innermost frame; `None` where only the top is there. Takes no memory.
    pub fn mark(&self) -> Option<Mark>
        ensures { result ≡ s.mark self.now }
    {
        match self.frames.len() {
            0 => None,
            number => Some(Mark::of(number)),
        }
    }

    /// A new frame, which stands on another: on the top where that is `None`, and on the innermost where it isn't there
    /// any more. After `Memory` all is as before.
    pub fn on(&mut self, base: Option<Mark>, kind: FrameKind) -> Result<(), Memory>
        ensures ok { OnOk result (self.new ≡ s.on self.old base kind) }
        ensures err { OnErr result (self.new ≡ self.old) }
    {
        self.frames.put(number_of(base), kind)
    }

    /// A new frame, which stands on the innermost one. After `Memory` all is as before.
    pub fn push(&mut self, kind: FrameKind) -> Result<(), Memory>
        ensures ok { OnOk result (self.new ≡ s.push self.old kind) }
        ensures err { OnErr result (self.new ≡ self.old) }
    {
        self.on(self.mark(), kind)
    }

    /// Takes the innermost frame away, if one is there. Takes no memory.
    pub fn pop(&mut self)
        ensures { self.new ≡ s.pop self.old }
    {
        self.frames.pop();
    }

    /// The value that code of this origin sees under a name without asking. Takes no memory.
    #[tactic(auto, unfolding(crate::specs::Scopes::look))]
    pub fn look(&self, origin: Origin, name: &Name) -> Option<&Value>
        ensures { option_copied result ≡ s.look origin self.now name.now }
    {
        match self.frames.look(name) {
            Some(value) => Some(value),
            None => self.top_value(origin, name),
        }
    }

    fn top_value(&self, origin: Origin, name: &Name) -> Option<&Value>
        ensures { option_copied result ≡ s.top_value origin self.now name.now }
    {
        match origin {
            Origin::Own => self.look_top(name),
            Origin::Other => None,
        }
    }

    /// The value of a variable of the top. Takes no memory.
    #[tactic(auto, unfolding(crate::specs::Scopes::look_top))]
    pub fn look_top(&self, name: &Name) -> Option<&Value>
        ensures { option_copied result ≡ s.look_top self.now name.now }
    {
        self.top.get(name)
    }

    /// Whether what a name has before its default is sought among the variables of the top alone, for a declaration in
    /// code of this origin with or without `!global`. Takes no memory.
    pub fn top_alone(&self, origin: Origin, global: bool) -> bool
        ensures { result ≡ s.top_alone origin self.now global }
    {
        is_own(origin) && (global || self.is_at_top())
    }

    fn is_at_top(&self) -> bool
        ensures { result ≡ s.is_at_top self.now }
    {
        self.mark().is_none()
    }

    /// Gives a variable of the top a value, or declares it there. After `Memory` all is as before.
    #[tactic(auto, unfolding(crate::specs::Scopes::set_top))]
    pub fn set_top(&mut self, name: Name, value: Value) -> Result<(), Memory>
        ensures ok { OnOk result (self.new ≡ s.set_top self.old (name, value)) }
        ensures err { OnErr result (self.new ≡ self.old) }
    {
        self.top.add(name, value)
    }

    /// A new variable of the innermost frame. After `Memory` all is as before.
    #[tactic(auto, unfolding(crate::specs::Scopes::declare))]
    pub fn declare(&mut self, name: Name, value: Value) -> Result<(), Memory>
        ensures ok { OnOk result (self.new ≡ s.declare self.old (name, value)) }
        ensures err { OnErr result (self.new ≡ self.old) }
    {
        if self.is_at_top() {
            self.set_top(name, value)
        } else {
            self.frames.declare(name, value)
        }
    }

    /// An assignment in code of this origin: to the variable that is seen, or to a new one. After `Memory` all is as
    /// before.
    #[tactic(auto, unfolding(crate::specs::Scopes::set))]
    pub fn set(&mut self, origin: Origin, name: Name, value: Value) -> Result<(), Memory>
        ensures ok { OnOk result (self.new ≡ s.set origin self.old (name, value)) }
        ensures err { OnErr result (self.new ≡ self.old) }
    {
        match self.frames.set(name, value) {
            Some((name, value)) => self.set_new(origin, name, value),
            None => Ok(()),
        }
    }

    // An assignment to a name that no frame has.
    fn set_new(&mut self, origin: Origin, name: Name, value: Value) -> Result<(), Memory>
        ensures ok { OnOk result (self.new ≡ s.set_new origin self.old (name, value)) }
        ensures err { OnErr result (self.new ≡ self.old) }
    {
        if self.sets_top(origin, &name) {
            self.set_top(name, value)
        } else {
            self.declare(name, value)
        }
    }

    /// Whether all frames that are seen are of flow. Takes no memory.
    pub fn all_flow(&self) -> bool
        ensures { result ≡ s.all_flow self.now }
    {
        self.frames.all_flow()
    }

    /// Whether an assignment in code of this origin to a name that no frame has sets a variable of the top. Takes no
    /// memory.
    #[tactic(auto, unfolding(crate::specs::Scopes::look_top))]
    pub fn sets_top(&self, origin: Origin, name: &Name) -> bool
        ensures { result ≡ s.sets_top origin self.now name.now }
    {
        is_own(origin) && self.all_flow() && self.top.has(name)
    }
}

fn is_own(origin: Origin) -> bool
    ensures { result ≡ is_own origin }
{
    origin == Origin::Own
}

fn number_of(base: Option<Mark>) -> usize
    ensures { result ≡ number_of base }
{
    match base {
        Some(mark) => mark.number(),
        None => 0,
    }
}
