// What an evaluation has made so far.
ghost use Rattle.std.specs.Prelude.{◌≡◌, option_copied};
ghost use Rattle.sw_eval_questions.specs.Did.{IsReturn};
ghost use Rattle.sw_eval_state.specs.Begin.{begin};
ghost use Rattle.sw_eval_state.specs.Scope.{origin, is_home, own, is_mine, set_by, set_own, entered, left};
ghost use Rattle.sw_eval_state.specs.Begin.{spent};
ghost use Rattle.sw_eval_questions.specs.Talk.{Gives};

use crate::faults::fails;
use crate::here::{Here, Inside};
use crate::nesting::Nesting;
use std::alloc::Global;
use sw_css_tree::CssTree;
use sw_eval_questions::Stop;
use sw_scope::{FrameKind, Origin, Scopes};
use sw_text::{FaultCode, List, Name, Shared, Span};
use sw_tree::Callable;
use sw_values::Value;
use sw_world::{Given, Table};

/// What an evaluation has made so far.
#[derive(Drop)]
pub struct State {
    /// The module's own variables, and the local ones.
    pub scopes: Scopes,
    /// The module's own functions that are known.
    pub functions: Table<Shared<Callable>>,
    /// The module's own mixins that are known.
    pub mixins: Table<Shared<Callable>>,
    pub here: Here,
    /// Where the code was written that called it, the innermost last.
    pub callers: List<Here>,
    pub css: CssTree,
    /// What the running statement is nested in.
    pub nesting: Nesting,
    /// What that is nested in, the innermost last.
    pub outer: List<Nesting>,
    /// The names of its configuration that the module took.
    pub taken: List<Name>,
    /// The values that the next load gives, once they are known.
    pub given: Option<Shared<List<Given>>>,
    /// No load may follow.
    pub late: bool,
    /// How many turns of loops and calls are left.
    pub turns: u32,
}

impl State {
    /// What a body begins with. Takes no memory.
    pub fn begin(alloc: Global) -> State
        ensures { result ≡ begin }
    {
        State {
            scopes: Scopes::new(alloc),
            functions: Table::new(alloc),
            mixins: Table::new(alloc),
            here: Here {
                site: 0,
                inside: Inside::Sheet,
                content: None,
            },
            callers: List::new(alloc),
            css: CssTree::new(alloc),
            nesting: Nesting::at_top(),
            outer: List::new(alloc),
            taken: List::new(alloc),
            given: None,
            late: false,
            turns: 1_000_000,
        }
    }

    /// Whether the running code is the body's own.
    pub fn is_home(&self) -> bool
        ensures { result ≡ is_home self.now }
    {
        self.here.site == 0
    }

    // Whose the running code is.
    fn origin(&self) -> Origin
        ensures { result ≡ origin self.now }
    {
        if self.here.site == 0 {
            Origin::Own
        } else {
            Origin::Other
        }
    }

    /// A variable that is seen without asking.
    #[tactic(auto, unfolding(crate::specs::Scope::own))]
    pub fn own(&self, name: &Name) -> Option<&Value>
        ensures { option_copied result ≡ own self.now name.now }
    {
        self.scopes.look(self.origin(), name)
    }

    /// Sets a variable that is seen, or a new one.
    #[tactic(auto, unfolding(crate::specs::Scope::set_by))]
    pub fn set_by(&mut self, name: Name, value: Value) -> Result<(), Stop>
        ensures { IsReturn result self.new (Gives (tt, set_by self.old (name, value))) }
    {
        let origin = self.origin();
        self.scopes.set(origin, name, value)?;
        Ok(())
    }

    /// Whether what a name has before its default is sought among the module's own variables alone.
    #[tactic(auto, unfolding(crate::specs::Scope::is_mine))]
    pub fn is_mine(&self, global: bool) -> bool
        ensures { result ≡ is_mine self.now global }
    {
        self.scopes.top_alone(self.origin(), global)
    }

    /// Gives the module's own variable a value.
    #[tactic(auto, unfolding(crate::specs::Scope::set_own))]
    pub fn set_own(&mut self, name: &Name, value: Value) -> Result<(), Stop>
        ensures { IsReturn result self.new (Gives (tt, set_own self.old (name.now, value))) }
    {
        let name = name.share()?;
        self.scopes.set_top(name, value)?;
        Ok(())
    }

    /// Opens a frame.
    #[tactic(auto, unfolding(crate::specs::Scope::entered))]
    pub fn enter(&mut self, kind: FrameKind) -> Result<(), Stop>
        ensures { IsReturn result self.new (Gives (tt, entered kind self.old)) }
    {
        self.scopes.push(kind)?;
        Ok(())
    }

    /// Closes a frame.
    #[tactic(auto, unfolding(crate::specs::Scope::left))]
    pub fn leave(&mut self)
        ensures { self.new ≡ left self.old }
    {
        self.scopes.pop();
    }

    /// Takes one of the turns that are left.
    #[tactic(auto, unfolding(crate::specs::Begin::spent))]
    pub fn spend(&mut self, span: &Span) -> Result<(), Stop>
        ensures { IsReturn result self.new (spent span.now self.old) }
    {
        if self.turns == 0 {
            return fails(FaultCode::Turns, span);
        }
        self.turns -= 1;
        Ok(())
    }
}
