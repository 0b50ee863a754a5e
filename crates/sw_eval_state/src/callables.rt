// Functions, mixins and content blocks.
ghost use Rattle.std.specs.Prelude.{◌≡◌, IfOk, option_copied};
ghost use Rattle.sw_eval_questions.specs.Did.{IsReturn};
ghost use Rattle.sw_eval_questions.specs.Talk.{Gives};
ghost use Rattle.sw_eval_state.specs.Callables.{with_named, with_callable, own_function, own_mixin, function_here, mixin_here, content_of};

use crate::here::{Block, Here, Inside};
use crate::state::State;
use std::alloc::Global;
use sw_eval_questions::Stop;
use sw_text::{Memory, Name, Shared};
use sw_tree::{Callable, Content, Kind};

impl State {
    // A function or a mixin is known from here on under its name.
    fn declare_named(&mut self, name: Name, callable: &Shared<Callable>) -> Result<(), Stop>
        ensures { IsReturn result self.new (Gives (tt, with_named name callable.now self.old)) }
    {
        match callable.get().kind {
            Kind::Variable => Ok(()),
            Kind::Function => Ok(self.functions.add(name, callable.share()?)?),
            Kind::Mixin => Ok(self.mixins.add(name, callable.share()?)?),
        }
    }

    /// A function or a mixin of the module is known from here on.
    pub fn declare_callable(&mut self, callable: &Shared<Callable>) -> Result<(), Stop>
        ensures { IsReturn result self.new (Gives (tt, with_callable callable.now self.old)) }
    {
        let name = callable.get().name.share()?;
        self.declare_named(name, callable)
    }

    /// The function of the module's own that is seen under a name.
    #[tactic(auto, unfolding(crate::specs::Callables::own_function))]
    pub fn own_function(&self, name: &Name) -> Option<&Shared<Callable>>
        ensures { option_copied result ≡ own_function name.now self.now }
    {
        if self.is_home() {
            self.functions.get(name)
        } else {
            None
        }
    }

    /// The same of mixins.
    #[tactic(auto, unfolding(crate::specs::Callables::own_mixin))]
    pub fn own_mixin(&self, name: &Name) -> Option<&Shared<Callable>>
        ensures { option_copied result ≡ own_mixin name.now self.now }
    {
        if self.is_home() {
            self.mixins.get(name)
        } else {
            None
        }
    }

    /// The content block that is written here.
    pub fn content_of(
        &self,
        alloc: Global,
        content: &Option<Shared<Content>>,
    ) -> Result<Option<Shared<Block>>, Memory>
        ensures { IfOk result (λ block. block ≡ content_of content.now self.now) }
    {
        let Some(content) = content else {
            return Ok(None);
        };
        let here = self.here.share()?;
        let block = Block {
            content: content.share()?,
            mark: self.scopes.mark(),
            site: here.site,
            inside: here.inside,
            outer: here.content,
        };
        Ok(Some(Shared::new(alloc, block)?))
    }
}

/// Where the code of a function stands.
pub fn function_here(site: usize) -> Here
    ensures { result ≡ function_here site }
{
    Here {
        site,
        inside: Inside::Function,
        content: None,
    }
}

/// Where the code of a mixin stands that is given this content block.
pub fn mixin_here(site: usize, content: Option<Shared<Block>>) -> Here
    ensures { result ≡ mixin_here site content }
{
    Here {
        site,
        inside: Inside::Mixin,
        content,
    }
}
