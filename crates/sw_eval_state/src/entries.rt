// Calls whose arguments are bound.
ghost use Rattle.std.specs.Prelude.{◌≡◌, IfOk};
ghost use Rattle.sw_eval_literals.specs.Answers.{Returns};
ghost use Rattle.sw_eval_questions.specs.Did.{IsReturn};
ghost use Rattle.sw_eval_state.specs.Entries.{function_entry, block_entry, is_lost, given_entry, mixin_entry};

use crate::callables::{function_here, mixin_here};
use crate::faults::fails;
use crate::here::{Block, Here};
use crate::state::State;
use std::alloc::Global;
use sw_eval_calls::{block_has, bound};
use sw_eval_literals::Refused;
use sw_eval_questions::{Stop, stopped};
use sw_scope::{Mark, Passed, Slots};
use sw_text::{FaultCode, Memory, Shared, Span};
use sw_tree::{Callable, Content};

/// A call whose arguments are bound: where its code stands, on which frame, and what its parameters are given.
#[derive(Drop)]
pub struct Entry {
    pub here: Here,
    pub mark: Option<Mark>,
    pub slots: Slots,
}

/// A function or a mixin of a sheet, and the number of its site.
#[derive(Drop)]
pub struct Found {
    pub site: usize,
    pub callable: Shared<Callable>,
}

/// The call of a function with these arguments.
#[tactic(auto, unfolding(crate::specs::Entries::function_entry))]
pub fn function_entry(
    alloc: Global,
    function: &Found,
    passed: &Passed,
    span: &Span,
) -> Result<Entry, Refused>
    ensures { Returns result (function_entry function.now passed.now span.now) }
{
    let slots = bound(alloc, &function.callable.get().params, passed, span)?;
    Ok(Entry {
        here: function_here(function.site),
        mark: None,
        slots,
    })
}

/// The call of a content block with these arguments.
#[tactic(auto, unfolding(crate::specs::Entries::block_entry))]
pub fn block_entry(
    alloc: Global,
    block: &Block,
    passed: &Passed,
    span: &Span,
) -> Result<Entry, Refused>
    ensures { Returns result (block_entry block.now passed.now span.now) }
{
    let slots = bound(alloc, &block.content.get().params, passed, span)?;
    let here = block.here()?;
    Ok(Entry {
        here,
        mark: block.mark,
        slots,
    })
}

// A content block is passed to a mixin that has no `@content`.
fn is_lost(content: &Option<Shared<Content>>, mixin: &Callable) -> bool
    ensures { result ≡ is_lost content.now mixin.now }
{
    content.is_some() && !block_has(mixin.block.as_slice())
}

impl State {
    fn given_entry(
        &self,
        alloc: Global,
        mixin: &Found,
        content: &Option<Shared<Content>>,
        slots: Slots,
    ) -> Result<Entry, Memory>
        ensures { IfOk result (λ e. e ≡ given_entry mixin.now content.now slots self.now) }
    {
        let content = self.content_of(alloc, content)?;
        Ok(Entry {
            here: mixin_here(mixin.site, content),
            mark: None,
            slots,
        })
    }

    /// The call of a mixin with these arguments and a content block that is written here.
    pub fn mixin_entry(
        &self,
        alloc: Global,
        mixin: &Found,
        content: &Option<Shared<Content>>,
        passed: &Passed,
        span: &Span,
    ) -> Result<Entry, Stop>
        ensures { IsReturn result self.now (mixin_entry mixin.now content.now passed.now span.now self.now) }
    {
        if is_lost(content, mixin.callable.get()) {
            return fails(FaultCode::ArgumentFault, span);
        }
        let slots = stopped(bound(alloc, &mixin.callable.get().params, passed, span))?;
        Ok(self.given_entry(alloc, mixin, content, slots)?)
    }
}
