// The selectors of rules, and `&`.
ghost use Rattle.std.specs.Prelude.{[]};
ghost use Rattle.sw_selector.specs.Reading.{IsAnswer, selectors_of};
ghost use Rattle.sw_eval_literals.specs.Answers.{Returns};
ghost use Rattle.sw_eval_questions.specs.Did.{IsReturn};
ghost use Rattle.sw_eval_state.specs.Selecting.{Selection, nested_by, nested_in, selected_by, selected, words_of, complex_of, complexes_of, parent_by, parent};
ghost use Rattle.sw_eval_state.specs.declared.state.State.{State};

use crate::faults::fails;
use crate::state::State;
use std::alloc::Global;
use sw_eval_literals::{Refused, list_value, string_value};
use sw_eval_questions::{Stop, stopped};
use sw_selector::{SelectorFault, Selectors, nest, read};
use sw_text::{FaultCode, List, Name, Shared, Span};
use sw_tree::{Around, Separator};
use sw_values::Value;

// Nested in the selectors of the rule around them, where there is one.
fn nested_by(
    alloc: Global,
    at_root: bool,
    parents: &Option<Shared<Selectors>>,
    child: &Selectors,
) -> Result<Selectors, SelectorFault>
    ensures { IsAnswer result (nested_by at_root parents.now child.now) }
{
    match parents {
        None => nest(alloc, None, child, at_root),
        Some(parents) => nest(alloc, Some(parents.get()), child, at_root),
    }
}

fn nested_in(
    alloc: Global,
    at_root: bool,
    parents: &Option<Shared<Selectors>>,
    text: &Name,
) -> Result<Selectors, SelectorFault>
    ensures { IsAnswer result (nested_in at_root parents.now (selectors_of text.now)) }
{
    match read(alloc, text.as_str()) {
        Ok(child) => nested_by(alloc, at_root, parents, &child),
        Err(why) => Err(why),
    }
}

fn selected_by(selection: Result<Selectors, SelectorFault>, span: &Span) -> Result<Selectors, Stop>
    ensures { (said : Selection) (s : State) → IsAnswer selection said
        → IsReturn result s (selected_by span.now said s) }
{
    match selection {
        Ok(selectors) => Ok(selectors),
        Err(SelectorFault::BadSelector) => fails(FaultCode::BadSelector, span),
        Err(SelectorFault::NoParent) => fails(FaultCode::NoParent, span),
        Err(SelectorFault::TooLarge) => fails(FaultCode::TooLarge, span),
        Err(SelectorFault::Memory) => Err(Stop::Memory),
    }
}

fn words_of(alloc: Global, texts: &[Name], span: &Span) -> Result<List<Value>, Refused>
    ensures { Returns result (words_of [] texts.now span.now) }
{
    let mut done = List::new(alloc);
    'texts: for text in texts {
        let word = string_value(text.share()?, false, span)?;
        done.push(word)?;
    }
    Ok(done)
}

fn complex_of(alloc: Global, texts: &[Name], span: &Span) -> Result<Value, Refused>
    ensures { Returns result (complex_of texts.now span.now) }
{
    let words = words_of(alloc, texts, span)?;
    list_value(alloc, words, Separator::Space, Around::Nothing, span)
}

fn complexes_of(alloc: Global, all: &[List<Name>], span: &Span) -> Result<List<Value>, Refused>
    ensures { Returns result (complexes_of [] all.now span.now) }
{
    let mut done = List::new(alloc);
    'all: for texts in all {
        let complex = complex_of(alloc, texts.as_slice(), span)?;
        done.push(complex)?;
    }
    Ok(done)
}

fn parent_by(
    alloc: Global,
    parents: &Option<Shared<Selectors>>,
    span: &Span,
) -> Result<Value, Refused>
    ensures { Returns result (parent_by parents.now span.now) }
{
    match parents {
        None => Ok(Value::null()),
        Some(selectors) => {
            let texts = selectors.get().parts(alloc)?;
            let complexes = complexes_of(alloc, texts.as_slice(), span)?;
            list_value(alloc, complexes, Separator::Comma, Around::Nothing, span)
        }
    }
}

impl State {
    // The selectors of a rule here, in `@at-root` or not.
    #[tactic(auto, unfolding(crate::specs::Selecting::selected))]
    pub(crate) fn selected(
        &self,
        alloc: Global,
        at_root: bool,
        text: &Name,
        span: &Span,
    ) -> Result<Selectors, Stop>
        ensures { IsReturn result self.now (selected at_root text.now span.now self.now) }
    {
        let at_root = at_root || self.nesting.rules.is_at_root();
        selected_by(nested_in(alloc, at_root, &self.nesting.parents, text), span)
    }

    /// What `&` is.
    pub fn parent(&self, alloc: Global, span: &Span) -> Result<Value, Stop>
        ensures { IsReturn result self.now (parent span.now self.now) }
    {
        stopped(parent_by(alloc, &self.nesting.parents, span))
    }
}
