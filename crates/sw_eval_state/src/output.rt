// The output of a body.
ghost use Rattle.std.specs.Prelude.{◌≡◌, true};
ghost use Rattle.sw_css_tree.specs.Output.{is_open, closed};
ghost use Rattle.sw_eval_questions.specs.Did.{IsReturn};
ghost use Rattle.sw_eval_state.specs.Output.{numbered, opened, lining, declaring, declaring_by, written, commented, noted};

use crate::faults::fails;
use crate::state::State;
use std::alloc::Global;
use sw_css_tree::{CssTree, TreeFault};
use sw_eval_literals::declaration_text;
use sw_eval_questions::Stop;
use sw_text::{FaultCode, Name, Span};
use sw_values::Value;

// The bytes that no output passes.
pub(crate) const MOST_BYTES: usize = 16_777_216;

/// What follows belongs to this statement; in an open rule it belongs to the rule's.
#[tactic(auto, unfolding(crate::specs::Output::numbered))]
pub fn numbered(css: &mut CssTree, number: usize)
    ensures { css.new ≡ numbered number css.old }
{
    if !css.is_open() {
        css.statement(number);
    }
}

// Closes the innermost open rule.
pub(crate) fn close(css: &mut CssTree)
    ensures { css.new ≡ closed css.old }
{
    if css.is_open() {
        css.close();
    }
}

impl State {
    // Opens a rule with these selectors.
    #[tactic(auto, unfolding(crate::specs::Output::opened))]
    pub(crate) fn opened(&mut self, selectors: Name, span: &Span) -> Result<(), Stop>
        ensures { IsReturn result self.new (opened selectors span.now self.old) }
    {
        match self.css.open_rule(selectors) {
            Ok(()) => Ok(()),
            Err(TreeFault::TooLarge) => fails(FaultCode::TooLarge, span),
            Err(TreeFault::Memory) => Err(Stop::Memory),
        }
    }

    // A line of the open rule.
    fn lining(&mut self, property: Name, text: Name, span: &Span) -> Result<(), Stop>
        requires { is_open self.old.css ≡ true }
        ensures { IsReturn result self.new (lining property text span.now self.old) }
    {
        match self.css.declare(property, text) {
            Ok(()) => Ok(()),
            Err(TreeFault::TooLarge) => fails(FaultCode::TooLarge, span),
            Err(TreeFault::Memory) => Err(Stop::Memory),
        }
    }

    /// A declaration of this text.
    #[tactic(auto, unfolding(crate::specs::Output::declaring))]
    pub fn declaring(&mut self, property: Name, text: Name, span: &Span) -> Result<(), Stop>
        ensures { IsReturn result self.new (declaring property text span.now self.old) }
    {
        if !self.css.is_open() {
            return fails(FaultCode::BadPlace, span);
        }
        self.lining(property, text, span)
    }

    // A declaration of this text, if there is one.
    fn declaring_by(&mut self, property: Name, text: Option<Name>, span: &Span) -> Result<(), Stop>
        ensures { IsReturn result self.new (declaring_by property text span.now self.old) }
    {
        match text {
            Some(text) => self.declaring(property, text, span),
            None => Ok(()),
        }
    }

    /// A declaration of this value, whose expression stands at the first place and whose statement at the second.
    pub fn written(
        &mut self,
        alloc: Global,
        property: Name,
        value: &Value,
        value_span: &Span,
        span: &Span,
    ) -> Result<(), Stop>
        ensures { IsReturn result self.new (written property value.now value_span.now span.now self.old) }
    {
        let text = declaration_text(alloc, value, value_span)?;
        self.declaring_by(property, text, span)
    }

    /// A comment is a line where it stands.
    #[tactic(auto, unfolding(crate::specs::Output::commented))]
    pub fn commented(&mut self, text: Name, span: &Span) -> Result<(), Stop>
        ensures { IsReturn result self.new (commented text span.now self.old) }
    {
        match self.css.comment(text) {
            Ok(()) => Ok(()),
            Err(TreeFault::TooLarge) => fails(FaultCode::TooLarge, span),
            Err(TreeFault::Memory) => Err(Stop::Memory),
        }
    }

    /// The bytes of a message.
    #[tactic(auto, unfolding(crate::specs::Output::noted))]
    pub fn noted(&mut self, text: &Name, span: &Span) -> Result<(), Stop>
        ensures { IsReturn result self.new (noted text.now span.now self.old) }
    {
        let len = text.as_str().len();
        if len > MOST_BYTES {
            return fails(FaultCode::TooLarge, span);
        }
        match self.css.message(len as u32) {
            Ok(()) => Ok(()),
            Err(TreeFault::TooLarge) => fails(FaultCode::TooLarge, span),
            Err(TreeFault::Memory) => Err(Stop::Memory),
        }
    }
}
