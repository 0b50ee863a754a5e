// Rules, and properties nested in each other.
ghost use Rattle.std.specs.Prelude.{◌≡◌, IfOk};
ghost use Rattle.sw_selector.specs.Writing.{text_of};
ghost use Rattle.sw_eval_questions.specs.Did.{IsReturn};
ghost use Rattle.sw_eval_state.specs.Rules.{nested, unnested, in_rule, in_frame, with_prefix, rule_opening, plain_entered, frame_entered, style_entered, rule_entered, rule_left, named_by, full_name, prefixed};
ghost use Rattle.sw_eval_questions.specs.Talk.{Gives};

use crate::faults::fails;
use crate::nesting::{Nesting, Rules};
use crate::output::{MOST_BYTES, close};
use crate::state::State;
use std::alloc::Global;
use std::mem;
use sw_eval_keyframes::keyframe_text;
use sw_eval_literals::whole_text;
use sw_eval_questions::{Stop, stopped};
use sw_selector::Selectors;
use sw_text::{FaultCode, Memory, Name, Shared, Span};

// The name of a property among those of another one.
fn named_by(alloc: Global, prefix: &Option<Name>, name: Name) -> Result<Name, Memory>
    ensures { IfOk result (λ whole. whole ≡ named_by prefix.now name) }
{
    match prefix {
        None => Ok(name),
        Some(prefix) => {
            let hyphen = Name::new(alloc, "-")?;
            whole_text(alloc, &[prefix.share()?, hyphen, name])
        }
    }
}

// In a rule with these selectors.
fn in_rule(parents: Shared<Selectors>, around: Nesting) -> Nesting
    ensures { result ≡ in_rule parents around }
{
    let mut nesting = around;
    nesting.parents = Some(parents);
    nesting.rules = Rules::Nested;
    nesting.in_rule = true;
    nesting
}

// In one of keyframes.
fn in_frame(around: Nesting) -> Nesting
    ensures { result ≡ in_frame around }
{
    let mut nesting = around;
    nesting.in_rule = true;
    nesting
}

// Among the properties of this name.
fn with_prefix(name: Name, around: Nesting) -> Nesting
    ensures { result ≡ with_prefix name around }
{
    let mut nesting = around;
    nesting.prefix = Some(name);
    nesting
}

impl State {
    // What follows is nested in this.
    #[tactic(auto, unfolding(crate::specs::Rules::nested))]
    pub(crate) fn nest(&mut self, nesting: Nesting) -> Result<(), Stop>
        ensures { IsReturn result self.new (Gives (tt, nested nesting self.old)) }
    {
        let before = mem::replace(&mut self.nesting, nesting);
        self.outer.push(before)?;
        Ok(())
    }

    /// What follows is nested in what it was nested in before.
    #[tactic(auto, unfolding(crate::specs::Rules::unnested))]
    pub fn unnest(&mut self)
        ensures { self.new ≡ unnested self.old }
    {
        if let Some(before) = self.outer.pop() {
            self.nesting = before;
        }
    }

    // Opens a rule, in which `&` is these selectors, which are written so.
    fn rule_written(
        &mut self,
        text: Name,
        alloc: Global,
        selectors: Selectors,
        span: &Span,
    ) -> Result<(), Stop>
        requires { text ≡ text_of selectors }
        ensures { IsReturn result self.new (rule_opening selectors span.now self.old) }
    {
        self.opened(text, span)?;
        let parents = Shared::new(alloc, selectors)?;
        let around = self.nesting.share()?;
        self.nest(in_rule(parents, around))
    }

    // Opens a rule, in which `&` is these selectors. Those that no output holds aren't written first.
    fn rule_opening(&mut self, alloc: Global, selectors: Selectors, span: &Span) -> Result<(), Stop>
        ensures { IsReturn result self.new (rule_opening selectors span.now self.old) }
    {
        match selectors.write_within(alloc, MOST_BYTES + 1)? {
            Some(text) => self.rule_written(text, alloc, selectors, span),
            None => fails(FaultCode::TooLarge, span),
        }
    }

    /// Opens a rule whose selectors are written as this text, and in which there is no `&`. It stands here.
    pub fn enter_plain(&mut self, text: Name, span: &Span) -> Result<(), Stop>
        ensures { IsReturn result self.new (plain_entered text span.now self.old) }
    {
        self.opened(text, span)?;
        let around = self.nesting.share()?;
        self.nest(in_frame(around))
    }

    // Opens one of keyframes, which don't nest.
    fn enter_frame(
        &mut self,
        alloc: Global,
        text: &Name,
        text_span: &Span,
        span: &Span,
    ) -> Result<(), Stop>
        ensures { IsReturn result self.new (frame_entered text.now text_span.now span.now self.old) }
    {
        let text = stopped(keyframe_text(alloc, text, text_span))?;
        self.enter_plain(text, span)
    }

    fn enter_style(
        &mut self,
        alloc: Global,
        at_root: bool,
        text: &Name,
        text_span: &Span,
        span: &Span,
    ) -> Result<(), Stop>
        ensures { IsReturn result self.new (style_entered at_root text.now text_span.now span.now self.old) }
    {
        let selectors = self.selected(alloc, at_root, text, text_span)?;
        self.rule_opening(alloc, selectors, span)
    }

    /// Opens a rule, in `@at-root` or not, whose selectors have this text, which stands at the first place; the rule
    /// stands at the second.
    pub fn enter_rule(
        &mut self,
        alloc: Global,
        at_root: bool,
        text: &Name,
        text_span: &Span,
        span: &Span,
    ) -> Result<(), Stop>
        ensures { IsReturn result self.new (rule_entered at_root text.now text_span.now span.now self.old) }
    {
        if self.nesting.rules.are_keyframes() {
            return self.enter_frame(alloc, text, text_span, span);
        }
        self.enter_style(alloc, at_root, text, text_span, span)
    }

    /// Closes it.
    #[tactic(auto, unfolding(crate::specs::Rules::rule_left))]
    pub fn leave_rule(&mut self)
        ensures { self.new ≡ rule_left self.old }
    {
        close(&mut self.css);
        self.unnest();
    }

    /// The whole name of a property.
    pub fn full_name(&self, alloc: Global, name: Name) -> Result<Name, Memory>
        ensures { IfOk result (λ whole. whole ≡ full_name name self.now) }
    {
        named_by(alloc, &self.nesting.prefix, name)
    }

    /// What follows stands among the properties of this name.
    #[tactic(auto, unfolding(crate::specs::Rules::prefixed))]
    pub fn enter_properties(&mut self, name: Name) -> Result<(), Stop>
        ensures { IsReturn result self.new (Gives (tt, prefixed name self.old)) }
    {
        let around = self.nesting.share()?;
        self.nest(with_prefix(name, around))
    }
}
