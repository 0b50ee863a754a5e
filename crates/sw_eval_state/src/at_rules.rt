// At-rules with blocks and without.
ghost use Rattle.std.specs.Prelude.{◌≡◌, IfOk};
ghost use Rattle.sw_media.specs.Reading.{IsAnswer};
ghost use Rattle.sw_eval_questions.specs.Did.{IsReturn};
ghost use Rattle.sw_eval_questions.specs.Talk.{Gives};
ghost use Rattle.sw_eval_state.specs.AtRules.{Asked, joined_in, media_by, queries_by, bare_name, media_queries, media_put, at_put, media_opened, media_entered, in_media, in_at_rule, at_entered, at_root, in_root, root_entered, at_lined, imported_one, imported_all};
ghost use Rattle.sw_eval_state.specs.declared.state.State.{State};

use crate::faults::fails;
use crate::nesting::{Nesting, Rules};
use crate::state::State;
use std::alloc::Global;
use sw_css_tree::{TreeFault, is_keyframes};
use sw_eval_questions::Stop;
use sw_media::{MediaFault, Queries, join, read};
use sw_text::{FaultCode, Memory, Name, Shared, Span};
use sw_text_scan::piece;

// Joined with the queries around them, where there are any.
fn joined_in(
    alloc: Global,
    outer: &Option<Shared<Queries>>,
    queries: Queries,
) -> Result<Queries, MediaFault>
    ensures { IsAnswer result (joined_in outer.now queries) }
{
    match outer {
        None => Ok(queries),
        Some(outer) => join(alloc, outer.get(), &queries),
    }
}

fn media_by(
    alloc: Global,
    outer: &Option<Shared<Queries>>,
    text: &Name,
) -> Result<Queries, MediaFault>
    ensures { IsAnswer result (media_by outer.now text.now) }
{
    match read(alloc, text.as_str()) {
        Ok(queries) => joined_in(alloc, outer, queries),
        Err(why) => Err(why),
    }
}

fn queries_by(asked: Result<Queries, MediaFault>, span: &Span) -> Result<Queries, Stop>
    ensures { (said : Asked) (s : State) → IsAnswer asked said → IsReturn result s (queries_by span.now said s) }
{
    match asked {
        Ok(queries) => Ok(queries),
        Err(MediaFault::BadQuery) => fails(FaultCode::Syntax, span),
        Err(MediaFault::MediaJoin) => fails(FaultCode::MediaJoin, span),
        Err(MediaFault::TooLarge) => fails(FaultCode::TooLarge, span),
        Err(MediaFault::Memory) => Err(Stop::Memory),
    }
}

/// The name of an at-rule without its `@`.
#[tactic(auto, unfolding(crate::specs::AtRules::bare_name))]
pub fn bare_name(alloc: Global, name: &Name) -> Result<Name, Memory>
    ensures { IfOk result (λ bare. bare ≡ bare_name name.now) }
{
    let text = name.as_str();
    Name::new(alloc, piece(text, 1, text.len()))
}

impl State {
    // The queries of a `@media` here, joined with those around it.
    fn media_queries(&self, alloc: Global, text: &Name, span: &Span) -> Result<Queries, Stop>
        ensures { IsReturn result self.now (media_queries text.now span.now self.now) }
    {
        queries_by(media_by(alloc, &self.nesting.media, text), span)
    }

    // Opens a `@media`, which takes the place of the one around it.
    #[tactic(auto, unfolding(crate::specs::AtRules::media_put))]
    fn put_media(&mut self, name: Name, prelude: Name, span: &Span) -> Result<(), Stop>
        ensures { IsReturn result self.new (media_put name prelude span.now self.old) }
    {
        match self.css.bubble(name, prelude) {
            Ok(()) => Ok(()),
            Err(TreeFault::TooLarge) => fails(FaultCode::TooLarge, span),
            Err(TreeFault::Memory) => Err(Stop::Memory),
        }
    }

    // Opens any other at-rule.
    #[tactic(auto, unfolding(crate::specs::AtRules::at_put))]
    fn put_at(&mut self, name: Name, prelude: Name, span: &Span) -> Result<(), Stop>
        ensures { IsReturn result self.new (at_put name prelude span.now self.old) }
    {
        match self.css.open_at(name, prelude) {
            Ok(()) => Ok(()),
            Err(TreeFault::TooLarge) => fails(FaultCode::TooLarge, span),
            Err(TreeFault::Memory) => Err(Stop::Memory),
        }
    }

    // Opens a `@media` with these queries.
    fn open_media(&mut self, alloc: Global, queries: Queries, span: &Span) -> Result<(), Stop>
        ensures { IsReturn result self.new (media_opened queries span.now self.old) }
    {
        let name = Name::new(alloc, "media")?;
        let text = queries.write(alloc)?;
        self.put_media(name, text, span)?;
        let queries = Shared::new(alloc, queries)?;
        let around = self.nesting.share()?;
        self.nest(in_media(queries, around))
    }

    /// Opens a `@media` whose queries have this text, which stands at the first place; the statement stands at the
    /// second. It isn't opened where no query is left of it and those around it.
    pub fn enter_media(
        &mut self,
        alloc: Global,
        text: &Name,
        text_span: &Span,
        span: &Span,
    ) -> Result<bool, Stop>
        ensures { IsReturn result self.new (media_entered text.now text_span.now span.now self.old) }
    {
        let queries = self.media_queries(alloc, text, text_span)?;
        if queries.is_empty() {
            return Ok(false);
        }
        self.open_media(alloc, queries, span)?;
        Ok(true)
    }

    /// Opens any other at-rule with a block.
    pub fn enter_at_rule(&mut self, name: Name, prelude: Name, span: &Span) -> Result<(), Stop>
        ensures { IsReturn result self.new (at_entered name prelude span.now self.old) }
    {
        let frames = is_keyframes(name.as_str());
        self.put_at(name, prelude, span)?;
        let around = self.nesting.share()?;
        self.nest(in_at_rule(frames, around))
    }

    /// Leaves the rules around for what stands in an `@at-root` without a selector.
    pub fn enter_root(&mut self) -> Result<(), Stop>
        ensures { IsReturn result self.new (Gives (tt, root_entered self.old)) }
    {
        if self.css.open_root().is_err() {
            return Err(Stop::Memory);
        }
        let around = self.nesting.share()?;
        self.nest(in_root(around))
    }

    /// An at-rule without a block is a line where it stands.
    #[tactic(auto, unfolding(crate::specs::AtRules::at_lined))]
    pub fn line_at_rule(&mut self, name: Name, prelude: Name, span: &Span) -> Result<(), Stop>
        ensures { IsReturn result self.new (at_lined name prelude span.now self.old) }
    {
        match self.css.at(name, prelude) {
            Ok(()) => Ok(()),
            Err(TreeFault::TooLarge) => fails(FaultCode::TooLarge, span),
            Err(TreeFault::Memory) => Err(Stop::Memory),
        }
    }

    /// A plain CSS import.
    #[tactic(auto, unfolding(crate::specs::AtRules::imported_one))]
    pub fn import_one(&mut self, text: Name, span: &Span) -> Result<(), Stop>
        ensures { IsReturn result self.new (imported_one text span.now self.old) }
    {
        match self.css.import(text) {
            Ok(()) => Ok(()),
            Err(TreeFault::TooLarge) => fails(FaultCode::TooLarge, span),
            Err(TreeFault::Memory) => Err(Stop::Memory),
        }
    }

    /// Plain CSS imports.
    pub fn import_all(&mut self, texts: &[Name], span: &Span) -> Result<(), Stop>
        ensures { IsReturn result self.new (imported_all texts.now span.now self.old) }
    {
        'texts: for one in texts {
            let text = one.share()?;
            self.import_one(text, span)?;
        }
        Ok(())
    }
}

// In a `@media` with these queries.
fn in_media(queries: Shared<Queries>, around: Nesting) -> Nesting
    ensures { result ≡ in_media queries around }
{
    let mut nesting = around;
    nesting.media = Some(queries);
    nesting.in_at_rule = true;
    nesting
}

// In an at-rule with a block: keyframes have selectors of their own.
fn in_at_rule(frames: bool, around: Nesting) -> Nesting
    ensures { result ≡ in_at_rule frames around }
{
    let mut nesting = around;
    nesting.in_at_rule = true;
    if frames {
        nesting.parents = None;
        nesting.rules = Rules::Keyframes;
    }
    nesting
}

// How the selectors of a rule are read in `@at-root` without a selector.
fn at_root(rules: Rules) -> Rules
    ensures { result ≡ at_root rules }
{
    match rules {
        Rules::Nested => Rules::AtRoot,
        Rules::AtRoot => Rules::AtRoot,
        Rules::Keyframes => Rules::Keyframes,
    }
}

fn in_root(around: Nesting) -> Nesting
    ensures { result ≡ in_root around }
{
    let mut nesting = around;
    nesting.in_rule = false;
    nesting.rules = at_root(nesting.rules);
    nesting
}
