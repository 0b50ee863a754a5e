// What a statement is nested in.
ghost use Rattle.std.specs.Prelude.{◌≡◌, IfOk};
ghost use Rattle.sw_eval_state.specs.Nestings.{at_top, takes_lines, is_at_root, are_keyframes};

use sw_media::Queries;
use sw_selector::Selectors;
use sw_text::{Memory, Name, Shared};

/// How the selectors of a rule are read.
#[derive(Clone, Copy, Debug)]
pub enum Rules {
    /// Nested in those of the rule around it.
    Nested,
    /// The same, but that those without `&` stand by themselves.
    AtRoot,
    /// As those of keyframes.
    Keyframes,
}

impl Rules {
    // Whether selectors without `&` stand by themselves.
    pub(crate) fn is_at_root(self) -> bool
        ensures { result ≡ is_at_root self }
    {
        match self {
            Rules::Nested => false,
            Rules::AtRoot => true,
            Rules::Keyframes => false,
        }
    }

    pub(crate) fn are_keyframes(self) -> bool
        ensures { result ≡ are_keyframes self }
    {
        match self {
            Rules::Nested => false,
            Rules::AtRoot => false,
            Rules::Keyframes => true,
        }
    }
}

/// What a statement is nested in.
#[derive(Drop)]
pub struct Nesting {
    /// The selectors of the rule around it, which `&` is.
    pub parents: Option<Shared<Selectors>>,
    /// The name of the properties around it.
    pub prefix: Option<Name>,
    /// How the selectors of a rule are read.
    pub rules: Rules,
    /// The queries of the innermost `@media` around it.
    pub media: Option<Shared<Queries>>,
    /// A rule is around it.
    pub in_rule: bool,
    /// An at-rule with a block is around it.
    pub in_at_rule: bool,
}

fn share_some<T: Drop>(shared: &Option<Shared<T>>) -> Result<Option<Shared<T>>, Memory>
    ensures { IfOk result (λ copy. copy ≡ shared.now) }
{
    match shared {
        Some(shared) => Ok(Some(shared.share()?)),
        None => Ok(None),
    }
}

fn share_name(name: &Option<Name>) -> Result<Option<Name>, Memory>
    ensures { IfOk result (λ copy. copy ≡ name.now) }
{
    match name {
        Some(name) => Ok(Some(name.share()?)),
        None => Ok(None),
    }
}

impl Nesting {
    /// What the statements of the top level are nested in.
    pub fn at_top() -> Nesting
        ensures { result ≡ at_top }
    {
        Nesting {
            parents: None,
            prefix: None,
            rules: Rules::Nested,
            media: None,
            in_rule: false,
            in_at_rule: false,
        }
    }

    /// One more owner of its parts, in constant time.
    pub fn share(&self) -> Result<Nesting, Memory>
        ensures { IfOk result (λ nesting. nesting ≡ self.now) }
    {
        Ok(Nesting {
            parents: share_some(&self.parents)?,
            prefix: share_name(&self.prefix)?,
            rules: self.rules,
            media: share_some(&self.media)?,
            in_rule: self.in_rule,
            in_at_rule: self.in_at_rule,
        })
    }

    /// Whether lines may stand there.
    pub fn takes_lines(&self) -> bool
        ensures { result ≡ takes_lines self.now }
    {
        self.in_rule || self.in_at_rule
    }
}
