// What media queries are made of.
ghost use Rattle.std.specs.Prelude.{◌≡◌, [], IsTrue, ◌↔◌};

use std::marker::Model;
use sw_text::{List, Name};

/// What stands before a query's type.
#[derive(Clone, Copy, Debug, PartialEq, Eq)]
pub enum Modifier {
    Unmodified,
    Not,
    Only,
}

/// What a query asks for besides its type. A feature is its text in parentheses, as it is written.
#[derive(Drop)]
pub enum Condition {
    /// All of these features, and nothing where there are none.
    And(List<Name>),
    /// One of these features.
    Or(List<Name>),
    Not(Name),
}

/// A media query.
#[derive(Drop)]
pub struct Query {
    pub modifier: Modifier,
    /// The media type, where there is one.
    pub medium: Option<Name>,
    pub condition: Condition,
}

/// A list of media queries. Contracts see it as the list.
#[derive(Drop)]
pub struct Queries {
    list: List<Query>,
}

impl Model for Queries {
    ghost use Rattle.std.specs.Prelude.{List};
    ghost use Rattle.sw_media.specs.declared.query.Query.{Query};

    ghost Value = { List Query };

    ghost view = { λ queries. queries.list };
}

impl Queries {
    /// The queries of a list. Takes no memory.
    pub(crate) fn new(list: List<Query>) -> Queries
        ensures { result ≡ list }
    {
        Queries { list }
    }

    pub(crate) fn as_slice(&self) -> &[Query]
        ensures { result.now ≡ self.now }
    {
        self.list.as_slice()
    }

    /// Whether no query is left. Takes no memory.
    pub fn is_empty(&self) -> bool
        ensures { IsTrue result ↔ (self.now ≡ []) }
    {
        self.list.is_empty()
    }
}
