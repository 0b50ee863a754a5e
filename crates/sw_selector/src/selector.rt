// What selectors are made of.
ghost use Rattle.std.specs.Prelude.{◌≡◌, ◌≤◌};
ghost use Rattle.sw_selector.specs.Depth.{list_depth};

use crate::reader::LEVELS;
use std::marker::Model;
use sw_text::{List, Name, Shared};

/// How two compounds stand to each other: white space, `>`, `+` or `~`.
#[derive(Clone, Copy, Debug, PartialEq, Eq)]
pub enum Combinator {
    Descendant,
    Child,
    Next,
    Subsequent,
}

/// A combinator or a simple selector. The simple selectors between two combinators are one compound.
#[derive(Drop)]
pub enum Part {
    Combinator(Combinator),
    /// `&` with the name characters directly behind it, if any.
    Parent(Name),
    /// A type, a class, an id or a pseudo without an argument, as written: it ends in a name.
    Named(Name),
    /// `%name`, as written.
    Placeholder(Name),
    /// `*`, an attribute or a pseudo with another argument, as written.
    Closed(Name),
    /// A pseudo, with its colons, whose argument is selectors.
    Pseudo {
        name: Name,
        selectors: Shared<List<Complex>>,
    },
}

/// A complex selector: compounds and combinators in order.
pub type Complex = List<Part>;

/// A list of complex selectors, in which at most 128 pseudos with selectors stand in each other. Contracts see it as
/// the list.
#[derive(Drop)]
pub struct Selectors {
    list: List<Complex>,
}

impl Model for Selectors {
    ghost use Rattle.std.specs.Prelude.{◌≤◌, List};
    ghost use Rattle.std.specs.Coded.{coded_list};
    ghost use Rattle.sw_selector.specs.declared.selector.Part.{Part};
    ghost use Rattle.sw_selector.specs.contracts.selector.Part as part;
    ghost use Rattle.sw_selector.specs.declared.reader.TheConstants.{LEVELS};
    ghost use Rattle.sw_selector.specs.Depth.{list_depth};

    ghost Value = { List (List Part) };

    ghost coded = { coded_list (coded_list part.the_row.coded) };

    ghost view = { λ selectors. selectors.list };

    ghost invariant = { λ selectors. list_depth 0 selectors.list ≤ LEVELS };
}

impl Selectors {
    /// The selectors of a list that isn't too deep. Takes no memory.
    pub(crate) fn new(list: List<Complex>) -> Selectors
        requires { list_depth 0 list ≤ LEVELS }
        ensures { result ≡ list }
    {
        Selectors { list }
    }

    /// The complex selectors.
    pub(crate) fn as_slice(&self) -> &[Complex]
        ensures list { result.now ≡ self.now }
        ensures depth { list_depth 0 self.now ≤ LEVELS }
    {
        self.list.as_slice()
    }
}
