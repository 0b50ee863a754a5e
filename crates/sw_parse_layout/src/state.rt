// Where a walk over an indented text stands.
ghost use Rattle.std.specs.Prelude.{◌≡◌};

use crate::blocks::Blocks;
use crate::laid::Laid;
use crate::sorts::Sort;
use sw_text::{List, Memory};
use sw_tokens::{Before, Opened, Token};

/// A bracket that is open in a statement, outside `#{}`.
#[derive(Clone, Copy, Debug, PartialEq, Eq)]
pub enum Bracket {
    Paren,
    Square,
}

/// The lines of a comment: the depth of its first, and where the last ends.
#[derive(Clone, Copy, Debug, PartialEq, Eq)]
pub struct Extent {
    pub depth: usize,
    pub stop: usize,
}

/// What a walk is in.
#[derive(Clone, Copy, Debug, PartialEq, Eq)]
pub enum Mode {
    /// At the beginning of a line.
    Between,
    /// In a statement, whose line has this depth.
    Statement(usize),
    /// In a loud comment that is a statement.
    Comment(Extent),
    /// In the lines of such a comment, behind its `*/`.
    Behind(Extent),
}

/// What the tokens of a line so far tell.
#[derive(Debug, Drop)]
pub struct Line {
    /// The strings, urls and `#{}` that are open, the innermost last.
    pub opened: List<Opened>,
    /// What stands directly before.
    pub before: Before,
    /// The brackets that are open outside these, the innermost last.
    pub brackets: List<Bracket>,
    pub sort: Sort,
    /// Where the last token ends.
    pub end: u32,
    /// The loud comments behind it, which are tokens where another one follows in the statement.
    pub comments: List<Token>,
}

/// Where a walk stands, and what it knows of the text before.
#[derive(Debug, Drop)]
pub struct State {
    /// The offset of the next byte that is looked at.
    pub at: usize,
    pub mode: Mode,
    pub line: Line,
    pub blocks: Blocks,
}

/// What a step lays, and where the walk stands behind it.
#[derive(Debug, Drop)]
pub struct Found {
    pub laid: Laid,
    pub state: State,
}

/// Why a step goes no further.
#[derive(Debug, Drop)]
pub enum StepEnd {
    Memory,
    /// The first string or `#{` that isn't closed begins here.
    Unclosed(usize),
}

impl From<Memory> for StepEnd {
    ghost use Rattle.std.specs.Prelude.{◌≡◌};
    ghost use Rattle.sw_parse_layout.specs.declared.state.StepEnd.TheVariants.{Memory as memory};

    ghost from_gives = { λ _ end. end ≡ memory };

    fn from(_: Memory) -> StepEnd {
        StepEnd::Memory
    }
}
