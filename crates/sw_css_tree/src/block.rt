// Blocks of the output.
ghost use Rattle.std.specs.Prelude.{◌≡◌};
ghost use Rattle.sw_css_tree.specs.Output.{is_written};

use sw_text::{List, Name, Shared};

/// A line of a block, or of the top level.
#[derive(Debug)]
pub enum Line {
    Declaration { property: Name, value: Name },
    /// A comment with its `/*` and `*/`.
    Comment { text: Name },
    /// An at-rule without a block.
    At { name: Name, prelude: Name },
    /// What stands after `@import`.
    Import { text: Name },
}

impl Drop for Line {
    fn drop(self) {
        match self {
            Line::Declaration {
                property: _,
                value: _,
            } => {}
            Line::Comment { text: _ } => {}
            Line::At {
                name: _,
                prelude: _,
            } => {}
            Line::Import { text: _ } => {}
        }
    }
}

/// An at-rule with a block that stands round a block of the output.
#[derive(Debug)]
pub struct Wrapper {
    /// How many at-rules with a block were opened before it. No other one has this number.
    pub number: usize,
    /// The name without `@`.
    pub name: Name,
    pub prelude: Name,
}

impl Drop for Wrapper {
    fn drop(self) {
        let Wrapper {
            number: _,
            name: _,
            prelude: _,
        } = self;
    }
}

/// A rule with some of its lines; or, without a selector, lines that stand outside every rule.
#[derive(Debug)]
pub struct Block {
    /// The number of the top-level statement that it belongs to.
    pub statement: usize,
    /// The at-rules round it, from the outermost on.
    pub wrappers: Shared<List<Wrapper>>,
    /// The rule's selectors as they are written. Where they are the empty text, nothing of the rule is written.
    pub selector: Option<Name>,
    pub lines: List<Line>,
}

impl Drop for Block {
    fn drop(self) {
        let Block {
            statement: _,
            wrappers: _,
            selector: _,
            lines: _,
        } = self;
    }
}

impl Block {
    /// Whether something of it is written: it has lines and its selector isn't the empty text, or it is the own block
    /// of an at-rule.
    pub fn is_written(&self) -> bool
        ensures { result ≡ is_written self.now }
    {
        match &self.selector {
            None => !self.lines.as_slice().is_empty() || !self.wrappers.get().as_slice().is_empty(),
            Some(text) => !text.as_str().is_empty() && !self.lines.as_slice().is_empty(),
        }
    }
}
