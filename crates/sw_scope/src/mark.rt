// Marks of frames, and whose code runs.
ghost use Rattle.std.specs.Prelude.{◌≡◌};

use crate::index::Index;
use std::marker::Model;

/// What a frame is of: flow, as `@if` or a loop, or a block of its own.
#[derive(Clone, Copy, Debug, PartialEq, Eq)]
pub enum FrameKind {
    Flow,
    Block,
}

/// Whose the running code is: the body's own module's, which sees the variables of the top, or another module's, which
/// has to ask for what no frame has.
#[derive(Clone, Copy, Debug, PartialEq, Eq)]
pub enum Origin {
    Own,
    Other,
}

/// One of the frames that are there. Contracts see its number, counted from 1 at the outermost.
#[derive(Clone, Copy, Debug)]
pub struct Mark {
    number: usize,
}

impl Model for Mark {
    ghost use Rattle.std.specs.Prelude.{ℕ};

    ghost Value = { ℕ };

    ghost view = { λ mark. mark.number };

    ghost inverse = { λ n. record { number = n } };
}

impl Mark {
    pub(crate) fn of(number: usize) -> Mark
        ensures { result ≡ number }
    {
        Mark { number }
    }

    pub(crate) fn number(self) -> usize
        ensures { result ≡ self }
    {
        self.number
    }
}

/// Where the vector of variables is cut: what the frame is of, how many frames lie up to the one on which it stands,
/// where its variables start, and their index where it has many.
#[derive(Drop)]
pub(crate) struct FrameMark {
    pub kind: FrameKind,
    pub below: usize,
    pub start: usize,
    pub index: Option<Index>,
}
