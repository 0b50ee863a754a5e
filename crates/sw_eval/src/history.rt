// Which bodies ran: a list that proofs alone read.
ghost use Rattle.std.specs.Prelude.{◌≡◌, ℕ, List, [], ◌∷◌, ◌++◌};
ghost use Rattle.std.specs.Borrow.{ftrue};

use std::marker::Model;
use sw_text::Name;

/// The paths of the bodies that ran to their ends, in order. It takes no bytes, and its calls do nothing when the
/// program runs, so that a session doesn't grow by what it did.
#[derive(Drop)]
pub struct History {
    pub ghost paths: { List (List ℕ) },
}

impl Model for History {
    ghost also_owns = { λ _. ftrue };
}

impl History {
    /// No body has run.
    pub fn new() -> History
        ensures { result.paths ≡ [] }
    {
        History {}
    }

    /// The bodies that ran before, and then the one at a path.
    pub fn and(_before: &History, _path: &Name) -> History
        ensures { result.paths ≡ _before.now.paths ++ _path.now ∷ [] }
    {
        History {}
    }
}
