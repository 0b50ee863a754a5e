// How reading ends without a tree.
use sw_text::{Fault, Memory};

/// Why tokens gave no tree.
#[derive(Debug, Drop)]
pub enum ReadEnd {
    /// What is wrong with them, and where.
    Fault(Fault),
    /// There was no memory for the tree.
    Memory,
}

impl From<Memory> for ReadEnd {
    ghost use Rattle.std.specs.Prelude.{◌≡◌};
    ghost use Rattle.sw_expr_parse.specs.declared.end.ReadEnd.TheVariants.{Memory as memory};

    ghost from_gives = { λ _ end. end ≡ memory };

    fn from(_: Memory) -> Self {
        ReadEnd::Memory
    }
}
