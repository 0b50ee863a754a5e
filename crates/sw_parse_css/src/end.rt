// How reading plain CSS ends without a tree.
use sw_text::{Fault, Memory};
use sw_tokens::Fault10;

/// Why a text of plain CSS gave no sheet.
#[derive(Debug, Drop)]
pub enum ReadEnd {
    /// What is wrong with the text, and where.
    Fault(Fault),
    /// There was no memory for the tree.
    Memory,
}

impl From<Memory> for ReadEnd {
    ghost use Rattle.std.specs.Prelude.{◌≡◌};
    ghost use Rattle.sw_parse_css.specs.declared.end.ReadEnd.TheVariants.{Memory as memory};

    ghost from_gives = { λ _ end. end ≡ memory };

    fn from(_: Memory) -> Self {
        ReadEnd::Memory
    }
}

impl From<Fault10> for ReadEnd {
    ghost use Rattle.std.specs.Prelude.{◌≡◌};
    ghost use Rattle.sw_parse_css.specs.Ends.{end_of};

    ghost from_gives = { λ fault end. end ≡ end_of fault };

    fn from(fault: Fault10) -> Self {
        match fault {
            Fault10::Fault(fault) => ReadEnd::Fault(fault),
            Fault10::Memory => ReadEnd::Memory,
        }
    }
}
