// Why a sheet isn't written.
ghost use Rattle.std.specs.Prelude.{◌≡◌};
ghost use Rattle.sw_convert_lines.specs.declared.fault.ConvertFault.TheVariants as faults;

use sw_text::{Memory, Span};

/// Why a sheet isn't written in lines.
#[derive(Debug, Drop)]
pub enum ConvertFault {
    /// Lines can't hold the statement that stands there.
    NotIndentable(Span),
    Memory,
}

impl From<Memory> for ConvertFault {
    ghost from_gives = { λ _ fault. fault ≡ faults.Memory };

    fn from(_: Memory) -> ConvertFault {
        ConvertFault::Memory
    }
}
