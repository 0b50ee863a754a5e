// Commas.
ghost use Rattle.std.specs.Prelude.{◌≡◌, ◌++◌, OnOk};
ghost use Rattle.sw_convert_written.specs.Expressions.{comma_before};

use crate::bytes::put;
use sw_text::Memory;

/// Puts the comma before what isn't the first.
pub fn put_comma(out: &mut Vec<u8>, first: bool) -> Result<(), Memory>
    ensures { OnOk result (out.new.items ≡ out.old.items ++ comma_before first) }
{
    if first {
        return Ok(());
    }
    put(out, b", ")
}
