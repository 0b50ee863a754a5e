// Which calls of an object in memory fail.
ghost use Rattle.std.specs.Prelude.{◌↔◌, IsTrue};
ghost use Rattle.std.specs.List.{Contains};

use sw_text::List;

/// Whether a call's number is among those listed, in whatever order; one past 4,294,967,295 never is.
pub fn is_listed(numbers: &List<u32>, call: u64) -> bool
    ensures { IsTrue result ↔ Contains numbers.now call }
{
    numbers
        .as_slice()
        .iter()
        .any(|number| u64::from(*number) == call)
}
