// Parts of a text without the white space around them.
ghost use Rattle.std.specs.Prelude.{◌≡◌, ◌++◌, ◌∷◌, [], OnOk};
ghost use Rattle.sw_eval_literals.specs.Trimming.{trimmed};

use std::alloc::Global;
use sw_text::{List, Memory, Name};
use sw_text_scan::{Class, piece, run_end, trimmed_end};

/// What stands between two places.
pub fn trimmed(text: &str, from: usize, to: usize) -> &str
    ensures { result.now ≡ trimmed text.now from to }
{
    let bytes = text.as_bytes();
    let start = run_end(bytes, Class::White, from);
    piece(text, start, trimmed_end(bytes, start, to))
}

/// Puts it behind others.
pub fn add_trimmed(
    alloc: Global,
    parts: &mut List<Name>,
    text: &str,
    from: usize,
    to: usize,
) -> Result<(), Memory>
    ensures { OnOk result (parts.new ≡ parts.old ++ trimmed text.now from to ∷ []) }
{
    let part = Name::new(alloc, trimmed(text, from, to))?;
    parts.push(part)
}
