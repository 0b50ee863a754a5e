// Names as they are kept.
ghost use Rattle.std.specs.Prelude.{◌≡◌, IfOk};
ghost use Rattle.sw_text_scan.specs.Pieces.{piece};
ghost use Rattle.sw_text_locality.specs.Names.{is_unclosed, ends_unclosed, name_text};

use std::alloc::Global;
use sw_text::{Memory, Name};
use sw_text_scan::{Class, byte_at, escape_end, is_hex_digit, next_at, piece, signs};

#[tactic(auto, unfolding(crate::specs::Names::is_unclosed))]
fn is_unclosed(bytes: &[u8], at: usize) -> bool
    ensures { result ≡ is_unclosed bytes.now at }
{
    let last = escape_end(bytes, at).saturating_sub(1);
    byte_at(bytes, at) == signs::BACKSLASH && is_hex_digit(byte_at(bytes, last))
}

/// Whether the name characters from a place on end in a hexadecimal escape that no white space closes.
#[tactic(auto, using(crate::proofs::Unclosed::unclosed_step, crate::proofs::Unclosed::unclosed_stop, crate::proofs::Unclosed::unclosed_from_text), unfolding(crate::specs::Names::ends_unclosed))]
pub fn ends_unclosed(bytes: &[u8], at: usize) -> bool
    ensures { result ≡ ends_unclosed bytes.now at }
{
    let mut unclosed = false;
    let mut place = at;
    let mut next = next_at(bytes, Class::Name, place);
    'characters: while place < next {
        unclosed = is_unclosed(bytes, place);
        place = next;
        next = next_at(bytes, Class::Name, place);
    }
    unclosed
}

/// What stands between two places.
pub fn text_of(alloc: Global, text: &str, from: usize, to: usize) -> Result<Name, Memory>
    ensures { IfOk result (λ name. name ≡ piece text.now from to) }
{
    Name::new(alloc, piece(text, from, to))
}

/// What stands from a place up to the end of the name that begins at `at`. Where the name ends in a hexadecimal escape
/// without white space behind it, a space is added.
#[tactic(auto, unfolding(crate::specs::Names::name_text))]
pub fn name_text(
    alloc: Global,
    text: &str,
    from: usize,
    at: usize,
    to: usize,
) -> Result<Name, Memory>
    ensures { IfOk result (λ name. name ≡ name_text text.now from at to) }
{
    if !ends_unclosed(text.as_bytes(), at) {
        return text_of(alloc, text, from, to);
    }
    let mut name = String::new(alloc);
    name.push_str(piece(text, from, to))?;
    name.push_str(" ")?;
    Name::new(alloc, name.as_str())
}
