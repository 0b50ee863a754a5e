// Parts of a text.
ghost use Rattle.std.specs.Prelude.{◌≡◌, true};
ghost use Rattle.std.specs.Str.{IsCharBoundary};
ghost use Rattle.sw_text_scan.specs.Pieces.{is_cut, piece, trimmed_end};

use crate::bytes::{byte_at, continues, is_white};

/// Whether a place lies between two characters, or at an end of the text.
#[tactic(auto, unfolding(crate::specs::Bytes::byte))]
fn is_cut(text: &str, at: usize) -> bool
    ensures test { result ≡ is_cut text.now at }
    ensures boundary { result ≡ true → IsCharBoundary text.now at }
{
    at <= text.len() && !continues(byte_at(text.as_bytes(), at))
}

/// What stands between two places, and nothing where these are no places between characters.
#[tactic(auto, unfolding(crate::specs::Pieces::piece))]
pub fn piece(text: &str, from: usize, to: usize) -> &str
    ensures { result.now ≡ piece text.now from to }
{
    if from > to || !is_cut(text, from) || !is_cut(text, to) {
        return "";
    }
    &text[from..to]
}

/// Where what stands between two places ends without the white space behind it.
#[tactic(auto, using(crate::proofs::PieceLemmas::trimmed_more, crate::proofs::PieceLemmas::trimmed_stop, crate::proofs::PieceLemmas::trimmed_none), unfolding(crate::specs::Pieces::trimmed_end))]
pub fn trimmed_end(bytes: &[u8], from: usize, to: usize) -> usize
    ensures { result ≡ trimmed_end bytes.now from to }
{
    if to <= from {
        return from;
    }
    let mut end = to;
    'trim: while from < end {
        if !is_white(byte_at(bytes, end - 1)) {
            return end;
        }
        end -= 1;
    }
    end
}
