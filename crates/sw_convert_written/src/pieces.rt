// Whether an empty comment stands between two pieces of a text.
ghost use Rattle.std.specs.Prelude.{◌≡◌, ◌++◌, OnOk};
ghost use Rattle.sw_convert_written.specs.Pieces.{said_text, piece_text, begins_white, is_loose_end, is_loose_start, is_taken, ends_loose, begins_loose, is_seam, is_parting, is_parted};
ghost use Rattle.sw_convert_written.specs.Expressions.{piece_written};

use crate::Manner;
use crate::escapes::{behind, ends_unclosed, takes_white};
use crate::strings::put_escaped;
use sw_text::{Memory, Name};
use sw_text_scan::is_white;
use sw_tree::Piece;

fn begins_white(text: &[u8]) -> bool
    ensures { result ≡ begins_white text.now }
{
    match text {
        [] => false,
        [byte, ..] => is_white(*byte as u16),
    }
}

fn is_loose_end(byte: u8) -> bool
    ensures { result ≡ is_loose_end byte }
{
    is_white(byte as u16)
        || byte == b','
        || byte == b'('
        || byte == b'['
        || byte == b'/'
        || byte == b'*'
}

fn is_loose_start(byte: u8) -> bool
    ensures { result ≡ is_loose_start byte }
{
    is_white(byte as u16)
        || byte == b','
        || byte == b')'
        || byte == b']'
        || byte == b'/'
        || byte == b'*'
}

// Whether a byte belongs to the escape that is open before it, or to one whose carriage return stands there.
fn is_taken(escape: Option<usize>, returned: bool, byte: u8) -> bool
    ensures { result ≡ is_taken escape returned byte }
{
    match escape {
        None => returned && byte == b'\n',
        Some(digits) => digits == 0 || is_white(byte as u16),
    }
}

fn ends_loose(text: &[u8]) -> bool
    ensures { result ≡ ends_loose text.now }
{
    let mut escape = None;
    let mut returned = false;
    let mut loose = false;
    'bytes: for byte in text {
        loose = is_loose_end(*byte) && !is_taken(escape, returned, *byte);
        returned = takes_white(escape) && *byte == b'\r';
        escape = behind(escape, *byte);
    }
    loose
}

fn begins_loose(text: &[u8]) -> bool
    ensures { result ≡ begins_loose text.now }
{
    match text {
        [] => false,
        [byte, ..] => is_loose_start(*byte),
    }
}

// Between pieces of raw or special text, of which the first was written so.
#[tactic(auto, using(crate::proofs::Unrolled::said_is, crate::proofs::Unrolled::inserted_is, crate::proofs::Unrolled::value_is))]
fn is_seam(piece: &Piece, next: &Piece, written: &[u8]) -> bool
    requires { written.now ≡ piece_text Manner.Seamed (piece_written piece.now) }
    ensures { result ≡ is_seam (piece_written piece.now) (piece_written next.now) }
{
    match (piece, next) {
        (Piece::Text(_), Piece::Text(_)) => true,
        (Piece::Text(_), Piece::Inserted(_)) => false,
        (Piece::Text(_), Piece::Value(_)) => !ends_loose(written),
        (Piece::Inserted(_), Piece::Text(_)) => false,
        (Piece::Inserted(_), Piece::Inserted(_)) => false,
        (Piece::Inserted(_), Piece::Value(_)) => true,
        (Piece::Value(_), Piece::Text(text)) => {
            let text = text.as_str().as_bytes();
            !begins_loose(text) || (begins_white(text) && ends_unclosed(written))
        }
        (Piece::Value(_), Piece::Inserted(_)) => false,
        (Piece::Value(_), Piece::Value(_)) => true,
    }
}

// Between pieces of queries, of which the first was written so.
#[tactic(auto, using(crate::proofs::Unrolled::said_is, crate::proofs::Unrolled::inserted_is, crate::proofs::Unrolled::value_is))]
fn is_parting(piece: &Piece, next: &Piece, written: &[u8]) -> bool
    requires { written.now ≡ piece_text Manner.Queried (piece_written piece.now) }
    ensures { result ≡ is_parting (piece_written piece.now) (piece_written next.now) }
{
    match (piece, next) {
        (Piece::Text(_), Piece::Text(text)) => {
            begins_white(text.as_str().as_bytes()) && ends_unclosed(written)
        }
        (Piece::Text(_), Piece::Inserted(_)) => false,
        (Piece::Text(_), Piece::Value(_)) => false,
        (Piece::Inserted(_), Piece::Text(_)) => false,
        (Piece::Inserted(_), Piece::Inserted(_)) => false,
        (Piece::Inserted(_), Piece::Value(_)) => false,
        (Piece::Value(_), Piece::Text(text)) => {
            begins_white(text.as_str().as_bytes()) && ends_unclosed(written)
        }
        (Piece::Value(_), Piece::Inserted(_)) => false,
        (Piece::Value(_), Piece::Value(_)) => false,
    }
}

/// Whether an empty comment stands between two pieces, of which the first was written so.
pub fn is_parted(manner: Manner, piece: &Piece, next: &Piece, written: &[u8]) -> bool
    requires { written.now ≡ piece_text manner (piece_written piece.now) }
    ensures { result ≡ is_parted manner (piece_written piece.now) (piece_written next.now) }
{
    match manner {
        Manner::Joined => false,
        Manner::Quoted => false,
        Manner::Seamed => is_seam(piece, next, written),
        Manner::Queried => is_parting(piece, next, written),
    }
}

/// Puts a text that is a piece.
pub fn put_said(out: &mut Vec<u8>, manner: Manner, text: &Name) -> Result<(), Memory>
    ensures { OnOk result (out.new.items ≡ out.old.items ++ said_text manner text.now) }
{
    let bytes = text.as_str().as_bytes();
    match manner {
        Manner::Quoted => put_escaped(out, bytes),
        Manner::Joined | Manner::Seamed | Manner::Queried => {
            out.extend_from_slice(bytes)?;
            Ok(())
        }
    }
}
