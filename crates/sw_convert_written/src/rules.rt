// The text before the block of a rule.
ghost use Rattle.std.specs.Prelude.{◌≡◌, ◌++◌, map, OnOk};
ghost use Rattle.sw_text_scan.specs.Bytes.{starts_plainly, is_name_byte};
ghost use Rattle.sw_convert_written.specs.Expressions.{piece_written, parts_written};
ghost use Rattle.sw_convert_written.specs.Heads.{selector_text};
ghost use Rattle.sw_convert_written.specs.Rules.{behind_word, behind_backslash, behind_digits, behind_space, behind_colon, step, place_behind, behind_piece, behind_pieces, declares, begins_dashes, begins_dashed, is_lone_at, is_at, in_word, is_declared, is_cut, has_more, rule_pieces};

use crate::Manner;
use crate::escapes::{put_apart, put_break};
use crate::expr::{put_piece, put_pieces};
use crate::pieces::put_said;
use sw_text::Memory;
use sw_text_scan::{is_digit, is_hex_digit, is_letter, is_white};
use sw_tree::{Parts, Piece, Text};

/// Where a text is in its first word.
#[derive(Clone, Copy, PartialEq, Eq)]
pub enum Place {
    Word,
    /// Behind the `\` of an escape.
    Escape,
    /// Behind hexadecimal digits of one.
    Digits,
    /// Behind white space.
    Space,
    /// Behind the `:`.
    Colon,
    /// It begins as a declaration.
    Declares,
    /// It begins as none.
    Selects,
}

const FIRST_WIDE: u8 = 128;

fn starts_plainly(byte: u8) -> bool
    ensures { result ≡ starts_plainly byte }
{
    is_letter(byte as u16) || byte == b'_' || byte >= FIRST_WIDE
}

fn is_name_byte(byte: u8) -> bool
    ensures { result ≡ is_name_byte byte }
{
    starts_plainly(byte) || is_digit(byte as u16) || byte == b'-'
}

fn behind_word(byte: u8) -> Place
    ensures { result ≡ behind_word byte }
{
    if is_white(byte as u16) {
        Place::Space
    } else if byte == b':' {
        Place::Colon
    } else if is_name_byte(byte) {
        Place::Word
    } else if byte == b'\\' {
        Place::Escape
    } else {
        Place::Selects
    }
}

fn behind_backslash(byte: u8) -> Place
    ensures { result ≡ behind_backslash byte }
{
    if is_hex_digit(byte as u16) {
        Place::Digits
    } else {
        Place::Word
    }
}

fn behind_digits(byte: u8) -> Place
    ensures { result ≡ behind_digits byte }
{
    if is_white(byte as u16) {
        Place::Word
    } else if is_hex_digit(byte as u16) {
        Place::Digits
    } else {
        behind_word(byte)
    }
}

fn behind_space(byte: u8) -> Place
    ensures { result ≡ behind_space byte }
{
    if is_white(byte as u16) {
        Place::Space
    } else if byte == b':' {
        Place::Colon
    } else {
        Place::Selects
    }
}

fn behind_colon(dashed: bool, byte: u8) -> Place
    ensures { result ≡ behind_colon dashed byte }
{
    if !dashed && (starts_plainly(byte) || byte == b':') {
        Place::Selects
    } else {
        Place::Declares
    }
}

fn step(dashed: bool, place: Place, byte: u8) -> Place
    ensures { result ≡ step dashed place byte }
{
    match place {
        Place::Word => behind_word(byte),
        Place::Escape => behind_backslash(byte),
        Place::Digits => behind_digits(byte),
        Place::Space => behind_space(byte),
        Place::Colon => behind_colon(dashed, byte),
        Place::Declares => Place::Declares,
        Place::Selects => Place::Selects,
    }
}

fn place_behind(dashed: bool, place: Place, text: &[u8]) -> Place
    ensures { result ≡ place_behind dashed place text.now }
{
    let mut here = place;
    'bytes: for byte in text {
        here = step(dashed, here, *byte);
    }
    here
}

#[tactic(auto, using(crate::proofs::Unrolled::said_is, crate::proofs::Unrolled::inserted_is, crate::proofs::Unrolled::value_is))]
fn behind_piece(dashed: bool, place: Place, piece: &Piece) -> Place
    ensures { result ≡ behind_piece dashed place (piece_written piece.now) }
{
    match piece {
        Piece::Text(text) => place_behind(dashed, place, text.as_str().as_bytes()),
        Piece::Inserted(_) => step(dashed, place, b'a'),
        Piece::Value(_) => step(dashed, place, b'a'),
    }
}

fn behind_pieces(dashed: bool, pieces: &[Piece]) -> Place
    ensures { result ≡ behind_pieces dashed Place.Word (map piece_written pieces.now) }
{
    let mut here = Place::Word;
    'pieces: for piece in pieces {
        here = behind_piece(dashed, here, piece);
    }
    here
}

fn declares(place: Place) -> bool
    ensures { result ≡ declares place }
{
    match place {
        Place::Colon | Place::Declares => true,
        Place::Word | Place::Escape | Place::Digits | Place::Space | Place::Selects => false,
    }
}

fn begins_dashes(text: &[u8]) -> bool
    ensures { result ≡ begins_dashes text.now }
{
    match text {
        [first, next, ..] => *first == b'-' && *next == b'-',
        _ => false,
    }
}

#[tactic(auto, using(crate::proofs::Unrolled::said_is, crate::proofs::Unrolled::inserted_is, crate::proofs::Unrolled::value_is))]
fn begins_dashed(piece: &Piece) -> bool
    ensures { result ≡ begins_dashed (piece_written piece.now) }
{
    match piece {
        Piece::Text(text) => begins_dashes(text.as_str().as_bytes()),
        Piece::Inserted(_) => false,
        Piece::Value(_) => false,
    }
}

fn is_lone_at(text: &[u8]) -> bool
    ensures { result ≡ is_lone_at text.now }
{
    match text {
        [byte] => *byte == b'@',
        _ => false,
    }
}

#[tactic(auto, using(crate::proofs::Unrolled::said_is, crate::proofs::Unrolled::inserted_is, crate::proofs::Unrolled::value_is))]
fn is_at(piece: &Piece) -> bool
    ensures { result ≡ is_at (piece_written piece.now) }
{
    match piece {
        Piece::Text(text) => is_lone_at(text.as_str().as_bytes()),
        Piece::Inserted(_) => false,
        Piece::Value(_) => false,
    }
}

fn in_word(place: Place) -> bool
    ensures { result ≡ in_word place }
{
    match place {
        Place::Word | Place::Digits => true,
        Place::Escape | Place::Space | Place::Colon | Place::Declares | Place::Selects => false,
    }
}

// Whether pieces of which the first is all of a word begin as a declaration.
fn is_declared(dashed: bool, first: &Piece, pieces: &[Piece]) -> bool
    ensures { result ≡ is_declared dashed (piece_written first.now) (map piece_written pieces.now) }
{
    in_word(behind_piece(dashed, Place::Word, first)) && declares(behind_pieces(dashed, pieces))
}

/// Whether pieces that begin with this one would begin no rule.
pub fn is_cut(pieces: &[Piece], first: &Piece) -> bool
    ensures { result ≡ is_cut (piece_written first.now) (map piece_written pieces.now) }
{
    is_at(first) || is_declared(begins_dashed(first), first, pieces)
}

/// Whether any piece comes behind.
pub fn has_more(rest: &[Piece]) -> bool
    ensures { result ≡ has_more (map piece_written rest.now) }
{
    match rest {
        [] => false,
        [_, ..] => true,
    }
}

fn put_rule_pieces(out: &mut Vec<u8>, pieces: &[Piece]) -> Result<(), Memory>
    ensures { OnOk result (out.new.items ≡ out.old.items ++ rule_pieces (map piece_written pieces.now)) }
{
    match pieces {
        [] => Ok(()),
        [piece, rest @ ..] => {
            if !(has_more(rest) && is_cut(pieces, piece)) {
                return put_pieces(out, pieces, Manner::Seamed);
            }
            put_piece(out, piece, Manner::Seamed)?;
            put_apart(out)?;
            put_pieces(out, rest, Manner::Seamed)
        }
    }
}

#[tactic(auto, using(crate::proofs::Unrolled::plain_is, crate::proofs::Unrolled::mixed_is))]
fn put_rule_parts(out: &mut Vec<u8>, parts: &Parts) -> Result<(), Memory>
    ensures { OnOk result (out.new.items ≡ out.old.items ++ rule_pieces (parts_written parts.now)) }
{
    match parts {
        Parts::Plain(text) => put_said(out, Manner::Seamed, text),
        Parts::Mixed(pieces) => put_rule_pieces(out, pieces.as_slice()),
    }
}

/// Puts the text before the block of a rule.
#[tactic(auto, using(crate::proofs::Joins::appends))]
pub fn put_selector(out: &mut Vec<u8>, text: &Text) -> Result<(), Memory>
    ensures { OnOk result (out.new.items ≡ out.old.items ++ selector_text text.now) }
{
    let from = out.len();
    put_rule_parts(out, &text.parts)?;
    put_break(out, from)
}
