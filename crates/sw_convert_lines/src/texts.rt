// Raw text in a line.
ghost use Rattle.std.specs.Prelude.{◌≡◌, ◌∷◌, [], ◌++◌, map, IfOk, OnOk, true, false};
ghost use Rattle.sw_convert_alike.specs.RawText as raw;
ghost use Rattle.sw_convert_written.specs.Expressions.{piece_written, parts_written};
ghost use Rattle.sw_convert_lines.specs.Opens.{open_of};
ghost use Rattle.sw_convert_lines.specs.RawTexts.{piece_in, behind_piece, is_said, seam_before, pieces_in, line_text, cut_behind, selector_pieces, selector_line, spaced_line};

use sw_convert_written::{Manner, has_more, is_cut, put_apart, put_piece};
use sw_text::Memory;
use sw_text_scan::{MOST_HEX_DIGITS, is_hex_digit, is_quote, is_white};
use sw_tree::{Parts, Piece, Text};

/// What is open at a place of raw text.
#[derive(Clone, Copy, PartialEq, Eq)]
pub enum Open {
    Nothing,
    /// A run of white space.
    Run,
    /// An escape outside strings, of which so many hexadecimal digits stand there.
    Escape(usize),
    /// The same behind its carriage return.
    Returned,
    /// A string in this quote.
    Text(u8),
    /// An escape in it.
    TextEscape(u8),
}

fn opened(byte: u8) -> Open
    ensures { open_of result ≡ raw.opened byte }
{
    if is_white(byte as u16) {
        Open::Run
    } else if byte == b'\\' {
        Open::Escape(0)
    } else if is_quote(byte as u16) {
        Open::Text(byte)
    } else {
        Open::Nothing
    }
}

fn behind_escape(digits: usize, byte: u8) -> Open
    ensures { open_of result ≡ raw.escape_open digits byte }
{
    if is_hex_digit(byte as u16) && digits < MOST_HEX_DIGITS {
        Open::Escape(digits + 1)
    } else if digits == 0 {
        Open::Nothing
    } else if byte == b'\r' {
        Open::Returned
    } else if is_white(byte as u16) {
        Open::Nothing
    } else {
        opened(byte)
    }
}

fn behind_text(quote: u8, byte: u8) -> Open
    ensures { open_of result ≡ raw.behind (raw.String quote) byte }
{
    if byte == quote {
        Open::Nothing
    } else if byte == b'\\' {
        Open::TextEscape(quote)
    } else {
        Open::Text(quote)
    }
}

fn behind(within: Open, byte: u8) -> Open
    ensures { open_of result ≡ raw.behind (open_of within) byte }
{
    match within {
        Open::Nothing | Open::Run => opened(byte),
        Open::Escape(digits) => behind_escape(digits, byte),
        Open::Returned => {
            if byte == b'\n' {
                Open::Nothing
            } else {
                opened(byte)
            }
        }
        Open::Text(quote) => behind_text(quote, byte),
        Open::TextEscape(quote) => Open::Text(quote),
    }
}

fn put_byte(out: &mut Vec<u8>, byte: u8) -> Result<(), Memory>
    ensures { OnOk result (out.new.items ≡ out.old.items ++ byte ∷ []) }
{
    out.push(byte)?;
    Ok(())
}

fn put_spaced(out: &mut Vec<u8>, byte: u8) -> Result<(), Memory>
    ensures { OnOk result (out.new.items ≡ out.old.items ++ raw.spaced byte) }
{
    put_byte(out, if is_white(byte as u16) { b' ' } else { byte })
}

/// Puts a byte as it stands in a line.
fn put_shown(out: &mut Vec<u8>, within: Open, byte: u8) -> Result<(), Memory>
    ensures { OnOk result (out.new.items ≡ out.old.items ++ raw.shown (open_of within) byte) }
{
    match within {
        Open::Nothing => put_spaced(out, byte),
        Open::Run => {
            if is_white(byte as u16) {
                Ok(())
            } else {
                put_byte(out, byte)
            }
        }
        Open::Escape(digits) => {
            if digits == 0 {
                put_byte(out, byte)
            } else {
                put_spaced(out, byte)
            }
        }
        Open::Returned => {
            if byte == b'\n' {
                Ok(())
            } else {
                put_spaced(out, byte)
            }
        }
        Open::Text(_) | Open::TextEscape(_) => put_byte(out, byte),
    }
}

/// Puts a text in a line, and tells what is open behind it.
fn put_in_line(out: &mut Vec<u8>, within: Open, text: &[u8]) -> Result<Open, Memory>
    ensures text { OnOk result (out.new.items ≡ out.old.items ++ raw.in_line (open_of within) text.now) }
    ensures behind { IfOk result (λ behind. open_of behind ≡ raw.open_behind (open_of within) text.now) }
{
    let mut here = within;
    'bytes: for byte in text {
        put_shown(out, here, *byte)?;
        here = behind(here, *byte);
    }
    Ok(here)
}

fn behind_insert(within: Open) -> Open
    ensures { open_of result ≡ raw.behind_insert (open_of within) }
{
    match within {
        Open::Text(quote) | Open::TextEscape(quote) => Open::Text(quote),
        Open::Nothing | Open::Run | Open::Escape(_) | Open::Returned => Open::Nothing,
    }
}

#[tactic(auto, using(sw_convert_written::proofs::Unrolled::said_is, sw_convert_written::proofs::Unrolled::inserted_is, sw_convert_written::proofs::Unrolled::value_is))]
fn is_said(piece: &Piece) -> bool
    ensures { result ≡ is_said (piece_written piece.now) }
{
    match piece {
        Piece::Text(_) => true,
        Piece::Inserted(_) => false,
        Piece::Value(_) => false,
    }
}

/// Puts a piece in a line, and tells what is open behind it.
#[tactic(auto, using(sw_convert_written::proofs::Unrolled::said_is, sw_convert_written::proofs::Unrolled::inserted_is, sw_convert_written::proofs::Unrolled::value_is))]
fn put_piece_in(out: &mut Vec<u8>, within: Open, piece: &Piece) -> Result<Open, Memory>
    ensures text { OnOk result (out.new.items ≡ out.old.items ++ piece_in (open_of within) (piece_written piece.now)) }
    ensures behind { IfOk result (λ behind. open_of behind
        ≡ behind_piece (open_of within) (piece_written piece.now)) }
{
    match piece {
        Piece::Text(text) => put_in_line(out, within, text.as_str().as_bytes()),
        Piece::Inserted(_) => {
            put_piece(out, piece, Manner::Seamed)?;
            Ok(behind_insert(within))
        }
        Piece::Value(_) => {
            put_piece(out, piece, Manner::Seamed)?;
            Ok(behind_insert(within))
        }
    }
}

fn put_seam(out: &mut Vec<u8>, said: bool, rest: &[Piece]) -> Result<(), Memory>
    ensures { OnOk result (out.new.items ≡ out.old.items ++ seam_before said (map piece_written rest.now)) }
{
    match rest {
        [] => Ok(()),
        [next, ..] => {
            if said && is_said(next) {
                return put_apart(out);
            }
            Ok(())
        }
    }
}

/// Puts pieces in a line, where this is open before them.
#[tactic(auto, using(crate::proofs::Pieces::pieces_next))]
fn put_pieces_in(out: &mut Vec<u8>, within: Open, pieces: &[Piece]) -> Result<(), Memory>
    ensures { OnOk result (out.new.items
        ≡ out.old.items ++ pieces_in (open_of within) (map piece_written pieces.now)) }
{
    let mut here = within;
    'pieces: for i in 0..pieces.len() {
        here = put_piece_in(out, here, &pieces[i])?;
        put_seam(out, is_said(&pieces[i]), &pieces[i + 1..])?;
    }
    Ok(())
}

/// Puts raw text in a line.
#[tactic(auto, using(crate::proofs::Pieces::text_alone, sw_convert_written::proofs::Unrolled::plain_is, sw_convert_written::proofs::Unrolled::mixed_is))]
pub fn put_line(out: &mut Vec<u8>, text: &Text) -> Result<(), Memory>
    ensures { OnOk result (out.new.items ≡ out.old.items ++ line_text text.now) }
{
    match &text.parts {
        Parts::Plain(text) => {
            let _behind = put_in_line(out, Open::Nothing, text.as_str().as_bytes())?;
            Ok(())
        }
        Parts::Mixed(pieces) => put_pieces_in(out, Open::Nothing, pieces.as_slice()),
    }
}

/// Puts a space and raw text, where there is any.
pub fn put_spaced_line(out: &mut Vec<u8>, text: &Option<Text>) -> Result<(), Memory>
    ensures { OnOk result (out.new.items ≡ out.old.items ++ spaced_line text.now) }
{
    match text {
        None => Ok(()),
        Some(text) => {
            put_byte(out, b' ')?;
            put_line(out, text)
        }
    }
}

fn put_cut(out: &mut Vec<u8>, pieces: &[Piece], piece: &Piece, rest: &[Piece]) -> Result<(), Memory>
    requires { map piece_written pieces.now ≡ piece_written piece.now ∷ map piece_written rest.now }
    ensures { OnOk result (out.new.items
        ≡ out.old.items ++ cut_behind (piece_written piece.now) (map piece_written rest.now)) }
{
    if has_more(rest) && is_cut(pieces, piece) {
        return put_apart(out);
    }
    put_seam(out, is_said(piece), rest)
}

fn put_selector_pieces(out: &mut Vec<u8>, pieces: &[Piece]) -> Result<(), Memory>
    ensures { OnOk result (out.new.items ≡ out.old.items ++ selector_pieces (map piece_written pieces.now)) }
{
    match pieces {
        [] => Ok(()),
        [piece, rest @ ..] => {
            let behind = put_piece_in(out, Open::Nothing, piece)?;
            put_cut(out, pieces, piece, rest)?;
            put_pieces_in(out, behind, rest)
        }
    }
}

/// Puts the text before the block of a rule in a line.
#[tactic(auto, using(crate::proofs::Pieces::selector_alone, sw_convert_written::proofs::Unrolled::plain_is, sw_convert_written::proofs::Unrolled::mixed_is))]
pub fn put_selector_line(out: &mut Vec<u8>, text: &Text) -> Result<(), Memory>
    ensures { OnOk result (out.new.items ≡ out.old.items ++ selector_line text.now) }
{
    match &text.parts {
        Parts::Plain(text) => {
            let _behind = put_in_line(out, Open::Nothing, text.as_str().as_bytes())?;
            Ok(())
        }
        Parts::Mixed(pieces) => put_selector_pieces(out, pieces.as_slice()),
    }
}
