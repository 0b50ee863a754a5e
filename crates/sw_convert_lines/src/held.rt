// Whether lines can hold a text.
ghost use Rattle.std.specs.Prelude.{◌≡◌, IfOk, map};
ghost use Rattle.std.specs.List.{list_any};
ghost use Rattle.sw_text_scan.specs.Bytes.{is_break};
ghost use Rattle.sw_tokens.specs.Order.{StandsIn};
ghost use Rattle.sw_convert_written.specs.Expressions.{piece_written};
ghost use Rattle.sw_convert_lines.specs.Held.{is_line_sign, is_string, is_backslash, is_comma, token_text, is_refused, inserts_behind, unlooked, look_with, look_over, is_held, breaks_piece, breaks_pieces, begins_member};
ghost use Rattle.sw_convert_lines.specs.Lines.{breaks_value};

use std::alloc::Global;
use std::str;
use sw_text::{Memory, Name, Shared, SheetText};
use sw_text_scan::is_break;
use sw_tokens::{Fault10, Token, TokenKind, Tokens};
use sw_tree::{Parts, Piece, Text};

/// What the tokens so far tell.
#[derive(Clone, Copy)]
pub struct Look {
    /// How many `#{` are open.
    pub inserts: usize,
    /// One outside `#{}` is refused.
    pub refused: bool,
    /// The last one is a comma.
    pub comma: bool,
    /// The last one is a `\` before the end of a line.
    pub cut: bool,
}

// The signs for which lines stand.
fn is_line_sign(custom: bool, kind: &TokenKind) -> bool
    ensures { result ≡ is_line_sign custom kind.now }
{
    match kind {
        TokenKind::Semicolon => true,
        TokenKind::OpenBrace | TokenKind::CloseBrace => custom,
        _ => false,
    }
}

fn is_string(kind: &TokenKind) -> bool
    ensures { result ≡ is_string kind.now }
{
    match kind {
        TokenKind::Quoted(_) | TokenKind::Text(_) => true,
        _ => false,
    }
}

fn is_backslash(text: &[u8]) -> bool
    ensures { result ≡ is_backslash text.now }
{
    match text {
        [byte] => *byte == b'\\',
        _ => false,
    }
}

fn is_comma(kind: &TokenKind) -> bool
    ensures { result ≡ is_comma kind.now }
{
    match kind {
        TokenKind::Comma => true,
        _ => false,
    }
}

fn breaks(bytes: &[u8]) -> bool
    ensures { result ≡ list_any is_break bytes.now }
{
    'bytes: for byte in bytes {
        if is_break(*byte as u16) {
            return true;
        }
    }
    false
}

fn token_text<'a>(text: &'a str, token: &Token) -> &'a [u8]
    requires { StandsIn text.now token.now }
    ensures { result.now ≡ token_text text.now token.now }
{
    text[token.from as usize..token.to as usize].as_bytes()
}

fn is_refused(custom: bool, text: &str, token: &Token) -> bool
    requires { StandsIn text.now token.now }
    ensures { result ≡ is_refused custom text.now token.now }
{
    if is_line_sign(custom, &token.kind) {
        return true;
    }
    is_string(&token.kind) && breaks(token_text(text, token))
}

// No memory holds a text in which so many `#{` are open.
fn inserts_behind(inserts: usize, kind: &TokenKind) -> Result<usize, Memory>
    ensures { IfOk result (λ behind. behind ≡ inserts_behind inserts kind.now) }
{
    match kind {
        TokenKind::OpenInterpolation => match inserts.checked_add(1) {
            Some(more) => Ok(more),
            None => Err(Memory),
        },
        TokenKind::CloseInterpolation => Ok(inserts.saturating_sub(1)),
        _ => Ok(inserts),
    }
}

fn look_with(custom: bool, text: &str, look: Look, token: &Token) -> Result<Look, Memory>
    requires { StandsIn text.now token.now }
    ensures { IfOk result (λ behind. behind ≡ look_with custom text.now look token.now) }
{
    Ok(Look {
        inserts: inserts_behind(look.inserts, &token.kind)?,
        refused: look.refused || look.cut || (look.inserts == 0 && is_refused(custom, text, token)),
        comma: is_comma(&token.kind),
        cut: look.inserts == 0 && is_backslash(token_text(text, token)),
    })
}

#[tactic(auto, using(crate::proofs::Looks::look_next, crate::proofs::Looks::look_end))]
fn look_over(custom: bool, text: &str, tokens: &Tokens) -> Result<Look, Memory>
    requires { tokens.now.sheet.bytes ≡ text.now }
    ensures { IfOk result (λ look. look ≡ look_over custom text.now unlooked tokens.now.list) }
{
    let mut look = Look {
        inserts: 0,
        refused: false,
        comma: false,
        cut: false,
    };
    'tokens: for at in 0..tokens.len() {
        let Some(token) = tokens.get(at) else {
            unreachable!()
        };
        look = look_with(custom, text, look, token)?;
    }
    Ok(look)
}

/// Whether lines can hold a text up to the end of a statement or to its block; of a custom property or of another one.
#[tactic(auto, unfolding(crate::specs::Held::is_held))]
pub fn is_held(alloc: Global, custom: bool, bytes: &[u8]) -> Result<bool, Memory>
    ensures { IfOk result (λ held. held ≡ is_held custom bytes.now) }
{
    // What is written is text, and no sheet is longer than memory.
    let Ok(text) = str::from_utf8(bytes) else {
        return Err(Memory);
    };
    if text.len() >= u32::MAX as usize {
        return Err(Memory);
    }
    let sheet = SheetText::new(alloc, Name::new(alloc, "")?, Name::new(alloc, text)?)?;
    let sheet = Shared::new(alloc, sheet)?;
    match Tokens::of(alloc, &sheet) {
        Ok(tokens) => {
            let look = look_over(custom, text, &tokens)?;
            Ok(!look.refused && !look.comma)
        }
        Err(Fault10::Fault(_)) => Ok(false),
        Err(Fault10::Memory) => Err(Memory),
    }
}

#[tactic(auto, using(sw_convert_written::proofs::Unrolled::said_is, sw_convert_written::proofs::Unrolled::inserted_is, sw_convert_written::proofs::Unrolled::value_is))]
fn breaks_piece(piece: &Piece) -> bool
    ensures { result ≡ breaks_piece (piece_written piece.now) }
{
    match piece {
        Piece::Text(text) => breaks(text.as_str().as_bytes()),
        Piece::Inserted(_) => false,
        Piece::Value(_) => false,
    }
}

fn breaks_pieces(pieces: &[Piece]) -> bool
    ensures { result ≡ breaks_pieces (map piece_written pieces.now) }
{
    'pieces: for piece in pieces {
        if breaks_piece(piece) {
            return true;
        }
    }
    false
}

/// Whether the text of a custom property goes over a line.
#[tactic(auto, using(sw_convert_written::proofs::Unrolled::plain_is, sw_convert_written::proofs::Unrolled::mixed_is))]
pub fn breaks_value(value: &Option<Text>) -> bool
    ensures { result ≡ breaks_value value.now }
{
    match value {
        None => false,
        Some(text) => match &text.parts {
            Parts::Plain(text) => breaks(text.as_str().as_bytes()),
            Parts::Mixed(pieces) => breaks_pieces(pieces.as_slice()),
        },
    }
}

/// Whether a line that begins so is that of a mixin or of an include.
pub fn begins_member(text: &[u8]) -> bool
    ensures { result ≡ begins_member text.now }
{
    match text {
        [] => false,
        [byte, ..] => *byte == b'+' || *byte == b'=',
    }
}
