// What begins at a place of a text of plain CSS.
ghost use Rattle.std.specs.Prelude.{◌≡◌, ◌+◌, ◌<◌, ◌≤◌, length, IfOk};
ghost use Rattle.std.specs.Str.{IsCharBoundary};
ghost use Rattle.sw_text_scan.specs.Bytes.{byte};
ghost use Rattle.sw_text_scan.specs.Runs.{run_end};
ghost use Rattle.sw_tokens.specs.Pieces.{css_quote, css_loud, css_piece};

use crate::escapes::decoded;
use crate::pieces::{Before, Change, Piece, made, made_white, word_piece};
use crate::skips::Inside;
use crate::token::TokenKind;
use std::alloc::Global;
use sw_text::Memory;
use sw_text_scan::signs::FIRST_WIDE;
use sw_text_scan::{
    Class, begins_loud, begins_silent, byte_at, ends_loud, is_quote, is_white, opens_at, run_end,
};

/// Where what a string of plain CSS holds from a place on ends: at its quote, a line break or the end of the text.
fn css_text_end(text: &str, quote: u8, from: usize) -> usize
    requires within { from ≤ length text.now }
    requires quote { quote < FIRST_WIDE }
    ensures end { result ≡ run_end (Class.Text quote) text.now from }
    ensures forward { from ≤ result }
    ensures within { result ≤ length text.now }
    ensures cut { IsCharBoundary text.now result }
{
    run_end(text.as_bytes(), Class::Text(quote), from)
}

#[tactic(auto, unfolding(crate::specs::Pieces::css_quote))]
fn css_quote(alloc: Global, text: &str, quote: u8, at: usize) -> Result<Option<Piece>, Memory>
    requires within { at < length text.now }
    requires quote { quote < FIRST_WIDE }
    requires stands { byte text.now at ≡ quote }
    ensures { IfOk result (λ piece. piece ≡ css_quote text.now quote at) }
{
    let end = css_text_end(text, quote, at + 1);
    if byte_at(text.as_bytes(), end) == quote as u16 {
        let told = decoded(alloc, &text[at + 1..end])?;
        return Ok(made(TokenKind::Quoted(told), end + 1, Change::Keep));
    }
    Ok(None)
}

#[tactic(auto, unfolding(crate::specs::Pieces::css_loud))]
fn css_loud(bytes: &[u8], at: usize) -> Option<Piece>
    requires { at + 2 ≤ length bytes.now }
    ensures { result ≡ css_loud bytes.now at }
{
    let end = run_end(bytes, Class::CssComment, at + 2);
    if ends_loud(bytes, end) {
        return made(TokenKind::Comment, end + 2, Change::Keep);
    }
    None
}

#[tactic(auto, unfolding(crate::specs::Pieces::css_piece))]
pub(crate) fn css_piece(
    alloc: Global,
    text: &str,
    before: Before,
    at: usize,
) -> Result<Option<Piece>, Memory>
    requires { at < length text.now }
    ensures { IfOk result (λ piece. piece ≡ css_piece text.now before at) }
{
    let bytes = text.as_bytes();
    let byte = byte_at(bytes, at);
    if is_white(byte) {
        return Ok(made_white(run_end(bytes, Class::White, at)));
    }
    if is_quote(byte) {
        return css_quote(alloc, text, byte as u8, at);
    }
    if opens_at(bytes, at) {
        return Ok(made(TokenKind::OpenInterpolation, at + 2, Change::Keep));
    }
    if begins_silent(bytes, at) {
        return Ok(made(TokenKind::DoubleSlash, at + 2, Change::Keep));
    }
    if begins_loud(bytes, at) {
        return Ok(css_loud(bytes, at));
    }
    Ok(word_piece(bytes, Inside::Css, before, at))
}
