// The tokens of a sheet by themselves.
ghost use Rattle.std.specs.Prelude.{◌≡◌, ◌+◌, ◌^◌, ◌<◌, ◌≤◌, IfOk, All, length, slice_get};
ghost use Rattle.std.specs.Option.{option_copied};
ghost use Rattle.std.specs.Str.{IsCharBoundary};
ghost use Rattle.sw_text.specs.Places.{pos_at};
ghost use Rattle.sw_tokens.specs.Ends.{opens};
ghost use Rattle.sw_tokens.specs.Order.{StandsIn};
ghost use Rattle.sw_parse_lexemes.specs.Cursors.{Stands};
ghost use Rattle.sw_parse_lexemes.specs.Plains.{PlainLies, end_by, holds_slash, has_slash, plain_of, plains_of};

use crate::cursor::{Cursor, MarkedText, START, marked, pos_of, walk_to};
use crate::plain::Plain;
use crate::sort::sort_of;
use std::alloc::Global;
use sw_text::{Memory, Pos};
use sw_tokens::{Token, TokenKind, Tokens};

/// Where a token's own text ends, and the places of both its ends.
#[derive(Clone, Copy, Debug)]
pub(crate) struct Ends {
    pub to: u32,
    pub start: Pos,
    pub end: Pos,
}

fn opens(kind: &TokenKind) -> bool
    ensures { result ≡ opens kind.now }
{
    match kind {
        TokenKind::Template | TokenKind::UrlTemplate | TokenKind::CommentTemplate => true,
        _ => false,
    }
}

fn end_by(token: &Token, next: Option<&Token>) -> u32
    ensures { result ≡ end_by token.now (option_copied next.entry) }
{
    match next {
        None => token.to,
        Some(next) => {
            if opens(&token.kind) {
                next.from
            } else {
                token.to
            }
        }
    }
}

// Where the own text of the token at a place ends.
#[tactic(auto, using(crate::proofs::Listed::end_plainly))]
fn end_at(tokens: &Tokens, at: usize, token: &Token) -> u32
    requires fits { at + 1 < 2 ^ 64 }
    requires stands { StandsIn tokens.now.sheet.bytes token.now }
    ensures value { result ≡ end_by token.now (slice_get tokens.now.list (at + 1)) }
    ensures boundary { IsCharBoundary tokens.now.sheet.bytes result }
{
    if opens(&token.kind) {
        end_by(token, tokens.get(at + 1))
    } else {
        token.to
    }
}

// Most texts between two tokens are of one byte, so this is a loop of its own.
fn holds_slash(bytes: &[u8]) -> bool
    ensures { result ≡ holds_slash bytes.now }
{
    'bytes: for byte in bytes {
        if *byte == b'/' {
            return true;
        }
    }
    false
}

#[tactic(auto, unfolding(crate::specs::Plains::has_slash))]
fn has_slash(bytes: &[u8], from: usize, to: usize) -> bool
    requires { to ≤ length bytes.now }
    ensures { result ≡ has_slash bytes.now from to }
{
    if from < to {
        holds_slash(&bytes[from..to])
    } else {
        false
    }
}

// Where a token's own text ends, and the places of both its ends, by a walk from where that of the one before ends.
// These texts don't overlap, so each byte of the sheet is walked over once.
fn ends_of(text: &MarkedText, cursor: &mut Cursor, gap: u32, from: u32, to: u32) -> Ends
    requires from { IsCharBoundary text.now.sheet.now.bytes from }
    requires to { IsCharBoundary text.now.sheet.now.bytes to }
    requires near { Stands text.now.bytes.now gap cursor.old }
    ensures to { result.to ≡ to }
    ensures start { result.start ≡ pos_at text.now.sheet.now.bytes from }
    ensures end { result.end ≡ pos_at text.now.sheet.now.bytes to }
    ensures stands { Stands text.now.bytes.now to cursor.new }
{
    walk_to(text, cursor, gap as usize, from as usize);
    let start = pos_of(text, cursor, from);
    walk_to(text, cursor, from as usize, to as usize);
    let end = pos_of(text, cursor, to);
    Ends { to, start, end }
}

// A token whose text has these ends, and that of the one before it ends at an offset.
#[tactic(auto, unfolding(crate::specs::Plains::plain_of))]
fn plain_of(text: &MarkedText, gap: u32, token: &Token, ends: Ends) -> Plain
    requires stands { StandsIn text.now.sheet.now.bytes token.now }
    requires to { IsCharBoundary text.now.sheet.now.bytes ends.to }
    requires start { ends.start ≡ pos_at text.now.sheet.now.bytes token.now.from }
    requires end { ends.end ≡ pos_at text.now.sheet.now.bytes ends.to }
    ensures plain { result ≡ plain_of text.now.sheet.now.bytes gap token.now ends.to }
    ensures lies { PlainLies text.now.sheet.now.bytes result }
{
    let all = text.sheet.text();
    Plain {
        sort: sort_of(&token.kind, &all[token.from as usize..token.to as usize]),
        spaced: token.spaced,
        silent: has_slash(text.bytes, gap as usize, token.from as usize),
        from: token.from,
        to: ends.to,
        start: ends.start,
        end: ends.end,
    }
}

/// The tokens by themselves, in one walk through the text.
#[inline(never)]
pub(crate) fn plains_of(alloc: Global, tokens: &Tokens) -> Result<Vec<Plain>, Memory>
    ensures plains { IfOk result (λ plains. plains.items ≡ plains_of tokens.now.sheet.bytes tokens.now.list) }
    ensures lie { IfOk result (λ plains. All (PlainLies tokens.now.sheet.bytes) plains.items) }
{
    let text = marked(tokens.sheet());
    let mut plains = Vec::with_capacity(alloc, tokens.len())?;
    let mut gap = 0;
    let mut near = START;
    let mut at = 0;
    'tokens: while let Some(token) = tokens.get(at) {
        let to = end_at(tokens, at, token);
        let ends = ends_of(&text, &mut near, gap, token.from, to);
        plains.push(plain_of(&text, gap, token, ends))?;
        gap = to;
        at += 1;
    }
    Ok(plains)
}
