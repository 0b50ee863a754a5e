// Loud comments that are statements, line by line.
ghost use Rattle.std.specs.Prelude.{◌≡◌, ◌<◌, ◌≤◌, ◌^◌, ◌+◌, None, length, IfOk, Ok};
ghost use Rattle.std.specs.Str.{IsCharBoundary};
ghost use Rattle.sw_tokens.specs.Skips.{IsPlain};
ghost use Rattle.sw_tokens.specs.Tokens.{top};
ghost use Rattle.sw_tokens.specs.declared.token.Syntax.TheVariants as syntaxes;
ghost use Rattle.sw_parse_layout.specs.Comments.{comment_line, comment_signs, comment_begun, next_line, comment_closed, comment_over, trimmed, text_token, text_found, text_end, comment_step};
ghost use Rattle.sw_parse_layout.specs.Steps.{Stepped};

use crate::blocks::{Begun, line_begun};
use crate::laid::{Laid, joined, nothing, one, told_token};
use crate::lines::{Margin, Reach, comment_end, ends_line, is_blank};
use crate::pieces::piece_step;
use crate::sorts::Sort;
use crate::state::{Extent, Found, Line, Mode, State, StepEnd};
use std::alloc::Global;
use sw_text::{List, Memory};
use sw_text_scan::{Class, byte_at, ends_loud, is_break, opens_at, run_end, white_end};
use sw_tokens::{Before, Token, TokenKind};

fn comment_line(alloc: Global, line: Line, before: Before, end: u32) -> Line
    ensures { result ≡ comment_line line before end }
{
    Line {
        opened: line.opened,
        before,
        brackets: List::new(alloc),
        sort: Sort::Other,
        end,
        comments: List::new(alloc),
    }
}

/// The tokens that begin a loud comment.
fn comment_signs(alloc: Global, at: u32) -> Result<List<Token>, Memory>
    requires { at + 2 < 2 ^ 32 }
    ensures { IfOk result (λ tokens. tokens ≡ comment_signs at) }
{
    let mut tokens = List::new(alloc);
    tokens.push(Token {
        kind: TokenKind::CommentTemplate,
        from: at,
        to: at + 2,
        spaced: true,
    })?;
    tokens.push(told_token(TokenKind::CommentLine, at + 2, at + 2))?;
    Ok(tokens)
}

pub(crate) fn comment_begun(
    alloc: Global,
    bytes: &[u8],
    s: State,
    at: usize,
) -> Result<Found, Memory>
    requires short { length bytes.now < 2 ^ 32 }
    requires order { s.at ≤ at }
    requires within { at + 2 ≤ length bytes.now }
    ensures { IfOk result (λ found. found ≡ comment_begun bytes.now s at) }
{
    let State {
        at: start,
        line,
        blocks,
        ..
    } = s;
    let depth = at - start;
    let stop = comment_end(bytes, Reach::Lines(depth), at);
    let begun = line_begun(
        alloc,
        bytes,
        blocks,
        line.end,
        Margin { start, text: at },
        false,
    )?;
    let signs = comment_signs(alloc, at as u32)?;
    let Begun {
        laid,
        blocks: open_ones,
    } = begun;
    let refused = laid.refused;
    Ok(Found {
        laid: Laid {
            tokens: joined(laid.tokens, signs)?,
            refused,
        },
        state: State {
            at: run_end(bytes, Class::Blank, at + 2),
            mode: Mode::Comment(Extent { depth, stop }),
            line: comment_line(alloc, line, Before::Other, at as u32 + 2),
            blocks: open_ones,
        },
    })
}

fn next_line(alloc: Global, s: State, start: u32, at: usize) -> Result<Found, Memory>
    ensures { IfOk result (λ found. found ≡ next_line s start at) }
{
    let laid = one(alloc, told_token(TokenKind::CommentLine, start, start))?;
    Ok(Found {
        laid,
        state: State {
            at,
            mode: s.mode,
            line: comment_line(alloc, s.line, Before::Other, start),
            blocks: s.blocks,
        },
    })
}

fn comment_closed(alloc: Global, s: State, extent: Extent) -> Result<Found, Memory>
    requires { s.at + 2 < 2 ^ 32 }
    ensures { IfOk result (λ found. found ≡ comment_closed s extent) }
{
    let from = s.at as u32;
    let laid = one(alloc, told_token(TokenKind::CommentEnd, from, from + 2))?;
    Ok(Found {
        laid,
        state: State {
            at: s.at + 2,
            mode: Mode::Behind(extent),
            line: comment_line(alloc, s.line, Before::White, from + 2),
            blocks: s.blocks,
        },
    })
}

fn comment_over(alloc: Global, s: State) -> Result<Found, Memory>
    requires { s.at < 2 ^ 32 }
    ensures { IfOk result (λ found. found ≡ comment_over s) }
{
    let end = s.line.end;
    let laid = one(alloc, told_token(TokenKind::CommentEnd, end, end))?;
    Ok(Found {
        laid,
        state: State {
            at: s.at + 1,
            mode: Mode::Between,
            line: comment_line(alloc, s.line, Before::White, end),
            blocks: s.blocks,
        },
    })
}

/// The end of a text without the blanks at its end.
#[tactic(auto, using(crate::proofs::Shutting::trim_step, crate::proofs::Shutting::trim_stop), unfolding(crate::specs::Comments::trimmed))]
fn trimmed(bytes: &[u8], from: usize, to: usize) -> usize
    requires { to ≤ length bytes.now }
    ensures end { result ≡ trimmed bytes.now from to }
    ensures within { result ≤ to }
{
    let mut end = to;
    'blanks: while end > from {
        if !is_blank(byte_at(bytes, end - 1)) {
            return end;
        }
        end -= 1;
    }
    end
}

fn text_token(alloc: Global, from: u32, to: u32) -> Result<Laid, Memory>
    ensures { IfOk result (λ laid. laid ≡ record { tokens = text_token from to; refused = None }) }
{
    if from < to {
        return one(alloc, told_token(TokenKind::Piece, from, to));
    }
    Ok(nothing(alloc))
}

fn text_found(alloc: Global, s: State, end: u32, to: usize) -> Result<Found, Memory>
    requires { s.at < 2 ^ 32 }
    ensures { IfOk result (λ found. found ≡ text_found s end to) }
{
    let from = s.at as u32;
    let laid = text_token(alloc, from, end)?;
    let last = if from < end { end } else { s.line.end };
    Ok(Found {
        laid,
        state: State {
            at: to,
            mode: s.mode,
            line: comment_line(alloc, s.line, Before::Other, last),
            blocks: s.blocks,
        },
    })
}

fn text_end(bytes: &[u8], from: usize, to: usize) -> usize
    requires { to ≤ length bytes.now }
    ensures end { result ≡ text_end bytes.now from to }
    ensures within { result ≤ to }
{
    if ends_line(byte_at(bytes, to)) {
        return trimmed(bytes, from, to);
    }
    to
}

#[tactic(auto, unfolding(crate::specs::Comments::comment_step))]
pub(crate) fn comment_step(
    alloc: Global,
    text: &str,
    s: State,
    extent: Extent,
) -> Result<Found, StepEnd>
    requires short { length text.now < 2 ^ 32 }
    requires within { s.at < length text.now }
    requires cut { IsCharBoundary text.now s.at }
    requires plain { IsPlain (top syntaxes.Scss s.line.opened) }
    ensures { Stepped result (comment_step text.now s extent) }
{
    let bytes = text.as_bytes();
    let at = s.at;
    if ends_loud(bytes, at) {
        return Ok(comment_closed(alloc, s, extent)?);
    }
    if opens_at(bytes, at) {
        return piece_step(alloc, text, s);
    }
    if !is_break(byte_at(bytes, at)) {
        let to = run_end(bytes, Class::CommentLine, at);
        let end = text_end(bytes, at, to);
        return Ok(text_found(alloc, s, end as u32, to)?);
    }
    if at < extent.stop {
        let start = white_end(bytes, at);
        let to = run_end(bytes, Class::Blank, start);
        return Ok(next_line(alloc, s, start as u32, to)?);
    }
    Ok(comment_over(alloc, s)?)
}
