// Texts of plain CSS, as they are read but for the comments in them.
ghost use Rattle.std.specs.Prelude.{◌≡◌, ◌++◌, ◌-◌, ℕ, false, Some, IfOk, OnOk, string_bytes, slice_range};
ghost use Rattle.std.specs.Option.{option_copied};
ghost use Rattle.std.specs.Str.{IsCharBoundary};
ghost use Rattle.sw_tokens.specs.Order.{StandsIn};
ghost use Rattle.sw_tokens.specs.declared.token.Token.{Token};
ghost use Rattle.sw_parse_css.specs.Seen.{seen, bytes, is_comment, comment_at, before_comment, behind_comment, said_from, said, text_between};

use crate::seen::{from_at, span_between, to_at, token_at};
use std::alloc::Global;
use sw_parse_table::{Source, bytes_from};
use sw_text::{Memory, Name};
use sw_tokens::{Token, TokenKind};
use sw_tree::{Parts, Text};

fn is_comment(kind: &TokenKind) -> bool
    ensures { result ≡ is_comment kind.now }
{
    match kind {
        TokenKind::Comment => true,
        _ => false,
    }
}

/// The token at a place in the list, where it is a comment.
#[tactic(auto, unfolding(crate::specs::Seen::comment_at))]
fn comment_at<'a>(source: &Source<'a>, at: usize) -> Option<&'a Token>
    ensures comment { option_copied result ≡ comment_at (seen source.now) at }
    ensures stands { (token : Token) → comment_at (seen source.now) at ≡ Some token → StandsIn
        (bytes (seen source.now)) token }
{
    match source.tokens.get(at) {
        None => None,
        Some(token) => {
            if is_comment(&token.kind) {
                Some(token)
            } else {
                None
            }
        }
    }
}

/// Adds what stands from an offset on before a token, where it is a comment, and tells from where on more follows.
fn add_before(text: &mut String, source: &Source, from: u32, at: usize) -> Result<u32, Memory>
    requires { IsCharBoundary (bytes (seen source.now)) from }
    ensures next { IfOk result (λ next. next ≡ behind_comment (seen source.now) from (comment_at (seen source.now)
        at)) }
    ensures boundary { IfOk result (λ next. IsCharBoundary (bytes (seen source.now)) next) }
    ensures text { OnOk result (string_bytes text.new ≡ string_bytes text.old ++ before_comment (seen source.now) from
        (comment_at (seen source.now) at)) }
{
    match comment_at(source, at) {
        None => Ok(from),
        Some(comment) => {
            text.push_str(bytes_from(source, from, comment.from))?;
            Ok(comment.to)
        }
    }
}

/// Whether comments stand among the tokens behind one, up to another.
fn has_comments(source: &Source, first: usize, last: usize) -> bool
    ensures { (to from : ℕ) → result ≡ false → said_from (seen source.now) to from first (last - first) ≡ slice_range
        (bytes (seen source.now)) from to }
{
    'places: for at in first..last {
        if comment_at(source, at + 1).is_some() {
            return true;
        }
    }
    false
}

/// Adds the text from an offset to another, without the comments among the tokens behind one, up to another.
fn add_said(
    text: &mut String,
    source: &Source,
    offsets: (u32, u32),
    first: usize,
    last: usize,
) -> Result<(), Memory>
    requires from { IsCharBoundary (bytes (seen source.now)) offsets.0 }
    requires to { IsCharBoundary (bytes (seen source.now)) offsets.1 }
    ensures { OnOk result (string_bytes text.new ≡ string_bytes text.old ++ said_from (seen source.now) offsets.1
        offsets.0 first (last - first)) }
{
    let (mut from, to) = offsets;
    'places: for at in first..last {
        from = add_before(text, source, from, at + 1)?;
    }
    text.push_str(bytes_from(source, from, to))?;
    Ok(())
}

/// The text from the token at a place to the one before another, without the comments in it.
#[tactic(auto, unfolding(crate::specs::Seen::said))]
fn said(alloc: Global, source: &Source, at: usize, place: usize) -> Result<Name, Memory>
    ensures { IfOk result (λ name. name ≡ said (seen source.now) at place) }
{
    let end = place.saturating_sub(1);
    let offsets = (from_at(source, at), to_at(source, end));
    let first = token_at(source, at);
    let last = token_at(source, end);
    if !has_comments(source, first, last) {
        return Name::new(alloc, bytes_from(source, offsets.0, offsets.1));
    }
    let mut text = String::new(alloc);
    add_said(&mut text, source, offsets, first, last)?;
    Name::new(alloc, text.as_str())
}

/// The text and its span from the token at a place to the one before another, without the comments in it.
pub(crate) fn text_between(
    alloc: Global,
    source: &Source,
    at: usize,
    place: usize,
) -> Result<Text, Memory>
    ensures { IfOk result (λ text. text ≡ text_between (seen source.now) at place) }
{
    let span = span_between(source, at, place)?;
    Ok(Text {
        parts: Parts::Plain(said(alloc, source, at, place)?),
        span,
    })
}
