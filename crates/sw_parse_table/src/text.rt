// The texts and the spans of tokens, by their places.
ghost use Rattle.std.specs.Prelude.{◌≡◌, IfOk, slice_range};
ghost use Rattle.std.specs.Str.{IsCharBoundary};
ghost use Rattle.sw_text.specs.Places.{pos_at};
ghost use Rattle.sw_parse_table.specs.Sources.{bytes, from_at, to_at, decoded_at, bytes_at, span_at, bytes_between, span_between};

use crate::Source;
use std::alloc::Global;
use sw_text::{Memory, Name, Pos, Span};
use sw_tokens::TokenKind;

/// The offset at which the token at a place begins, or the text ends.
#[tactic(auto, unfolding(crate::specs::Sources::from_at))]
pub fn from_at(source: &Source, at: usize) -> u32
    ensures offset { result ≡ from_at source.now at }
    ensures boundary { IsCharBoundary (bytes source.now) result }
{
    match source.lexemes.get(at) {
        None => source.tokens.sheet().end(),
        Some(lexeme) => lexeme.from,
    }
}

/// The offset behind the token at a place, or of the end of the text.
#[tactic(auto, unfolding(crate::specs::Sources::to_at))]
pub fn to_at(source: &Source, at: usize) -> u32
    ensures offset { result ≡ to_at source.now at }
    ensures boundary { IsCharBoundary (bytes source.now) result }
{
    match source.lexemes.get(at) {
        None => source.tokens.sheet().end(),
        Some(lexeme) => lexeme.to,
    }
}

#[tactic(auto, unfolding(crate::specs::Sources::from_at))]
fn start_at(source: &Source, at: usize) -> Pos
    ensures { result ≡ pos_at (bytes source.now) (from_at source.now at) }
{
    match source.lexemes.get(at) {
        None => source.tokens.sheet().pos(source.tokens.sheet().end()),
        Some(lexeme) => lexeme.start,
    }
}

#[tactic(auto, unfolding(crate::specs::Sources::to_at))]
fn end_at(source: &Source, at: usize) -> Pos
    ensures { result ≡ pos_at (bytes source.now) (to_at source.now at) }
{
    match source.lexemes.get(at) {
        None => source.tokens.sheet().pos(source.tokens.sheet().end()),
        Some(lexeme) => lexeme.end,
    }
}

/// The text from one offset to another; empty where the second lies before the first.
pub fn bytes_from<'a>(source: &Source<'a>, from: u32, to: u32) -> &'a str
    requires from { IsCharBoundary (bytes source.now) from }
    requires to { IsCharBoundary (bytes source.now) to }
    ensures { result.now ≡ slice_range (bytes source.now) from to }
{
    if from <= to {
        &source.tokens.sheet().text()[from as usize..to as usize]
    } else {
        ""
    }
}

/// The text of the token at a place.
pub fn bytes_at<'a>(source: &Source<'a>, at: usize) -> &'a str
    ensures { result.now ≡ bytes_at source.now at }
{
    bytes_from(source, from_at(source, at), to_at(source, at))
}

/// The text from the token at a place to the one before another.
pub fn bytes_between<'a>(source: &Source<'a>, at: usize, place: usize) -> &'a str
    ensures { result.now ≡ bytes_between source.now at place }
{
    bytes_from(
        source,
        from_at(source, at),
        to_at(source, place.saturating_sub(1)),
    )
}

/// Where the token at a place stands.
pub fn span_at(source: &Source, at: usize) -> Result<Span, Memory>
    ensures { IfOk result (λ span. span ≡ span_at source.now at) }
{
    Ok(Span {
        file: source.tokens.sheet().path().share()?,
        from: start_at(source, at),
        to: end_at(source, at),
    })
}

/// The span from the token at a place to the one before another.
#[inline(always)]
pub fn span_between(source: &Source, at: usize, place: usize) -> Result<Span, Memory>
    ensures { IfOk result (λ span. span ≡ span_between source.now at place) }
{
    Ok(Span {
        file: source.tokens.sheet().path().share()?,
        from: start_at(source, at),
        to: end_at(source, place.saturating_sub(1)),
    })
}

/// What the string at a place stands for, or the text in one, shared with its token; empty where no string stands
/// there.
#[tactic(auto, unfolding(crate::specs::Sources::decoded_at))]
pub fn decoded_at(alloc: Global, source: &Source, at: usize) -> Result<Name, Memory>
    ensures { IfOk result (λ name. name ≡ decoded_at source.now at) }
{
    let Some(lexeme) = source.lexemes.get(at) else {
        return Name::new(alloc, "");
    };
    let Some(token) = source.tokens.get(lexeme.token) else {
        return Name::new(alloc, "");
    };
    match &token.kind {
        TokenKind::Quoted(text) | TokenKind::Text(text) => text.share(),
        _ => Name::new(alloc, ""),
    }
}
