// Texts without the comments in them.
ghost use Rattle.std.specs.Prelude.{◌≡◌, ◌-◌, ◌<◌, ℕ, false, [], ◌∷◌, ◌++◌, IfOk, OnOk, string_bytes, if◌then◌else◌};
ghost use Rattle.std.specs.Str.{IsCharBoundary};
ghost use Rattle.sw_parse_table.specs.Sources.{bytes, bytes_from, blank, is_silent, is_commented, token_at, token_from, token_to, first_between, gap_at, Texts, texts_list, begun, cut, before_gap, behind_gap, texts_from, texts, stretch_between, up_to, behind, IsCut};

use crate::Source;
use crate::text::{bytes_from, from_at, to_at};
use std::alloc::Global;
use sw_text::{List, Memory, Name};
use sw_text_scan::{is_break, is_white};

/// A part of a sheet's text, and the tokens in it behind which comments may stand.
#[derive(Clone, Copy, Debug)]
pub struct Stretch {
    /// The offset of its first byte.
    pub from: u32,
    /// The offset behind its last byte.
    pub to: u32,
    /// The place of the first of these tokens.
    pub first: usize,
    /// The place behind the last of these tokens.
    pub end: usize,
}

fn is_silent(silent: bool, byte: u8) -> bool
    ensures { result ≡ is_silent silent byte }
{
    if silent {
        !is_break(byte as u16)
    } else {
        !is_white(byte as u16)
    }
}

/// From the token at a place to the one before another.
#[inline(always)]
pub fn stretch_between(source: &Source, at: usize, place: usize) -> Stretch
    ensures stretch { result ≡ stretch_between source.now at place }
    ensures cut { IsCut source.now result }
{
    let end = place.saturating_sub(1);
    Stretch {
        from: from_at(source, at),
        to: to_at(source, end),
        first: at,
        end,
    }
}

/// A stretch up to the token at a place.
pub fn up_to(source: &Source, stretch: Stretch, at: usize) -> Stretch
    requires { IsCut source.now stretch }
    ensures stretch { result ≡ up_to source.now stretch at }
    ensures cut { IsCut source.now result }
{
    Stretch {
        from: stretch.from,
        to: from_at(source, at),
        first: stretch.first,
        end: at,
    }
}

/// A stretch behind the token before a place.
pub fn behind(source: &Source, stretch: Stretch, place: usize) -> Stretch
    requires { IsCut source.now stretch }
    ensures stretch { result ≡ behind source.now stretch place }
    ensures cut { IsCut source.now result }
{
    let first = place.saturating_sub(1);
    Stretch {
        from: to_at(source, first),
        to: stretch.to,
        first,
        end: stretch.end,
    }
}

/// Adds a byte, but where it stands in a comment.
#[tactic(auto, using(std::proofs::lemmas::Str::encode_ascii))]
fn add_byte(text: &mut String, silent: bool, byte: u8) -> Result<(), Memory>
    requires { silent ≡ false → byte < 128 }
    ensures { OnOk result (string_bytes text.new ≡ string_bytes text.old ++ (if silent then [] else byte ∷ [])) }
{
    if silent {
        return Ok(());
    }
    text.push(byte as char)?;
    Ok(())
}

/// Adds the white space of a text that has comments to the end of their line in it.
fn add_blank(text: &mut String, gap: &[u8]) -> Result<(), Memory>
    ensures { OnOk result (string_bytes text.new ≡ string_bytes text.old ++ blank false gap.now) }
{
    let mut silent = false;
    'bytes: for byte in gap {
        silent = is_silent(silent, *byte);
        add_byte(text, silent, *byte)?;
    }
    Ok(())
}

/// Whether a comment stands between the token at a place and the one before.
#[tactic(auto, unfolding(crate::specs::Sources::is_commented))]
#[inline(always)]
fn is_commented(source: &Source, at: usize) -> bool
    ensures { result ≡ is_commented source.now at }
{
    match source.lexemes.get(at) {
        None => false,
        Some(lexeme) => lexeme.commented,
    }
}

/// Where the token at a place stands in the list of tokens.
#[tactic(auto, unfolding(crate::specs::Sources::token_at))]
fn token_at(source: &Source, at: usize) -> usize
    ensures { result ≡ token_at source.now at }
{
    match source.lexemes.get(at) {
        None => source.tokens.len(),
        Some(lexeme) => lexeme.token,
    }
}

/// Where a token of the list begins.
fn token_from(source: &Source, at: usize) -> u32
    ensures offset { result ≡ token_from source.now at }
    ensures boundary { IsCharBoundary (bytes source.now) result }
{
    match source.tokens.get(at) {
        None => source.tokens.sheet().end(),
        Some(token) => token.from,
    }
}

/// Where a token of the list ends.
fn token_to(source: &Source, at: usize) -> u32
    ensures offset { result ≡ token_to source.now at }
    ensures boundary { IsCharBoundary (bytes source.now) result }
{
    match source.tokens.get(at) {
        None => source.tokens.sheet().end(),
        Some(token) => token.to,
    }
}

fn first_between(source: &Source, at: usize) -> usize
    ensures { result ≡ first_between source.now at }
{
    let before = token_at(source, at.saturating_sub(1));
    let end = token_at(source, at);
    if before < end { before + 1 } else { end }
}

/// Adds the white space between the token at a place and the one before.
#[tactic(auto, unfolding(crate::specs::Sources::gap_at))]
fn add_gap(text: &mut String, source: &Source, at: usize) -> Result<(), Memory>
    ensures { OnOk result (string_bytes text.new ≡ string_bytes text.old ++ gap_at source.now at) }
{
    let to = from_at(source, at);
    let mut from = to_at(source, at.saturating_sub(1));
    let first = first_between(source, at);
    let end = token_at(source, at);
    'comments: for place in first..end {
        let gap = bytes_from(source, from, token_from(source, place));
        add_blank(text, gap.as_bytes())?;
        from = from.max(token_to(source, place));
    }
    add_blank(text, bytes_from(source, from, to).as_bytes())
}

/// Whether comments stand behind the tokens of a stretch. Where none does, it is one text.
#[tactic(auto, unfolding(crate::specs::Sources::texts))]
#[inline(always)]
pub fn has_comments(source: &Source, stretch: &Stretch) -> bool
    ensures { result ≡ false → texts source.now stretch.now ≡ record {
      first = bytes_from source.now stretch.now.from
          stretch.now.to;
      rest = [];
    } }
{
    has_comments_from(source, stretch.first, stretch.end)
}

/// The same of the tokens from a place to before another.
#[inline(always)]
fn has_comments_from(source: &Source, first: usize, end: usize) -> bool
    ensures { (to from : ℕ) → result ≡ false → texts_from source.now to from first (end - first) ≡ record {
      first =
          bytes_from source.now from to;
      rest = [];
    } }
{
    'places: for at in first..end {
        if is_commented(source, at + 1) {
            return true;
        }
    }
    false
}

/// Ends a text, and begins the next one.
fn end_text(alloc: Global, list: &mut List<Name>, text: &mut String) -> Result<(), Memory>
    ensures list { OnOk result (list.new ≡ list.old ++ string_bytes text.old ∷ []) }
    ensures text { OnOk result (string_bytes text.new ≡ []) }
{
    list.push(Name::new(alloc, text.as_str())?)?;
    text.clear();
    Ok(())
}

/// Adds the white space between the token at a place and the one before. Where there is none, it ends the text.
fn add_seam(
    alloc: Global,
    list: &mut List<Name>,
    text: &mut String,
    source: &Source,
    at: usize,
) -> Result<(), Memory>
    ensures { OnOk result ((behind : Texts) → list.new ++ texts_list (begun (string_bytes text.new) behind) ≡ list.old ++
        texts_list (cut (string_bytes text.old) (gap_at source.now at) behind)) }
{
    let length = text.len();
    add_gap(text, source, at)?;
    if text.len() == length {
        return end_text(alloc, list, text);
    }
    Ok(())
}

/// Adds what stands from an offset on before a token, where a comment stands before it, and tells from where on more
/// follows.
fn add_before(
    alloc: Global,
    list: &mut List<Name>,
    text: &mut String,
    source: &Source,
    from: u32,
    at: usize,
) -> Result<u32, Memory>
    requires { IsCharBoundary (bytes source.now) from }
    ensures next { IfOk result (λ next. next ≡ behind_gap source.now from at) }
    ensures boundary { IfOk result (λ next. IsCharBoundary (bytes source.now) next) }
    ensures texts { OnOk result ((behind : Texts) → list.new ++ texts_list (begun (string_bytes text.new) behind) ≡
        list.old ++ texts_list (begun (string_bytes text.old) (before_gap source.now from at behind))) }
{
    if !is_commented(source, at) {
        return Ok(from);
    }
    text.push_str(bytes_from(source, from, to_at(source, at.saturating_sub(1))))?;
    add_seam(alloc, list, text, source, at)?;
    Ok(from_at(source, at))
}

/// The text of a stretch without the comments in it: two texts where one stands with no white space beside it.
#[tactic(auto, unfolding(crate::specs::Sources::texts))]
#[inline(never)]
pub fn texts(alloc: Global, source: &Source, stretch: &Stretch) -> Result<List<Name>, Memory>
    requires { IsCut source.now stretch.now }
    ensures { IfOk result (λ list. list ≡ texts_list (texts source.now stretch.now)) }
{
    let Stretch {
        mut from,
        to,
        first,
        end,
    } = *stretch;
    let mut list = List::new(alloc);
    let mut text = String::new(alloc);
    'places: for at in first..end {
        from = add_before(alloc, &mut list, &mut text, source, from, at + 1)?;
    }
    text.push_str(bytes_from(source, from, to))?;
    end_text(alloc, &mut list, &mut text)?;
    Ok(list)
}
