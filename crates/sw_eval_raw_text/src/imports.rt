// What stands behind `@import`, with the values in it.
ghost use Rattle.std.specs.Prelude.{◌≡◌, ◌<◌, ◌++◌, ◌∷◌, [], true, nat_eq, length, IfOk, OnOk, IfSome};
ghost use Rattle.std.specs.List.{ends_with};
ghost use Rattle.sw_text_scan.specs.Pieces.{piece};
ghost use Rattle.sw_eval_raw_text.specs.Imports.{piece_template, templates, template_of, template, is_text, inserted_one, inserted_of, has_scheme, is_remote, is_web, ends_plain, is_plain, all_plain, is_mark, mark_step, next_mark, place_for, part_pieces, filled_in, filled_all};

use std::alloc::Global;
use sw_eval_literals::whole_text;
use sw_text::{List, Memory, Name};
use sw_text_scan::{begins_url, byte_at, is_quote, piece, signs, string_end};
use sw_tokens::decoded;
use sw_tree::{Parts, Piece};

// ---- templates

// A text, or what stands for a value.
fn piece_template(alloc: Global, one: &Piece) -> Result<Name, Memory>
    ensures { IfOk result (λ text. text ≡ piece_template one.now) }
{
    match one {
        Piece::Text(text) => text.share(),
        Piece::Inserted(_) => Name::new(alloc, "#{}"),
        Piece::Value(_) => Name::new(alloc, "#{}"),
    }
}

#[tactic(auto, using(crate::proofs::Imported::template_next, crate::proofs::Imported::templates_end))]
fn templates(alloc: Global, all: &[Piece]) -> Result<List<Name>, Memory>
    ensures { IfOk result (λ texts. texts ≡ templates all.now) }
{
    let mut done = List::new(alloc);
    'all: for one in all {
        let text = piece_template(alloc, one)?;
        done.push(text)?;
    }
    Ok(done)
}

fn template_of(alloc: Global, all: &[Piece]) -> Result<Name, Memory>
    ensures { IfOk result (λ text. text ≡ template_of all.now) }
{
    let texts = templates(alloc, all)?;
    whole_text(alloc, texts.as_slice())
}

/// A text as it was before the values in it were known, with `#{}` for each.
pub fn template(alloc: Global, parts: &Parts) -> Result<Name, Memory>
    ensures { IfOk result (λ text. text ≡ template parts.now) }
{
    match parts {
        Parts::Plain(text) => text.share(),
        Parts::Mixed(all) => template_of(alloc, all.as_slice()),
    }
}

// Whether a piece is no value.
pub(crate) fn is_text(one: &Piece) -> bool
    ensures { result ≡ is_text one.now }
{
    match one {
        Piece::Text(_) => true,
        Piece::Inserted(_) => false,
        Piece::Value(_) => false,
    }
}

// The text of a piece behind others, where it is that of a value.
#[tactic(auto, using(crate::proofs::Imported::none_more, crate::proofs::Imported::one_more))]
fn add_inserted(values: &mut List<Name>, one: &Piece, text: &Name) -> Result<(), Memory>
    ensures { OnOk result (values.new ≡ values.old ++ inserted_one one.now text.now) }
{
    if is_text(one) {
        return Ok(());
    }
    values.push(text.share()?)
}

/// Of the texts of pieces those of values.
#[tactic(auto, using(crate::proofs::Imported::inserted_next, crate::proofs::Imported::inserted_none, crate::proofs::Imported::inserted_end))]
pub fn inserted_of(alloc: Global, all: &[Piece], texts: &[Name]) -> Result<List<Name>, Memory>
    ensures { IfOk result (λ values. values ≡ inserted_of all.now texts.now) }
{
    let mut values = List::new(alloc);
    'all: for place in 0..all.len() {
        if place >= texts.len() {
            return Ok(values);
        }
        add_inserted(&mut values, &all[place], &texts[place])?;
    }
    Ok(values)
}

// ---- which parts are plain CSS

fn has_scheme(url: &str) -> bool
    ensures { result ≡ has_scheme url.now }
{
    url.starts_with("http://") || url.starts_with("https://")
}

// Whether a URL names a host.
fn is_remote(url: &str) -> bool
    ensures { result ≡ is_remote url.now }
{
    has_scheme(url) || url.starts_with("//")
}

fn ends_with(url: &str, ending: &str) -> bool
    ensures { result ≡ ends_with nat_eq url.now ending.now }
{
    url.ends_with(ending)
}

// Whether the text of a string's URL is one of CSS.
fn is_web(url: &str) -> bool
    ensures { result ≡ is_web url.now }
{
    is_remote(url) || ends_with(url, ".css")
}

// Whether a string that ends here has more behind it, or the text that it stands for is such a URL.
fn ends_plain(alloc: Global, part: &str, end: usize) -> Result<bool, Memory>
    ensures { IfOk result (λ plain. plain ≡ ends_plain part.now end) }
{
    if end < part.len() {
        return Ok(true);
    }
    let url = decoded(alloc, piece(part, 1, end.saturating_sub(1)))?;
    Ok(is_web(url.as_str()))
}

/// Whether a part is plain CSS: `url(..)`, a string with such a URL, or one with more behind it.
pub fn is_plain(alloc: Global, part: &str) -> Result<bool, Memory>
    ensures { IfOk result (λ plain. plain ≡ is_plain part.now) }
{
    let bytes = part.as_bytes();
    if bytes.is_empty() {
        return Ok(false);
    }
    if begins_url(bytes, 0) {
        return Ok(true);
    }
    let quote = byte_at(bytes, 0);
    if !is_quote(quote) {
        return Ok(false);
    }
    match string_end(bytes, quote as u8, 0) {
        None => Ok(false),
        Some(end) => ends_plain(alloc, part, end),
    }
}

/// Whether all parts are plain CSS.
pub fn all_plain(alloc: Global, parts: &[Name]) -> Result<bool, Memory>
    ensures { IfOk result (λ plain. plain ≡ all_plain parts.now) }
{
    'parts: for part in parts {
        if !is_plain(alloc, part.as_str())? {
            return Ok(false);
        }
    }
    Ok(true)
}

// ---- values in parts

// Whether a value is to stand at a place.
fn is_mark(bytes: &[u8], at: usize) -> bool
    ensures test { result ≡ is_mark bytes.now at }
    ensures within { result ≡ true → at < length bytes.now }
{
    byte_at(bytes, at) == signs::HASH && byte_at(bytes, at + 1) == signs::OPEN_BRACE
}

// How many bytes stand before the next place that may be one: a `#` behind a `\` is text.
fn mark_step(bytes: &[u8], at: usize) -> usize
    ensures { result ≡ mark_step bytes.now at }
{
    if byte_at(bytes, at) == signs::BACKSLASH {
        2
    } else {
        1
    }
}

// The next place from a place on where a value is to stand.
#[tactic(auto, using(crate::proofs::Imported::mark_past, crate::proofs::Imported::mark_found, crate::proofs::Imported::mark_on))]
fn next_mark(bytes: &[u8], from: usize) -> Option<usize>
    ensures place { result ≡ next_mark bytes.now from }
    ensures within { IfSome result (λ at. at < length bytes.now) }
{
    let mut at = from;
    // each step takes at least one byte
    'steps: for _step in 0..bytes.len() {
        if at >= bytes.len() {
            return None;
        }
        if is_mark(bytes, at) {
            return Some(at);
        }
        at += mark_step(bytes, at);
    }
    None
}

// The place of the next value in a part, where one is left.
fn place_for(bytes: &[u8], values: &[Name], taken: usize, from: usize) -> Option<usize>
    ensures place { result ≡ place_for bytes.now values.now taken from }
    ensures within { IfSome result (λ at. at < length bytes.now) }
    ensures left { IfSome result (λ _. taken < length values.now) }
{
    if taken >= values.len() {
        return None;
    }
    next_mark(bytes, from)
}

// Puts what stands between two places behind pieces.
fn add_piece(
    alloc: Global,
    pieces: &mut List<Name>,
    part: &str,
    from: usize,
    to: usize,
) -> Result<(), Memory>
    ensures { OnOk result (pieces.new ≡ pieces.old ++ piece part.now from to ∷ []) }
{
    let text = Name::new(alloc, piece(part, from, to))?;
    pieces.push(text)
}

// The pieces of a part with values in it, and behind it how many of them were taken.
fn part_pieces(
    alloc: Global,
    part: &str,
    values: &[Name],
    taken: usize,
) -> Result<(List<Name>, usize), Memory>
    ensures pieces { IfOk result (λ r. r.0 ≡ (part_pieces part.now values.now taken).0) }
    ensures taken { IfOk result (λ r. r.1 ≡ (part_pieces part.now values.now taken).1) }
{
    let bytes = part.as_bytes();
    let mut pieces = List::new(alloc);
    let mut from = 0;
    let mut next = taken;
    'marks: for _mark in 0..bytes.len() + 1 {
        match place_for(bytes, values, next, from) {
            None => {
                add_piece(alloc, &mut pieces, part, from, bytes.len())?;
                return Ok((pieces, next));
            }
            Some(mark) => {
                add_piece(alloc, &mut pieces, part, from, mark)?;
                let value = values[next].share()?;
                pieces.push(value)?;
                next += 1;
                from = mark + 3;
            }
        }
    }
    Ok((pieces, next))
}

// A part with these values in it, and behind it how many of them were taken.
fn filled_in(
    alloc: Global,
    part: &str,
    values: &[Name],
    taken: usize,
) -> Result<(Name, usize), Memory>
    ensures text { IfOk result (λ r. r.0 ≡ (filled_in part.now values.now taken).0) }
    ensures taken { IfOk result (λ r. r.1 ≡ (filled_in part.now values.now taken).1) }
{
    let (pieces, next) = part_pieces(alloc, part, values, taken)?;
    let text = whole_text(alloc, pieces.as_slice())?;
    Ok((text, next))
}

/// The parts with the values in them.
#[tactic(auto, using(crate::proofs::Imported::filled_next, crate::proofs::Imported::filled_end))]
pub fn filled_all(alloc: Global, parts: &[Name], values: &[Name]) -> Result<List<Name>, Memory>
    ensures { IfOk result (λ texts. texts ≡ filled_all parts.now values.now) }
{
    let mut done = List::new(alloc);
    let mut taken = 0;
    'parts: for part in parts {
        let (text, next) = filled_in(alloc, part.as_str(), values, taken)?;
        done.push(text)?;
        taken = next;
    }
    Ok(done)
}
