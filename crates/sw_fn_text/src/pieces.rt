// The pieces of a string around a separator.
ghost use Rattle.std.specs.Prelude.{◌≡◌, ◌++◌, ◌∷◌, [], map, chars, encode_utf8, encode_utf8_all, IfOk, IfSome, OnOk, MatchOption, Some, None};
ghost use Rattle.std.specs.Str.{IsUtf8};
ghost use Rattle.sw_values.specs.Canon.{is_empty};
ghost use Rattle.sw_fn_call.specs.Answers.{IsAnswer};
ghost use Rattle.sw_fn_text.specs.Pieces.{limit_by, numbered, limit_of as limit_in, cut as cut_at, pieces as pieces_of, rest, letters_in, letters, split_pieces as pieces_in, piece_value as piece_as, pieces_list, split};

use crate::places::{before, is_below_zero};
use std::alloc::{AllocError, Global};
use sw_fn_call::{Argument, FnFault, is_quoted, list, number_of, string, text_of, three};
use sw_text::{List, Memory, Name};
use sw_values::{Node, Separator, Value};

// ---- how often a text is cut

fn limit_by(most: usize, limit: Option<i128>) -> Result<usize, FnFault>
    ensures { result ≡ limit_by most limit }
{
    match limit {
        None => Err(FnFault::ArgumentFault),
        Some(limit) => {
            let size = limit.unsigned_abs();
            if is_below_zero(limit) || size == 0 {
                return Err(FnFault::ArgumentFault);
            }
            Ok(before(most, size))
        }
    }
}

fn numbered(most: usize, value: &Value) -> Result<usize, FnFault>
    ensures { result ≡ numbered most value.now }
{
    match number_of(value) {
        Ok(number) => limit_by(most, number.value.whole()),
        Err(fault) => Err(fault),
    }
}

#[tactic(auto, unfolding(crate::specs::Pieces::limit_of))]
fn limit_of(most: usize, value: &Value) -> Result<usize, FnFault>
    ensures { result ≡ limit_in most value.now }
{
    match value.node() {
        Node::Number(_) => numbered(most, value),
        Node::Text { .. } => numbered(most, value),
        Node::Colour(_) => numbered(most, value),
        Node::List { .. } => numbered(most, value),
        Node::Map(_) => numbered(most, value),
        Node::Bool(_) => numbered(most, value),
        Node::Null => Ok(most),
        Node::Args { .. } => numbered(most, value),
    }
}

// ---- the pieces

// What stands before the first place of a part, and what stands behind it.
fn cut<'a>(part: &str, text: &'a str) -> Option<(&'a str, &'a str)>
    ensures parts { MatchOption result (cut_at part.now text.now ≡ None)
        (λ parts. cut_at part.now text.now ≡ Some (parts.0.now, parts.1.now)) }
    ensures utf8 { IfSome result (λ parts. IsUtf8 parts.1.now) }
{
    match text.split_once(part) {
        Some(parts) => Some((parts.0, parts.1)),
        None => None,
    }
}

fn push_text(alloc: Global, texts: &mut List<Name>, text: &str) -> Result<(), Memory>
    ensures { OnOk result (texts.new ≡ texts.old ++ text.now ∷ []) }
{
    texts.push(Name::new(alloc, text)?)
}

fn with_last(alloc: Global, mut texts: List<Name>, last: &str) -> Result<List<Name>, Memory>
    ensures { IfOk result (λ all. all ≡ texts ++ last.now ∷ []) }
{
    push_text(alloc, &mut texts, last)?;
    Ok(texts)
}

// A text cut so many times at most.
fn pieces(alloc: Global, cuts: usize, separator: &str, text: &str) -> Result<List<Name>, Memory>
    ensures { IfOk result (λ texts. texts ≡ pieces_of cuts separator.now text.now) }
{
    let mut texts = List::new(alloc);
    let mut left = text;
    'cuts: for done in 0..cuts {
        match cut(separator, left) {
            None => return with_last(alloc, texts, left),
            Some(parts) => {
                push_text(alloc, &mut texts, parts.0)?;
                left = parts.1;
            }
        }
    }
    with_last(alloc, texts, left)
}

fn letter(alloc: Global, c: char) -> Result<Name, Memory>
    ensures { IfOk result (λ text. text ≡ encode_utf8 c) }
{
    let mut text = String::new(alloc);
    text.push(c)?;
    Name::new(alloc, text.as_str())
}

fn chars_of(alloc: Global, text: &str) -> Result<Vec<char>, AllocError>
    ensures { IfOk result (λ all. all.items ≡ chars text.now) }
{
    text.chars().collect(alloc)
}

// Each character as a text.
fn letters_of(alloc: Global, all: &[char]) -> Result<List<Name>, Memory>
    ensures { IfOk result (λ texts. texts ≡ map encode_utf8 all.now) }
{
    let mut texts = List::new(alloc);
    'letters: for at in 0..all.len() {
        texts.push(letter(alloc, all[at])?)?;
    }
    Ok(texts)
}

// The characters as one text.
fn joined(alloc: Global, all: &[char]) -> Result<Name, Memory>
    ensures { IfOk result (λ text. text ≡ encode_utf8_all all.now) }
{
    let mut text = String::new(alloc);
    'letters: for at in 0..all.len() {
        text.push(all[at])?;
    }
    Name::new(alloc, text.as_str())
}

// The characters as one more piece, where there are any.
fn with_rest(alloc: Global, mut texts: List<Name>, all: &[char]) -> Result<List<Name>, Memory>
    ensures { IfOk result (λ whole. whole ≡ texts ++ rest all.now) }
{
    match all {
        [] => Ok(texts),
        [_, ..] => {
            texts.push(joined(alloc, all)?)?;
            Ok(texts)
        }
    }
}

// The first characters one by one, and then what is left.
fn letters_in(alloc: Global, limit: usize, all: &[char]) -> Result<List<Name>, Memory>
    ensures { IfOk result (λ texts. texts ≡ letters_in limit all.now) }
{
    if limit >= all.len() {
        return letters_of(alloc, all);
    }
    let texts = letters_of(alloc, &all[..limit])?;
    with_rest(alloc, texts, &all[limit..])
}

// A text cut behind each of its first characters.
fn letters(alloc: Global, limit: usize, text: &str) -> Result<List<Name>, Memory>
    ensures { IfOk result (λ texts. texts ≡ letters limit text.now) }
{
    let all = chars_of(alloc, text)?;
    letters_in(alloc, limit, all.as_slice())
}

fn split_pieces(
    alloc: Global,
    limit: usize,
    separator: &str,
    text: &str,
) -> Result<List<Name>, Memory>
    ensures { IfOk result (λ texts. texts ≡ pieces_in limit separator.now text.now) }
{
    if is_empty(text) {
        return Ok(List::new(alloc));
    }
    if is_empty(separator) {
        return letters(alloc, limit, text);
    }
    pieces(alloc, limit, separator, text)
}

fn is_empty(text: &str) -> bool
    ensures { result ≡ is_empty text.now }
{
    match text.as_bytes() {
        [] => true,
        [_, ..] => false,
    }
}

// ---- as values

// A piece as a string. It is no heavier than the string that it is cut from, so it is never too heavy.
fn piece_value(text: &Name, quoted: bool) -> Result<Value, Memory>
    ensures { IfOk result (λ value. value ≡ piece_as quoted text.now) }
{
    match string(text.share()?, quoted) {
        Ok(value) => Ok(value),
        Err(_) => Err(Memory),
    }
}

fn piece_values(alloc: Global, quoted: bool, texts: &[Name]) -> Result<List<Value>, Memory>
    ensures { IfOk result (λ values. values ≡ map (piece_as quoted) texts.now) }
{
    let mut values = List::new(alloc);
    'pieces: for at in 0..texts.len() {
        values.push(piece_value(&texts[at], quoted)?)?;
    }
    Ok(values)
}

// The comma list in brackets of some texts.
fn pieces_list(alloc: Global, quoted: bool, texts: &[Name]) -> Result<Value, FnFault>
    ensures { IsAnswer result (pieces_list quoted texts.now) }
{
    let values = piece_values(alloc, quoted, texts)?;
    list(alloc, values, Separator::Comma, true)
}

fn split_of(
    alloc: Global,
    quoted: bool,
    limit: usize,
    separator: &str,
    text: &str,
) -> Result<Value, FnFault>
    ensures { IsAnswer result (pieces_list quoted (pieces_in limit separator.now text.now)) }
{
    let texts = split_pieces(alloc, limit, separator, text)?;
    pieces_list(alloc, quoted, texts.as_slice())
}

pub(crate) fn split(alloc: Global, args: &[Argument]) -> Result<Value, FnFault>
    ensures { IsAnswer result (split args.now) }
{
    let (first, second, third) = three(args)?;
    let text = text_of(first)?;
    let separator = text_of(second)?;
    let limit = limit_of(text.as_str().len(), third)?;
    split_of(
        alloc,
        is_quoted(first),
        limit,
        separator.as_str(),
        text.as_str(),
    )
}
