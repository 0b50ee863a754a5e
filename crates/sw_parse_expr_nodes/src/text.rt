// Texts with what is inserted in them.
ghost use Rattle.std.specs.Prelude.{◌≡◌, ◌++◌, [], map, reverse, IfOk, IfErr, OnOk};
ghost use Rattle.sw_parse_table.specs.Sources.{Texts, texts, texts_list, bytes_from, pieces_in, text_pieces, plain_parts, IsCut, pieces_from, parts_from, parts_between, text_piece, text_between};
ghost use Rattle.sw_parse_expr_nodes.specs.Views.{insert_of, inserts_in, inserted_piece};

use crate::build::Inserted;
use std::alloc::Global;
use sw_parse_grammar::ReadError;
use sw_parse_table::{
    Source, Stretch, behind, bytes_from, found, has_comments, span_between, stretch_between, texts,
    up_to,
};
use sw_text::{List, Memory, Name};
use sw_tree::{Parts, Piece, Text};

/// Puts a text behind the pieces, where it isn't empty.
#[tactic(auto, using(crate::proofs::TextPieces::reverse_more))]
pub(crate) fn push_name(pieces: &mut Vec<Piece>, text: Name) -> Result<(), Memory>
    ensures { OnOk result (reverse pieces.new.items ≡ text_piece text ++ reverse pieces.old.items) }
{
    if text.as_str().is_empty() {
        return Ok(());
    }
    pieces.push(Piece::Text(text))?;
    Ok(())
}

/// The same of several, the last one first.
fn push_names(pieces: &mut Vec<Piece>, list: List<Name>) -> Result<(), Memory>
    ensures { OnOk result (reverse pieces.new.items ≡ pieces_in list ++ reverse pieces.old.items) }
{
    let mut rest = list;
    'texts: while let Some(text) = rest.pop() {
        push_name(pieces, text)?;
    }
    Ok(())
}

/// The text of a stretch that has no comments.
fn bytes_of(alloc: Global, source: &Source, stretch: &Stretch) -> Result<Name, Memory>
    requires { IsCut source.now stretch.now }
    ensures { IfOk result (λ text. text ≡ bytes_from source.now stretch.now.from stretch.now.to) }
{
    Name::new(alloc, bytes_from(source, stretch.from, stretch.to))
}

/// Puts the texts of a stretch behind the pieces, the last one first.
fn push_text(
    alloc: Global,
    pieces: &mut Vec<Piece>,
    source: &Source,
    stretch: &Stretch,
) -> Result<(), Memory>
    requires { IsCut source.now stretch.now }
    ensures { OnOk result (reverse pieces.new.items ≡ text_pieces (texts source.now stretch.now) ++ reverse
        pieces.old.items) }
{
    if has_comments(source, stretch) {
        return push_names(pieces, texts(alloc, source, stretch)?);
    }
    push_name(pieces, bytes_of(alloc, source, stretch)?)
}

pub(crate) fn piece_of(inserted: Inserted) -> Piece
    ensures { result ≡ inserted_piece inserted }
{
    if inserted.stands {
        Piece::Value(inserted.value)
    } else {
        Piece::Inserted(inserted.value)
    }
}

#[inline(never)]
fn pieces_of(
    alloc: Global,
    source: &Source,
    stretch: Stretch,
    list: List<Inserted>,
) -> Result<List<Piece>, Memory>
    requires { IsCut source.now stretch }
    ensures { IfOk result (λ pieces. pieces_from source.now stretch (map insert_of list) ≡ pieces) }
{
    let mut rest = list;
    let mut pieces = Vec::new(alloc);
    let mut left = stretch;
    'items: while let Some(last) = rest.pop() {
        let tail = behind(source, left, last.to);
        let before = up_to(source, left, last.from);
        push_text(alloc, &mut pieces, source, &tail)?;
        pieces.push(piece_of(last))?;
        left = before;
    }
    push_text(alloc, &mut pieces, source, &left)?;
    pieces.reverse();
    Ok(List::from_vec(pieces))
}

/// Texts that stand apart, or the only one.
fn parts_of_texts(alloc: Global, list: List<Name>) -> Result<Parts, Memory>
    ensures { (several : Texts) → list ≡ texts_list several → IfOk result (λ parts. parts ≡ plain_parts several) }
{
    if 1 < list.len() {
        let mut pieces = Vec::new(alloc);
        push_names(&mut pieces, list)?;
        pieces.reverse();
        return Ok(Parts::Mixed(List::from_vec(pieces)));
    }
    let mut list = list;
    match list.pop() {
        None => Ok(Parts::Plain(Name::new(alloc, "")?)),
        Some(text) => Ok(Parts::Plain(text)),
    }
}

/// What the text of a stretch is made of, where nothing is inserted in it.
fn plain_parts(alloc: Global, source: &Source, stretch: &Stretch) -> Result<Parts, Memory>
    requires { IsCut source.now stretch.now }
    ensures { IfOk result (λ parts. parts ≡ plain_parts (texts source.now stretch.now)) }
{
    if has_comments(source, stretch) {
        return parts_of_texts(alloc, texts(alloc, source, stretch)?);
    }
    Ok(Parts::Plain(bytes_of(alloc, source, stretch)?))
}

#[inline(always)]
fn parts_by(
    alloc: Global,
    source: &Source,
    stretch: Stretch,
    list: List<Inserted>,
) -> Result<Parts, Memory>
    requires { IsCut source.now stretch }
    ensures { IfOk result (λ parts. parts_from source.now stretch (map insert_of list) ≡ parts) }
{
    if list.is_empty() {
        return plain_parts(alloc, source, &stretch);
    }
    Ok(Parts::Mixed(pieces_of(alloc, source, stretch, list)?))
}

/// What a text from the token at a place to the one before another is made of.
#[inline(always)]
pub fn parts_of(
    alloc: Global,
    source: &Source,
    at: usize,
    place: usize,
    list: List<Inserted>,
) -> Result<Parts, Memory>
    ensures { IfOk result (λ parts. parts_between source.now at place (map insert_of list) ≡ parts) }
{
    parts_by(alloc, source, stretch_between(source, at, place), list)
}

/// The same where nothing is inserted in it.
pub(crate) fn plain_parts_of(
    alloc: Global,
    source: &Source,
    at: usize,
    place: usize,
) -> Result<Parts, Memory>
    ensures { IfOk result (λ parts. parts_between source.now at place [] ≡ parts) }
{
    let stretch = stretch_between(source, at, place);
    plain_parts(alloc, source, &stretch)
}

/// The text from the token at a place to the one before another.
pub fn text_of(
    alloc: Global,
    source: &Source,
    at: usize,
    place: usize,
    list: List<Inserted>,
) -> Result<Text, Memory>
    ensures { IfOk result (λ text. text_between source.now at place (map insert_of list) ≡ text) }
{
    let span = span_between(source, at, place)?;
    Ok(Text {
        parts: parts_of(alloc, source, at, place, list)?,
        span,
    })
}

/// The same where nothing is inserted in it.
pub fn plain_text_of(
    alloc: Global,
    source: &Source,
    at: usize,
    place: usize,
) -> Result<Text, Memory>
    ensures { IfOk result (λ text. text_between source.now at place [] ≡ text) }
{
    let span = span_between(source, at, place)?;
    Ok(Text {
        parts: plain_parts_of(alloc, source, at, place)?,
        span,
    })
}

fn added(list: &mut List<Inserted>, item: Option<Inserted>) -> Result<(), Memory>
    ensures { OnOk result (map insert_of list.new ≡ map insert_of list.old ++ inserts_in item) }
{
    match item {
        None => Ok(()),
        Some(inserted) => list.push(inserted),
    }
}

/// Puts what was read behind the others.
pub fn grown(list: &mut List<Inserted>, item: Option<Inserted>) -> Result<(), ReadError>
    ensures more { OnOk result (map insert_of list.new ≡ map insert_of list.old ++ inserts_in item) }
    ensures memory { IfErr result (λ error. error ≡ ReadError.Memory) }
{
    found(added(list, item))
}

/// The same before the others.
pub fn joined(first: Option<Inserted>, rest: List<Inserted>) -> Result<List<Inserted>, Memory>
    ensures { IfOk result (λ list. map insert_of list ≡ inserts_in first ++ map insert_of rest) }
{
    match first {
        None => Ok(rest),
        Some(inserted) => {
            let mut list = rest.into_vec();
            list.insert(0, inserted)?;
            Ok(List::from_vec(list))
        }
    }
}

/// Several behind the others.
pub fn appended(list: List<Inserted>, items: List<Inserted>) -> Result<List<Inserted>, Memory>
    ensures { IfOk result (λ whole. map insert_of whole ≡ map insert_of list ++ map insert_of items) }
{
    if items.is_empty() {
        return Ok(list);
    }
    let mut whole = list.into_vec();
    let mut items = items.into_vec();
    whole.append(&mut items)?;
    Ok(List::from_vec(whole))
}
