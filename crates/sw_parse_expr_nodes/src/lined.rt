// The text of a loud comment that is a statement.
ghost use Rattle.std.specs.Prelude.{◌≡◌, ◌++◌, ◌-◌, ◌<◌, map, reverse, length, string_bytes, IsTrue, IfOk, OnOk};
ghost use Rattle.sw_parse_table.specs.Lined.{is_made, is_lined, line_start, line_part, lines_from, lines, lined_pieces, lined_parts, lined_text, comment_text};
ghost use Rattle.sw_parse_expr_nodes.specs.Views.{insert_of};

use crate::build::Inserted;
use crate::text::{piece_of, push_name, text_of};
use std::alloc::Global;
use sw_parse_table::{Source, bytes_at, from_at, is_at, span_between, to_at};
use sw_parse_terminals::Terminal;
use sw_text::{List, Memory, Name};
use sw_tree::{Parts, Piece, Text};

/// Whether the token at a place has no text of its own.
fn is_made(source: &Source, at: usize) -> bool
    ensures { result ≡ is_made source.now at }
{
    from_at(source, at) == to_at(source, at)
}

/// Whether the comment that begins at a place is told by its lines.
fn is_lined(source: &Source, at: usize) -> bool
    ensures test { result ≡ is_lined source.now at }
    ensures within { IsTrue result → at < length source.now.lexemes.now }
{
    is_at(source, at, Terminal::CommentTemplate) && is_made(source, at + 1)
}

/// What a token without a text says in the comment that begins at a place.
fn line_start(source: &Source, at: usize, place: usize) -> &'static str
    requires { at < length source.now.lexemes.now }
    ensures { result.now ≡ line_start source.now at place }
{
    if is_at(source, place, Terminal::CommentEnd) {
        return " */";
    }
    if place == at + 1 { " " } else { "\n * " }
}

/// What a token says in the comment that begins at a place.
fn line_part<'a>(source: &Source<'a>, at: usize, place: usize) -> &'a str
    requires { at < length source.now.lexemes.now }
    ensures { result.now ≡ line_part source.now at place }
{
    if is_made(source, place) {
        line_start(source, at, place)
    } else {
        bytes_at(source, place)
    }
}

/// Adds what the tokens from a place to before another say.
fn add_lines(
    text: &mut String,
    source: &Source,
    at: usize,
    from: usize,
    to: usize,
) -> Result<(), Memory>
    requires { at < length source.now.lexemes.now }
    ensures { OnOk result (string_bytes text.new ≡ string_bytes text.old ++ lines_from source.now at from (to - from)) }
{
    'places: for place in from..to {
        text.push_str(line_part(source, at, place))?;
    }
    Ok(())
}

/// What they say as one text.
#[tactic(auto, unfolding(sw_parse_table::specs::Lined::lines))]
fn lines(alloc: Global, source: &Source, at: usize, from: usize, to: usize) -> Result<Name, Memory>
    requires { at < length source.now.lexemes.now }
    ensures { IfOk result (λ name. name ≡ lines source.now at from to) }
{
    let mut text = String::new(alloc);
    add_lines(&mut text, source, at, from, to)?;
    Name::new(alloc, text.as_str())
}

fn lined_pieces(
    alloc: Global,
    source: &Source,
    at: usize,
    place: usize,
    list: List<Inserted>,
) -> Result<List<Piece>, Memory>
    requires { at < length source.now.lexemes.now }
    ensures { IfOk result (λ pieces. lined_pieces source.now at at place (map insert_of list) ≡ pieces) }
{
    let mut rest = list;
    let mut pieces = Vec::new(alloc);
    let mut end = place;
    'items: while let Some(last) = rest.pop() {
        let before = last.from;
        let tail = lines(alloc, source, at, last.to, end)?;
        push_name(&mut pieces, tail)?;
        pieces.push(piece_of(last))?;
        end = before;
    }
    let head = lines(alloc, source, at, at, end)?;
    push_name(&mut pieces, head)?;
    pieces.reverse();
    Ok(List::from_vec(pieces))
}

fn lined_parts(
    alloc: Global,
    source: &Source,
    at: usize,
    place: usize,
    list: List<Inserted>,
) -> Result<Parts, Memory>
    requires { at < length source.now.lexemes.now }
    ensures { IfOk result (λ parts. lined_parts source.now at place (map insert_of list) ≡ parts) }
{
    if list.is_empty() {
        return Ok(Parts::Plain(lines(alloc, source, at, at, place)?));
    }
    Ok(Parts::Mixed(lined_pieces(alloc, source, at, place, list)?))
}

fn lined_text(
    alloc: Global,
    source: &Source,
    at: usize,
    place: usize,
    list: List<Inserted>,
) -> Result<Text, Memory>
    requires { at < length source.now.lexemes.now }
    ensures { IfOk result (λ text. lined_text source.now at place (map insert_of list) ≡ text) }
{
    let span = span_between(source, at, place)?;
    Ok(Text {
        parts: lined_parts(alloc, source, at, place, list)?,
        span,
    })
}

/// The text of a loud comment from the token at a place to the one before another. In a sheet that was written in
/// lines each of its lines begins with ` * `, the first one with `/* `, and it is closed where it doesn't close itself.
#[tactic(auto, unfolding(sw_parse_table::specs::Lined::comment_text))]
pub fn comment_text_of(
    alloc: Global,
    source: &Source,
    at: usize,
    place: usize,
    list: List<Inserted>,
) -> Result<Text, Memory>
    ensures { IfOk result (λ text. comment_text source.now at place (map insert_of list) ≡ text) }
{
    if is_lined(source, at) {
        lined_text(alloc, source, at, place, list)
    } else {
        text_of(alloc, source, at, place, list)
    }
}
