// Words with `#{}`, and what stands in `#{}`, over a reader of space lists.
ghost use Rattle.std.specs.Prelude.{◌≡◌, ◌∷◌, [], ◌++◌, ◌<◌, length, map, IsTrue, IfOk};
ghost use Rattle.sw_parse_grammar.specs.Grammar.{member, many};
ghost use Rattle.sw_parse_terminals.specs.Numbers.{just};
ghost use Rattle.sw_parse_grammar.specs.Readers.{Answers};
ghost use Rattle.sw_parse_table.specs.Parts.{Texts, Inserts};
ghost use Rattle.sw_parse_table.specs.Sources.{terminal_at, text_between};
ghost use Rattle.sw_parse_table.specs.Expressions.{word_start, word};
ghost use Rattle.sw_parse_table.specs.Reads.{reader, reads, Reads};
ghost use Rattle.sw_parse_expr_nodes.specs.Views.{insert_of, inserts_in};
ghost use Rattle.sw_parse_expr_lists.specs.Inserts.{insertion, piece_of, plain_of, opening_of};
ghost use Rattle.sw_parse_expr_lists.specs.Deeper.{Callable, Reading};

use crate::list::expr_at;
use std::alloc::Global;
use sw_parse_expr_nodes::{Inserted, given_up, grown, joined, text_of};
use sw_parse_grammar::ReadError;
use sw_parse_table::{Source, found, is_at};
use sw_parse_terminals::Terminal;
use sw_text::{List, Memory};
use sw_tree::{Expr, Text};

/// What a text with `#{}` is, whose own text is of this kind of tokens.
#[derive(Clone, Copy)]
pub enum Pieces {
    Url,
    Word,
}

fn plain_of(kind: Pieces) -> Terminal
    ensures { result ≡ plain_of kind }
{
    match kind {
        Pieces::Url => Terminal::Piece,
        Pieces::Word => Terminal::Part,
    }
}

fn opening_of(kind: Pieces) -> Terminal
    ensures { result ≡ opening_of kind }
{
    match kind {
        Pieces::Url => Terminal::Insert,
        Pieces::Word => Terminal::PartInsert,
    }
}

/// The value of a `#{}` that this token opens, which opens a level, and the place behind its `}`.
#[tactic(auto, unfolding(sw_parse_grammar::specs::Readers::parse))]
pub fn insert_at<F: Fn(u8, usize) -> Result<(Expr, usize), ReadError> + Copy>(
    alloc: Global,
    deeper: F,
    source: &Source,
    levels: u8,
    at: usize,
    opening: Terminal,
) -> Result<(Expr, usize), ReadError>
    requires callable { Callable (F.Fn.pre deeper) levels }
    requires reading { Reading (F.Fn.post deeper) source.now levels }
    ensures { Answers (λ read. Inserts at read.1 read.0 ∷ []) (λ read. read.1) result (reader source.now levels
        (insertion source.now opening) at) }
{
    if !is_at(source, at, opening) {
        return Err(ReadError::Unexpected(at));
    }
    if levels == 0 {
        return Err(ReadError::TooDeep(at));
    }
    let (value, place) = expr_at(alloc, deeper, source, levels - 1, at + 1)?;
    if !is_at(source, place, Terminal::InsertEnd) {
        return Err(given_up(value, ReadError::Unexpected(place)));
    }
    Ok((value, place + 1))
}

/// The same with the places where it begins and ends.
pub fn inserted_at<F: Fn(u8, usize) -> Result<(Expr, usize), ReadError> + Copy>(
    alloc: Global,
    deeper: F,
    source: &Source,
    levels: u8,
    at: usize,
    opening: Terminal,
) -> Result<(Inserted, usize), ReadError>
    requires callable { Callable (F.Fn.pre deeper) levels }
    requires reading { Reading (F.Fn.post deeper) source.now levels }
    ensures { Reads (λ read. insert_of read ∷ []) result (reader source.now levels (insertion source.now opening) at) }
{
    let (value, place) = insert_at(alloc, deeper, source, levels, at, opening)?;
    let inserted = Inserted {
        from: at,
        to: place,
        value,
        stands: false,
    };
    Ok((inserted, place))
}

/// The same as one of some.
#[tactic(auto, unfolding(sw_parse_grammar::specs::Readers::parse))]
fn one_inserted_at<F: Fn(u8, usize) -> Result<(Expr, usize), ReadError> + Copy>(
    alloc: Global,
    deeper: F,
    source: &Source,
    levels: u8,
    at: usize,
    opening: Terminal,
) -> Result<(Option<Inserted>, usize), ReadError>
    requires callable { Callable (F.Fn.pre deeper) levels }
    requires reading { Reading (F.Fn.post deeper) source.now levels }
    ensures { Reads (λ x. inserts_in x) result (reader source.now levels (insertion source.now opening) at) }
{
    let (inserted, place) = inserted_at(alloc, deeper, source, levels, at, opening)?;
    Ok((Some(inserted), place))
}

#[tactic(auto, unfolding(sw_parse_grammar::specs::Readers::parse))]
fn piece_at<F: Fn(u8, usize) -> Result<(Expr, usize), ReadError> + Copy>(
    alloc: Global,
    deeper: F,
    source: &Source,
    levels: u8,
    at: usize,
    kind: Pieces,
) -> Result<(Option<Inserted>, usize), ReadError>
    requires callable { Callable (F.Fn.pre deeper) levels }
    requires reading { Reading (F.Fn.post deeper) source.now levels }
    ensures { Reads (λ x. inserts_in x) result (reader source.now levels (piece_of source.now kind) at) }
{
    if is_at(source, at, plain_of(kind)) {
        Ok((None, at + 1))
    } else {
        one_inserted_at(alloc, deeper, source, levels, at, opening_of(kind))
    }
}

fn is_piece(source: &Source, at: usize, kind: Pieces) -> bool
    ensures test { result ≡ member (terminal_at source.now at) (just (plain_of kind) ++ just (opening_of kind)) }
    ensures within { IsTrue result → at < length source.now.lexemes.now }
{
    is_at(source, at, plain_of(kind)) || is_at(source, at, opening_of(kind))
}

/// The `#{}` that stand in a row with texts of a kind between them, and the place behind all.
#[tactic(auto, unfolding(sw_parse_grammar::specs::Readers::parse))]
pub fn pieces_at<F: Fn(u8, usize) -> Result<(Expr, usize), ReadError> + Copy>(
    alloc: Global,
    deeper: F,
    source: &Source,
    levels: u8,
    at: usize,
    kind: Pieces,
) -> Result<(List<Inserted>, usize), ReadError>
    requires callable { Callable (F.Fn.pre deeper) levels }
    requires reading { Reading (F.Fn.post deeper) source.now levels }
    ensures { Reads (λ x. map insert_of x) result (reader source.now levels (many (piece_of source.now kind)) at) }
{
    let mut list = List::new(alloc);
    let mut place = at;
    'items: while is_piece(source, place, kind) {
        let (item, next) = piece_at(alloc, deeper, source, levels, place, kind)?;
        grown(&mut list, item)?;
        place = next;
    }
    Ok((list, place))
}

#[tactic(auto, unfolding(sw_parse_grammar::specs::Readers::parse, sw_parse_table::specs::Expressions::word_start, sw_parse_table::specs::Expressions::word_insert))]
fn word_start_at<F: Fn(u8, usize) -> Result<(Expr, usize), ReadError> + Copy>(
    alloc: Global,
    deeper: F,
    source: &Source,
    levels: u8,
    at: usize,
) -> Result<(Option<Inserted>, usize), ReadError>
    requires callable { Callable (F.Fn.pre deeper) levels }
    requires reading { Reading (F.Fn.post deeper) source.now levels }
    ensures { Reads (λ x. inserts_in x) result (reads source.now levels word_start at) }
{
    if is_at(source, at, Terminal::Word) {
        Ok((None, at + 1))
    } else if is_at(source, at, Terminal::WordMinus) {
        one_inserted_at(alloc, deeper, source, levels, at + 1, Terminal::WordInsert)
    } else {
        one_inserted_at(alloc, deeper, source, levels, at, Terminal::WordInsert)
    }
}

/// A word with the `#{}` in it, and the place behind it.
#[tactic(auto, unfolding(sw_parse_grammar::specs::Readers::parse, sw_parse_table::specs::Expressions::word, sw_parse_table::specs::Expressions::word_part, sw_parse_table::specs::Expressions::part_insert))]
pub fn word_at<F: Fn(u8, usize) -> Result<(Expr, usize), ReadError> + Copy>(
    alloc: Global,
    deeper: F,
    source: &Source,
    levels: u8,
    at: usize,
) -> Result<(Text, usize), ReadError>
    requires callable { Callable (F.Fn.pre deeper) levels }
    requires reading { Reading (F.Fn.post deeper) source.now levels }
    ensures { Reads (λ x. Texts x ∷ []) result (reads source.now levels word at) }
{
    let (first, place) = word_start_at(alloc, deeper, source, levels, at)?;
    let (rest, place) = pieces_at(alloc, deeper, source, levels, place, Pieces::Word)?;
    let text = found(word_of(alloc, source, at, place, first, rest))?;
    Ok((text, place))
}

fn word_of(
    alloc: Global,
    source: &Source,
    at: usize,
    place: usize,
    first: Option<Inserted>,
    rest: List<Inserted>,
) -> Result<Text, Memory>
    ensures { IfOk result (λ text. text_between source.now at place (inserts_in first ++ map insert_of rest) ≡ text) }
{
    text_of(alloc, source, at, place, joined(first, rest)?)
}
