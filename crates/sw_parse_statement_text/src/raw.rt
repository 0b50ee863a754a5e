// Raw text: what stands up to a `;`, `{` or `}` outside its brackets.
ghost use Rattle.std.specs.Prelude.{ℕ, ◌≡◌, ◌∷◌, [], ◌++◌, map, IfOk, IfErr};
ghost use Rattle.sw_parse_grammar.specs.Grammar.{many};
ghost use Rattle.sw_parse_table.specs.Parts.{Texts};
ghost use Rattle.sw_parse_table.specs.Sources.{text_between};
ghost use Rattle.sw_parse_table.specs.Expressions.{insert};
ghost use Rattle.sw_parse_table.specs.Statements.{raw_item, raw, optional_raw};
ghost use Rattle.sw_parse_table.specs.Reads.{reader, reads, Reads};
ghost use Rattle.sw_parse_expr_nodes.specs.Views.{insert_of};
ghost use Rattle.sw_parse_expr_lists.specs.Deeper.{Callable, Reading};
ghost use Rattle.sw_parse_statement_text.specs.Rows.{raw_group, text_in};

use crate::at::begins_raw;
use std::alloc::Global;
use sw_parse_expr_lists::inserted_at;
use sw_parse_expr_nodes::{Inserted, appended, plain_text_of, text_of};
use sw_parse_grammar::ReadError;
use sw_parse_table::{Source, found, is_at};
use sw_parse_terminals::Terminal;
use sw_text::{List, Memory};
use sw_tree::{Expr, Text};

fn alone(alloc: Global, item: Inserted) -> Result<List<Inserted>, Memory>
    ensures { IfOk result (λ list. list ≡ item ∷ []) }
{
    let mut list = List::new(alloc);
    list.push(item)?;
    Ok(list)
}

/// A `#{}` as a list of one.
#[tactic(auto, unfolding(sw_parse_table::specs::Expressions::insert))]
pub(crate) fn insert_alone_at<F: Fn(u8, usize) -> Result<(Expr, usize), ReadError> + Copy>(
    alloc: Global,
    deeper: F,
    source: &Source,
    levels: u8,
    at: usize,
) -> Result<(List<Inserted>, usize), ReadError>
    requires callable { Callable (F.Fn.pre deeper) levels }
    requires reading { Reading (F.Fn.post deeper) source.now levels }
    ensures { Reads (λ list. map insert_of list) result (reads source.now levels insert at) }
{
    let (inserted, place) = inserted_at(alloc, deeper, source, levels, at, Terminal::Insert)?;
    let list = found(alone(alloc, inserted))?;
    Ok((list, place))
}

/// Several behind the others.
fn more(list: List<Inserted>, items: List<Inserted>) -> Result<List<Inserted>, ReadError>
    ensures more { IfOk result (λ whole. map insert_of whole ≡ map insert_of list ++ map insert_of items) }
    ensures memory { IfErr result (λ error. error ≡ ReadError.Memory) }
{
    found(appended(list, items))
}

/// What stands in brackets of a kind, which open a level.
#[cycle(raw)]
#[tactic(auto, unfolding(sw_parse_grammar::specs::Readers::parse))]
fn raw_group_at<F: Fn(u8, usize) -> Result<(Expr, usize), ReadError> + Copy>(
    alloc: Global,
    deeper: F,
    source: &Source,
    levels: u8,
    at: usize,
    brackets: (Terminal, Terminal),
) -> Result<(List<Inserted>, usize), ReadError>
    requires callable { Callable (F.Fn.pre deeper) levels }
    requires reading { Reading (F.Fn.post deeper) source.now levels }
    ensures { Reads (λ list. map insert_of list) result
        (reader source.now levels (raw_group brackets.0 brackets.1) at) }
{
    if !is_at(source, at, brackets.0) {
        return Err(ReadError::Unexpected(at));
    }
    if levels == 0 {
        return Err(ReadError::TooDeep(at));
    }
    let (list, place) = raw_items_at(alloc, deeper, source, levels - 1, at + 1)?;
    if !is_at(source, place, brackets.1) {
        return Err(ReadError::Unexpected(place));
    }
    Ok((list, place + 1))
}

/// One token of raw text, what stands in brackets, or a `#{}`.
#[cycle(raw)]
fn raw_item_at<F: Fn(u8, usize) -> Result<(Expr, usize), ReadError> + Copy>(
    alloc: Global,
    deeper: F,
    source: &Source,
    levels: u8,
    at: usize,
) -> Result<(List<Inserted>, usize), ReadError>
    requires callable { Callable (F.Fn.pre deeper) levels }
    requires reading { Reading (F.Fn.post deeper) source.now levels }
    ensures { Reads (λ list. map insert_of list) result (reads source.now levels raw_item at) }
{
    if is_at(source, at, Terminal::Raw) {
        Ok((List::new(alloc), at + 1))
    } else if is_at(source, at, Terminal::RawParen) {
        let brackets = (Terminal::RawParen, Terminal::RawParenEnd);
        raw_group_at(alloc, deeper, source, levels, at, brackets)
    } else if is_at(source, at, Terminal::RawBracket) {
        let brackets = (Terminal::RawBracket, Terminal::RawBracketEnd);
        raw_group_at(alloc, deeper, source, levels, at, brackets)
    } else if is_at(source, at, Terminal::RawBrace) {
        let brackets = (Terminal::RawBrace, Terminal::RawBraceEnd);
        raw_group_at(alloc, deeper, source, levels, at, brackets)
    } else {
        insert_alone_at(alloc, deeper, source, levels, at)
    }
}

/// Any number of these.
#[cycle(raw)]
#[tactic(auto, unfolding(sw_parse_grammar::specs::Readers::parse))]
fn raw_items_at<F: Fn(u8, usize) -> Result<(Expr, usize), ReadError> + Copy>(
    alloc: Global,
    deeper: F,
    source: &Source,
    levels: u8,
    at: usize,
) -> Result<(List<Inserted>, usize), ReadError>
    requires callable { Callable (F.Fn.pre deeper) levels }
    requires reading { Reading (F.Fn.post deeper) source.now levels }
    ensures { Reads (λ list. map insert_of list) result (reader source.now levels (many (raw_item source.now)) at) }
{
    let mut list = List::new(alloc);
    let mut place = at;
    'items: while begins_raw(source, place) {
        let (item, next) = raw_item_at(alloc, deeper, source, levels, place)?;
        list = more(list, item)?;
        place = next;
    }
    Ok((list, place))
}

fn raw_of(
    alloc: Global,
    source: &Source,
    places: (usize, usize),
    first: List<Inserted>,
    rest: List<Inserted>,
) -> Result<Text, Memory>
    ensures { IfOk result (λ text. text_between source.now places.0 places.1 (map insert_of first ++ map insert_of rest)
        ≡ text) }
{
    text_of(alloc, source, places.0, places.1, appended(first, rest)?)
}

/// Raw text that isn't empty, whatever stands in it.
#[inline(never)]
#[tactic(auto, unfolding(sw_parse_grammar::specs::Readers::parse, sw_parse_table::specs::Statements::raw))]
fn any_raw_at<F: Fn(u8, usize) -> Result<(Expr, usize), ReadError> + Copy>(
    alloc: Global,
    deeper: F,
    source: &Source,
    levels: u8,
    at: usize,
) -> Result<(Text, usize), ReadError>
    requires callable { Callable (F.Fn.pre deeper) levels }
    requires reading { Reading (F.Fn.post deeper) source.now levels }
    ensures { Reads (λ text. Texts text ∷ []) result (reads source.now levels raw at) }
{
    let (first, place) = raw_item_at(alloc, deeper, source, levels, at)?;
    let (rest, place) = raw_items_at(alloc, deeper, source, levels, place)?;
    let text = found(raw_of(alloc, source, (at, place), first, rest))?;
    Ok((text, place))
}

/// The place behind the tokens of raw text that stand in a row, which are neither brackets nor `#{}`.
fn behind_plain(source: &Source, at: usize) -> usize
    ensures { (levels : ℕ) → reader source.now levels (many (raw_item source.now)) result ≡ reader source.now levels
        (many (raw_item source.now)) at }
{
    let mut place = at;
    'items: while is_at(source, place, Terminal::Raw) {
        place = place + 1;
    }
    place
}

/// Raw text that isn't empty, with the `#{}` in it.
pub fn raw_at<F: Fn(u8, usize) -> Result<(Expr, usize), ReadError> + Copy>(
    alloc: Global,
    deeper: F,
    source: &Source,
    levels: u8,
    at: usize,
) -> Result<(Text, usize), ReadError>
    requires callable { Callable (F.Fn.pre deeper) levels }
    requires reading { Reading (F.Fn.post deeper) source.now levels }
    ensures { Reads (λ text. Texts text ∷ []) result (reads source.now levels raw at) }
{
    if !is_at(source, at, Terminal::Raw) {
        return any_raw_at(alloc, deeper, source, levels, at);
    }
    let place = behind_plain(source, at + 1);
    if begins_raw(source, place) {
        return any_raw_at(alloc, deeper, source, levels, at);
    }
    let text = found(plain_text_of(alloc, source, at, place))?;
    Ok((text, place))
}

/// Raw text where some stands, with the `#{}` in it.
pub fn optional_raw_at<F: Fn(u8, usize) -> Result<(Expr, usize), ReadError> + Copy>(
    alloc: Global,
    deeper: F,
    source: &Source,
    levels: u8,
    at: usize,
) -> Result<(Option<Text>, usize), ReadError>
    requires callable { Callable (F.Fn.pre deeper) levels }
    requires reading { Reading (F.Fn.post deeper) source.now levels }
    ensures { Reads text_in result (reads source.now levels optional_raw at) }
{
    if !begins_raw(source, at) {
        return Ok((None, at));
    }
    let (text, place) = raw_at(alloc, deeper, source, levels, at)?;
    Ok((Some(text), place))
}
