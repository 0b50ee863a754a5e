// The text of special functions.
ghost use Rattle.std.specs.Prelude.{◌≡◌, ◌∷◌, [], map, IfOk};
ghost use Rattle.sw_parse_grammar.specs.Grammar.{many};
ghost use Rattle.sw_parse_table.specs.Parts.{Values};
ghost use Rattle.sw_parse_table.specs.Values.{to_special};
ghost use Rattle.sw_parse_table.specs.Expressions.{special, special_parens, special_brackets, special_item, special_inside};
ghost use Rattle.sw_parse_table.specs.Reads.{reader, reads, Reads, ReadsValue};
ghost use Rattle.sw_parse_expr_nodes.specs.Views.{insert_of};
ghost use Rattle.sw_parse_expr_lists.specs.Deeper.{Callable, Reading};
ghost use Rattle.sw_parse_expr_operands.specs.Specials.{own_parens};

use crate::item::{
    begins_special, insert_alone_at, is_special_text, is_special_value, more, raw_at,
    value_alone_at,
};
use std::alloc::Global;
use sw_parse_expr_nodes::{Inserted, parts_of, skipped};
use sw_parse_grammar::ReadError;
use sw_parse_table::{Source, found, is_at, span_between};
use sw_parse_terminals::Terminal;
use sw_text::{List, Memory};
use sw_tree::{Expr, ExprKind};

/// What stands in parentheses in such a text.
#[cycle(special)]
#[tactic(auto, unfolding(sw_parse_grammar::specs::Readers::parse, sw_parse_table::specs::Expressions::special_parens))]
fn special_parens_at<F: Fn(u8, usize) -> Result<(Expr, usize), ReadError> + Copy>(
    alloc: Global,
    deeper: F,
    source: &Source,
    levels: u8,
    at: usize,
) -> Result<(List<Inserted>, usize), ReadError>
    requires callable { Callable (F.Fn.pre deeper) levels }
    requires reading { Reading (F.Fn.post deeper) source.now levels }
    ensures { Reads (λ list. map insert_of list) result (reads source.now levels special_parens at) }
{
    if !is_at(source, at, Terminal::RawParen) {
        return Err(ReadError::Unexpected(at));
    }
    if levels == 0 {
        return Err(ReadError::TooDeep(at));
    }
    let (list, place) = special_items_at(alloc, deeper, source, levels - 1, at + 1)?;
    if !is_at(source, place, Terminal::RawParenEnd) {
        return Err(ReadError::Unexpected(place));
    }
    Ok((list, place + 1))
}

/// What stands in brackets in such a text.
#[cycle(special)]
#[tactic(auto, unfolding(sw_parse_grammar::specs::Readers::parse, sw_parse_table::specs::Expressions::special_brackets))]
fn special_brackets_at<F: Fn(u8, usize) -> Result<(Expr, usize), ReadError> + Copy>(
    alloc: Global,
    deeper: F,
    source: &Source,
    levels: u8,
    at: usize,
) -> Result<(List<Inserted>, usize), ReadError>
    requires callable { Callable (F.Fn.pre deeper) levels }
    requires reading { Reading (F.Fn.post deeper) source.now levels }
    ensures { Reads (λ list. map insert_of list) result (reads source.now levels special_brackets at) }
{
    if !is_at(source, at, Terminal::RawBracket) {
        return Err(ReadError::Unexpected(at));
    }
    if levels == 0 {
        return Err(ReadError::TooDeep(at));
    }
    let (list, place) = special_items_at(alloc, deeper, source, levels - 1, at + 1)?;
    if !is_at(source, place, Terminal::RawBracketEnd) {
        return Err(ReadError::Unexpected(place));
    }
    Ok((list, place + 1))
}

/// One part of such a text, with the values in it.
#[cycle(special)]
fn special_item_at<F: Fn(u8, usize) -> Result<(Expr, usize), ReadError> + Copy>(
    alloc: Global,
    deeper: F,
    source: &Source,
    levels: u8,
    at: usize,
) -> Result<(List<Inserted>, usize), ReadError>
    requires callable { Callable (F.Fn.pre deeper) levels }
    requires reading { Reading (F.Fn.post deeper) source.now levels }
    ensures { Reads (λ list. map insert_of list) result (reads source.now levels special_item at) }
{
    if is_special_text(source, at) {
        raw_at(alloc, source, levels, at)
    } else if is_at(source, at, Terminal::Insert) {
        insert_alone_at(alloc, deeper, source, levels, at)
    } else if is_special_value(source, at) {
        value_alone_at(alloc, deeper, source, levels, at)
    } else if is_at(source, at, Terminal::RawParen) {
        special_parens_at(alloc, deeper, source, levels, at)
    } else {
        special_brackets_at(alloc, deeper, source, levels, at)
    }
}

/// The values in any number of parts.
#[cycle(special)]
#[tactic(auto, unfolding(sw_parse_grammar::specs::Readers::parse))]
fn special_items_at<F: Fn(u8, usize) -> Result<(Expr, usize), ReadError> + Copy>(
    alloc: Global,
    deeper: F,
    source: &Source,
    levels: u8,
    at: usize,
) -> Result<(List<Inserted>, usize), ReadError>
    requires callable { Callable (F.Fn.pre deeper) levels }
    requires reading { Reading (F.Fn.post deeper) source.now levels }
    ensures { Reads (λ list. map insert_of list) result (reader source.now levels (many (special_item source.now)) at) }
{
    let mut list = List::new(alloc);
    let mut place = at;
    'items: while begins_special(source, place) {
        let (item, next) = special_item_at(alloc, deeper, source, levels, place)?;
        list = more(list, item)?;
        place = next;
    }
    Ok((list, place))
}

/// The values in at least one part.
#[tactic(auto, unfolding(sw_parse_grammar::specs::Readers::parse, sw_parse_table::specs::Expressions::special_inside))]
fn special_inside_at<F: Fn(u8, usize) -> Result<(Expr, usize), ReadError> + Copy>(
    alloc: Global,
    deeper: F,
    source: &Source,
    levels: u8,
    at: usize,
) -> Result<(List<Inserted>, usize), ReadError>
    requires callable { Callable (F.Fn.pre deeper) levels }
    requires reading { Reading (F.Fn.post deeper) source.now levels }
    ensures { Reads (λ list. map insert_of list) result (reads source.now levels special_inside at) }
{
    let (first, place) = special_item_at(alloc, deeper, source, levels, at)?;
    let (rest, place) = special_items_at(alloc, deeper, source, levels, place)?;
    let list = more(first, rest)?;
    Ok((list, place))
}

/// What stands in the parentheses of a special function.
#[tactic(auto, unfolding(sw_parse_grammar::specs::Readers::parse))]
fn own_parens_at<F: Fn(u8, usize) -> Result<(Expr, usize), ReadError> + Copy>(
    alloc: Global,
    deeper: F,
    source: &Source,
    levels: u8,
    at: usize,
) -> Result<(List<Inserted>, usize), ReadError>
    requires callable { Callable (F.Fn.pre deeper) levels }
    requires reading { Reading (F.Fn.post deeper) source.now levels }
    ensures { Reads (λ list. map insert_of list) result (reader source.now levels own_parens at) }
{
    if !is_at(source, at, Terminal::RawParen) {
        return Err(ReadError::Unexpected(at));
    }
    if levels == 0 {
        return Err(ReadError::TooDeep(at));
    }
    let (list, place) = special_inside_at(alloc, deeper, source, levels - 1, at + 1)?;
    if !is_at(source, place, Terminal::RawParenEnd) {
        return Err(ReadError::Unexpected(place));
    }
    Ok((list, place + 1))
}

fn special_of(
    alloc: Global,
    source: &Source,
    at: usize,
    place: usize,
    list: List<Inserted>,
) -> Result<Expr, Memory>
    ensures { IfOk result (λ value. to_special source.now at place (map insert_of list) ≡ Values value ∷ []) }
{
    let span = span_between(source, at, place)?;
    Ok(Expr {
        kind: ExprKind::Special(parts_of(alloc, source, at, place, list)?),
        span,
    })
}

/// `calc(..)` and what else is read as it is.
#[tactic(auto, unfolding(sw_parse_grammar::specs::Readers::parse, sw_parse_table::specs::Expressions::special))]
pub fn special_at<F: Fn(u8, usize) -> Result<(Expr, usize), ReadError> + Copy>(
    alloc: Global,
    deeper: F,
    source: &Source,
    levels: u8,
    at: usize,
) -> Result<(Expr, usize), ReadError>
    requires callable { Callable (F.Fn.pre deeper) levels }
    requires reading { Reading (F.Fn.post deeper) source.now levels }
    ensures { ReadsValue result (reads source.now levels special at) }
{
    let place = skipped(source, levels, at, Terminal::Special)?;
    let (list, place) = own_parens_at(alloc, deeper, source, levels, place)?;
    let value = found(special_of(alloc, source, at, place, list))?;
    Ok((value, place))
}
