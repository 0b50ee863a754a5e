// What stands by itself in the text of a special function.
ghost use Rattle.std.specs.Prelude.{◌≡◌, ◌∷◌, [], ◌++◌, ◌<◌, length, map, IsTrue, IfOk, IfErr};
ghost use Rattle.sw_parse_grammar.specs.Grammar.{member, skip};
ghost use Rattle.sw_parse_table.specs.Sources.{terminal_at};
ghost use Rattle.sw_parse_table.specs.Sets.{special_texts, special_values, special_starts};
ghost use Rattle.sw_parse_table.specs.Expressions.{insert, special_value, special_expr};
ghost use Rattle.sw_parse_table.specs.Reads.{reader, reads, Reads, ReadsValue};
ghost use Rattle.sw_parse_expr_nodes.specs.Views.{insert_of};
ghost use Rattle.sw_parse_expr_lists.specs.Deeper.{Callable, Reading};

use crate::{called_at, owned_at};
use std::alloc::Global;
use sw_parse_expr_lists::inserted_at;
use sw_parse_expr_nodes::{
    Inserted, appended, begins_word, is_dollar, is_number, special_number_at, variable_at,
};
use sw_parse_grammar::ReadError;
use sw_parse_table::{Source, found, is_at};
use sw_parse_terminals::Terminal;
use sw_text::{List, Memory};
use sw_tree::Expr;

fn alone(alloc: Global, item: Inserted) -> Result<List<Inserted>, Memory>
    ensures { IfOk result (λ list. list ≡ item ∷ []) }
{
    let mut list = List::new(alloc);
    list.push(item)?;
    Ok(list)
}

/// Several behind the others.
pub(crate) fn more(list: List<Inserted>, items: List<Inserted>) -> Result<List<Inserted>, ReadError>
    ensures more { IfOk result (λ whole. map insert_of whole ≡ map insert_of list ++ map insert_of items) }
    ensures memory { IfErr result (λ error. error ≡ ReadError.Memory) }
{
    found(appended(list, items))
}

/// Whether text as it stands is at a place.
pub(crate) fn is_special_text(source: &Source, at: usize) -> bool
    ensures test { result ≡ member (terminal_at source.now at) special_texts }
    ensures within { IsTrue result → at < length source.now.lexemes.now }
{
    is_at(source, at, Terminal::Raw) || is_at(source, at, Terminal::SpecialComma)
}

/// Whether a value by itself begins at a place.
pub(crate) fn is_special_value(source: &Source, at: usize) -> bool
    ensures test { result ≡ member (terminal_at source.now at) special_values }
    ensures within { IsTrue result → at < length source.now.lexemes.now }
{
    is_number(source, at)
        || is_dollar(source, at)
        || is_at(source, at, Terminal::Owner)
        || begins_word(source, at)
}

/// Whether anything of the text begins at a place.
pub(crate) fn begins_special(source: &Source, at: usize) -> bool
    ensures test { result ≡ member (terminal_at source.now at) special_starts }
    ensures within { IsTrue result → at < length source.now.lexemes.now }
{
    is_special_text(source, at)
        || is_at(source, at, Terminal::Insert)
        || is_special_value(source, at)
        || is_at(source, at, Terminal::RawParen)
        || is_at(source, at, Terminal::RawBracket)
}

/// A number, a variable or a call.
fn special_expr_at<F: Fn(u8, usize) -> Result<(Expr, usize), ReadError> + Copy>(
    alloc: Global,
    deeper: F,
    source: &Source,
    levels: u8,
    at: usize,
) -> Result<(Expr, usize), ReadError>
    requires callable { Callable (F.Fn.pre deeper) levels }
    requires reading { Reading (F.Fn.post deeper) source.now levels }
    ensures { ReadsValue result (reads source.now levels special_expr at) }
{
    if is_number(source, at) {
        special_number_at(alloc, source, levels, at)
    } else if is_dollar(source, at) {
        variable_at(alloc, source, levels, at)
    } else if is_at(source, at, Terminal::Owner) {
        owned_at(alloc, deeper, source, levels, at)
    } else {
        called_at(alloc, deeper, source, levels, at)
    }
}

/// The same with its places.
#[tactic(auto, unfolding(sw_parse_grammar::specs::Readers::parse, sw_parse_table::specs::Expressions::special_value))]
fn special_value_at<F: Fn(u8, usize) -> Result<(Expr, usize), ReadError> + Copy>(
    alloc: Global,
    deeper: F,
    source: &Source,
    levels: u8,
    at: usize,
) -> Result<(Inserted, usize), ReadError>
    requires callable { Callable (F.Fn.pre deeper) levels }
    requires reading { Reading (F.Fn.post deeper) source.now levels }
    ensures { Reads (λ read. insert_of read ∷ []) result (reads source.now levels special_value at) }
{
    let (value, place) = special_expr_at(alloc, deeper, source, levels, at)?;
    let inserted = Inserted {
        from: at,
        to: place,
        value,
        stands: true,
    };
    Ok((inserted, place))
}

/// The same as a list of one.
pub(crate) fn value_alone_at<F: Fn(u8, usize) -> Result<(Expr, usize), ReadError> + Copy>(
    alloc: Global,
    deeper: F,
    source: &Source,
    levels: u8,
    at: usize,
) -> Result<(List<Inserted>, usize), ReadError>
    requires callable { Callable (F.Fn.pre deeper) levels }
    requires reading { Reading (F.Fn.post deeper) source.now levels }
    ensures { Reads (λ list. map insert_of list) result (reads source.now levels special_value at) }
{
    let (inserted, place) = special_value_at(alloc, deeper, source, levels, at)?;
    let list = found(alone(alloc, inserted))?;
    Ok((list, place))
}

/// `#{}` as a list of one.
#[tactic(auto, unfolding(sw_parse_table::specs::Expressions::insert))]
pub(crate) fn insert_alone_at<F: Fn(u8, usize) -> Result<(Expr, usize), ReadError> + Copy>(
    alloc: Global,
    deeper: F,
    source: &Source,
    levels: u8,
    at: usize,
) -> Result<(List<Inserted>, usize), ReadError>
    requires callable { Callable (F.Fn.pre deeper) levels }
    requires reading { Reading (F.Fn.post deeper) source.now levels }
    ensures { Reads (λ list. map insert_of list) result (reads source.now levels insert at) }
{
    let (inserted, place) = inserted_at(alloc, deeper, source, levels, at, Terminal::Insert)?;
    let list = found(alone(alloc, inserted))?;
    Ok((list, place))
}

/// A token that is read as it is.
#[tactic(auto, unfolding(sw_parse_grammar::specs::Readers::parse))]
pub(crate) fn raw_at(
    alloc: Global,
    source: &Source,
    levels: u8,
    at: usize,
) -> Result<(List<Inserted>, usize), ReadError>
    ensures { Reads (λ list. map insert_of list) result (reader source.now levels (skip special_texts) at) }
{
    if is_special_text(source, at) {
        Ok((List::new(alloc), at + 1))
    } else {
        Err(ReadError::Unexpected(at))
    }
}
