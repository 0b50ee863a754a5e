// What stands in parentheses and in brackets, with these.
ghost use Rattle.std.specs.Prelude.{◌≡◌, ◌∷◌, [], IfOk, IfErr};
ghost use Rattle.sw_parse_table.specs.Parts.{Values};
ghost use Rattle.sw_parse_table.specs.Values.{to_parens, to_brackets};
ghost use Rattle.sw_parse_table.specs.Expressions.{parens, brackets};
ghost use Rattle.sw_parse_table.specs.Reads.{reads, ReadsValue};
ghost use Rattle.sw_parse_expr_nodes.specs.Views.{inner_parts, value_parts};
ghost use Rattle.sw_parse_expr_lists.specs.Deeper.{Callable, Reading};

use std::alloc::Global;
use sw_parse_expr_lists::{inside_at, items_at};
use sw_parse_expr_nodes::{Inner, bracketed, enclosed, given_up, is_paren};
use sw_parse_grammar::ReadError;
use sw_parse_table::{Source, found, is_at, span_between};
use sw_parse_terminals::Terminal;
use sw_text::Memory;
use sw_tree::Expr;

fn parens_of(
    alloc: Global,
    source: &Source,
    at: usize,
    place: usize,
    inner: Inner,
) -> Result<Expr, Memory>
    ensures { IfOk result (λ value. to_parens source.now at place (inner_parts inner) ≡ Values value ∷ []) }
{
    match span_between(source, at, place) {
        Ok(span) => enclosed(alloc, inner, span),
        Err(error) => Err(given_up(inner, error)),
    }
}

fn parens_read(
    alloc: Global,
    source: &Source,
    at: usize,
    place: usize,
    inner: Inner,
) -> Result<Expr, ReadError>
    ensures made { IfOk result (λ value. to_parens source.now at place (inner_parts inner) ≡ Values value ∷ []) }
    ensures memory { IfErr result (λ error. error ≡ ReadError.Memory) }
{
    found(parens_of(alloc, source, at, place, inner))
}

/// A map, a list, a value or nothing, in parentheses.
#[tactic(auto, unfolding(sw_parse_grammar::specs::Readers::parse, sw_parse_table::specs::Expressions::parens))]
pub fn parens_at<F: Fn(u8, usize) -> Result<(Expr, usize), ReadError> + Copy>(
    alloc: Global,
    deeper: F,
    source: &Source,
    levels: u8,
    at: usize,
) -> Result<(Expr, usize), ReadError>
    requires callable { Callable (F.Fn.pre deeper) levels }
    requires reading { Reading (F.Fn.post deeper) source.now levels }
    ensures { ReadsValue result (reads source.now levels parens at) }
{
    if !is_paren(source, at) {
        return Err(ReadError::Unexpected(at));
    }
    if levels == 0 {
        return Err(ReadError::TooDeep(at));
    }
    let (inner, place) = inside_at(alloc, deeper, source, levels - 1, at + 1)?;
    if !is_at(source, place, Terminal::ParenEnd) {
        return Err(given_up(inner, ReadError::Unexpected(place)));
    }
    let value = parens_read(alloc, source, at, place + 1, inner)?;
    Ok((value, place + 1))
}

fn brackets_of(
    alloc: Global,
    source: &Source,
    at: usize,
    place: usize,
    inner: Option<Expr>,
) -> Result<Expr, Memory>
    ensures { IfOk result (λ value. to_brackets source.now at place (value_parts inner) ≡ Values value ∷ []) }
{
    match span_between(source, at, place) {
        Ok(span) => bracketed(alloc, inner, span),
        Err(error) => Err(given_up(inner, error)),
    }
}

fn brackets_read(
    alloc: Global,
    source: &Source,
    at: usize,
    place: usize,
    inner: Option<Expr>,
) -> Result<Expr, ReadError>
    ensures made { IfOk result (λ value. to_brackets source.now at place (value_parts inner) ≡ Values value ∷ []) }
    ensures memory { IfErr result (λ error. error ≡ ReadError.Memory) }
{
    found(brackets_of(alloc, source, at, place, inner))
}

/// A list, a value or nothing, in brackets.
#[tactic(auto, unfolding(sw_parse_grammar::specs::Readers::parse, sw_parse_table::specs::Expressions::brackets))]
pub fn brackets_at<F: Fn(u8, usize) -> Result<(Expr, usize), ReadError> + Copy>(
    alloc: Global,
    deeper: F,
    source: &Source,
    levels: u8,
    at: usize,
) -> Result<(Expr, usize), ReadError>
    requires callable { Callable (F.Fn.pre deeper) levels }
    requires reading { Reading (F.Fn.post deeper) source.now levels }
    ensures { ReadsValue result (reads source.now levels brackets at) }
{
    if !is_at(source, at, Terminal::Bracket) {
        return Err(ReadError::Unexpected(at));
    }
    if levels == 0 {
        return Err(ReadError::TooDeep(at));
    }
    let (inner, place) = items_at(alloc, deeper, source, levels - 1, at + 1)?;
    if !is_at(source, place, Terminal::BracketEnd) {
        return Err(given_up(inner, ReadError::Unexpected(place)));
    }
    let value = brackets_read(alloc, source, at, place + 1, inner)?;
    Ok((value, place + 1))
}
