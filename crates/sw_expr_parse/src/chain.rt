// Operands with operators between them.
ghost use Rattle.std.specs.Prelude.{◌≡◌, ◌+◌, ◌∷◌, [], map, IfOk, IfErr, MatchOption};
ghost use Rattle.sw_parse_grammar.specs.Grammar.{many};
ghost use Rattle.sw_parse_table.specs.Parts.{Values, Links};
ghost use Rattle.sw_parse_table.specs.Sources.{span_between};
ghost use Rattle.sw_parse_table.specs.Values.{chained};
ghost use Rattle.sw_parse_table.specs.Expressions.{link, side, chain};
ghost use Rattle.sw_parse_table.specs.Reads.{reader, Reads, ReadsValue};
ghost use Rattle.sw_parse_expr_lists.specs.Deeper.{Callable, Reading};
ghost use Rattle.sw_expr_parse.specs.Binding.{rank, tighter, next, looser};

use crate::operand::unary_at;
use std::alloc::Global;
use sw_parse_expr_nodes::{chained, given_up, is_operator};
use sw_parse_grammar::ReadError;
use sw_parse_table::{Precedence, Source, found, operator_at, span_between};
use sw_text::{List, Memory};
use sw_tree::{Expr, Link};

/// How the operators bind that bind next more than these.
fn tighter(precedence: Precedence) -> Option<Precedence>
    ensures value { result ≡ tighter precedence }
    ensures lower { MatchOption result (Unit {0}) (λ other. rank other + 1 ≡ rank precedence) }
{
    match precedence {
        Precedence::Product => None,
        Precedence::Sum => Some(Precedence::Product),
        Precedence::Relation => Some(Precedence::Sum),
        Precedence::Equality => Some(Precedence::Relation),
        Precedence::And => Some(Precedence::Equality),
        Precedence::Or => Some(Precedence::And),
    }
}

/// How many bind more.
fn rank(precedence: Precedence) -> u8
    ensures { result ≡ rank precedence }
{
    precedence as u8
}

/// How those bind that bind next less.
fn next(precedence: Precedence) -> Precedence
    ensures { result ≡ next precedence }
{
    match precedence {
        Precedence::Product => Precedence::Sum,
        Precedence::Sum => Precedence::Relation,
        Precedence::Relation => Precedence::Equality,
        Precedence::Equality => Precedence::And,
        _ => Precedence::Or,
    }
}

/// The same up to a last one.
fn looser(precedence: Precedence, last: Precedence) -> Option<Precedence>
    ensures { result ≡ looser precedence last }
{
    if rank(precedence) == rank(last) {
        None
    } else {
        Some(next(precedence))
    }
}

fn chain_of(
    alloc: Global,
    source: &Source,
    at: usize,
    place: usize,
    first: Expr,
    rest: List<Link>,
) -> Result<Expr, Memory>
    ensures { IfOk result (λ value. chained (span_between source.now at place) (first ∷ []) rest ≡ Values value ∷ []) }
{
    match span_between(source, at, place) {
        Ok(span) => chained(alloc, first, rest, span),
        Err(error) => Err(given_up((first, rest), error)),
    }
}

fn chain_read(
    alloc: Global,
    source: &Source,
    at: usize,
    place: usize,
    first: Expr,
    rest: List<Link>,
) -> Result<Expr, ReadError>
    ensures made { IfOk result (λ value. chained (span_between source.now at place) (first ∷ []) rest ≡ Values value
        ∷ []) }
    ensures memory { IfErr result (λ error. error ≡ ReadError.Memory) }
{
    found(chain_of(alloc, source, at, place, first, rest))
}

/// An operator that binds so, and the operand behind it.
#[cycle(chain)]
#[tactic(auto, unfolding(sw_parse_grammar::specs::Readers::parse, sw_parse_table::specs::Expressions::link))]
fn link_at<F: Fn(u8, usize) -> Result<(Expr, usize), ReadError> + Copy>(
    alloc: Global,
    deeper: F,
    source: &Source,
    levels: u8,
    at: usize,
    precedence: Precedence,
) -> Result<(Link, usize), ReadError>
    requires callable { Callable (F.Fn.pre deeper) levels }
    requires reading { Reading (F.Fn.post deeper) source.now levels }
    ensures { Reads (λ link. Links link ∷ []) result (reader source.now levels (link source.now precedence
        (side source.now precedence)) at) }
{
    if !is_operator(source, at, precedence) {
        return Err(ReadError::Unexpected(at));
    }
    let (operand, place) = side_at(alloc, deeper, source, levels, at + 1, precedence)?;
    let operator = operator_at(source, at);
    Ok((Link { operator, operand }, place))
}

/// Any number of these.
#[cycle(chain)]
#[tactic(auto, unfolding(sw_parse_grammar::specs::Readers::parse))]
fn links_at<F: Fn(u8, usize) -> Result<(Expr, usize), ReadError> + Copy>(
    alloc: Global,
    deeper: F,
    source: &Source,
    levels: u8,
    at: usize,
    precedence: Precedence,
) -> Result<(List<Link>, usize), ReadError>
    requires callable { Callable (F.Fn.pre deeper) levels }
    requires reading { Reading (F.Fn.post deeper) source.now levels }
    ensures { Reads (λ links. map Links links) result (reader source.now levels (many (link source.now precedence
        (side source.now precedence))) at) }
{
    let mut list = Vec::new(alloc);
    let mut place = at;
    'items: while is_operator(source, place, precedence) {
        let (item, next) = link_at(alloc, deeper, source, levels, place, precedence)?;
        list.push(item)?;
        place = next;
    }
    Ok((List::from_vec(list), place))
}

/// What stands on a side of an operator that binds so.
#[cycle(chain)]
fn side_at<F: Fn(u8, usize) -> Result<(Expr, usize), ReadError> + Copy>(
    alloc: Global,
    deeper: F,
    source: &Source,
    levels: u8,
    at: usize,
    precedence: Precedence,
) -> Result<(Expr, usize), ReadError>
    requires callable { Callable (F.Fn.pre deeper) levels }
    requires reading { Reading (F.Fn.post deeper) source.now levels }
    ensures { ReadsValue result (reader source.now levels (side source.now precedence) at) }
{
    match tighter(precedence) {
        None => unary_at(alloc, deeper, source, levels, at),
        Some(tighter) => chain_at(alloc, deeper, source, levels, at, tighter),
    }
}

/// An operand with the operators behind it that bind so or more.
#[cycle(chain)]
pub(crate) fn chain_at<F: Fn(u8, usize) -> Result<(Expr, usize), ReadError> + Copy>(
    alloc: Global,
    deeper: F,
    source: &Source,
    levels: u8,
    at: usize,
    precedence: Precedence,
) -> Result<(Expr, usize), ReadError>
    requires callable { Callable (F.Fn.pre deeper) levels }
    requires reading { Reading (F.Fn.post deeper) source.now levels }
    ensures { ReadsValue result (reader source.now levels (chain source.now precedence) at) }
{
    let (first, behind) = unary_at(alloc, deeper, source, levels, at)?;
    let mut value = first;
    let mut place = behind;
    let mut binding = Some(Precedence::Product);
    'bindings: while let Some(current) = binding {
        binding = looser(current, precedence);
        if !is_operator(source, place, current) {
            continue;
        }
        let (rest, next) = links_at(alloc, deeper, source, levels, place, current)?;
        value = chain_read(alloc, source, at, next, value, rest)?;
        place = next;
    }
    Ok((value, place))
}
