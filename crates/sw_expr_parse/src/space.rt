// Operands with white space between them.
ghost use Rattle.std.specs.Prelude.{◌≡◌, ◌∷◌, map, IfOk, []};
ghost use Rattle.sw_parse_grammar.specs.Grammar.{many};
ghost use Rattle.sw_parse_table.specs.Parts.{Values};
ghost use Rattle.sw_parse_table.specs.Sources.{span_between};
ghost use Rattle.sw_parse_table.specs.Values.{spaced};
ghost use Rattle.sw_parse_table.specs.Expressions.{space_item, space, disjunction};
ghost use Rattle.sw_parse_table.specs.Reads.{reader, reads, Reads, ReadsValue};
ghost use Rattle.sw_parse_expr_lists.specs.Deeper.{Callable, Reading};

use crate::chain::chain_at;
use std::alloc::Global;
use sw_parse_expr_nodes::{given_up, spaced};
use sw_parse_grammar::ReadError;
use sw_parse_table::{Precedence, Source, found, goes_on, span_between};
use sw_text::{List, Memory};
use sw_tree::Expr;

fn space_of(
    source: &Source,
    at: usize,
    place: usize,
    first: Expr,
    rest: List<Expr>,
) -> Result<Expr, Memory>
    ensures { IfOk result (λ value. spaced (span_between source.now at place) (first ∷ rest) ≡ Values value ∷ []) }
{
    if rest.is_empty() {
        return Ok(first);
    }
    match span_between(source, at, place) {
        Ok(span) => spaced(first, rest, span),
        Err(error) => Err(given_up((first, rest), error)),
    }
}

/// Any number of operands behind the first.
#[tactic(auto, unfolding(sw_parse_grammar::specs::Readers::parse))]
fn space_items_at<F: Fn(u8, usize) -> Result<(Expr, usize), ReadError> + Copy>(
    alloc: Global,
    deeper: F,
    source: &Source,
    levels: u8,
    at: usize,
) -> Result<(List<Expr>, usize), ReadError>
    requires callable { Callable (F.Fn.pre deeper) levels }
    requires reading { Reading (F.Fn.post deeper) source.now levels }
    ensures { Reads (λ values. map Values values) result (reader source.now levels (many (space_item source.now)) at) }
{
    let mut list = Vec::new(alloc);
    let mut place = at;
    'items: while goes_on(source, place) {
        let (item, next) = chain_at(alloc, deeper, source, levels, place, Precedence::Or)?;
        list.push(item)?;
        place = next;
    }
    Ok((List::from_vec(list), place))
}

/// A space list, over a reader of those where fewer levels may be opened.
#[tactic(auto, using(sw_parse_expr_nodes::proofs::Collected::collected), unfolding(sw_parse_grammar::specs::Readers::parse, sw_parse_table::specs::Expressions::space))]
pub(crate) fn space_by<F: Fn(u8, usize) -> Result<(Expr, usize), ReadError> + Copy>(
    alloc: Global,
    deeper: F,
    source: &Source,
    levels: u8,
    at: usize,
) -> Result<(Expr, usize), ReadError>
    requires callable { Callable (F.Fn.pre deeper) levels }
    requires reading { Reading (F.Fn.post deeper) source.now levels }
    ensures { ReadsValue result (reads source.now levels space at) }
{
    let (first, place) = chain_at(alloc, deeper, source, levels, at, Precedence::Or)?;
    let (rest, place) = space_items_at(alloc, deeper, source, levels, place)?;
    let value = found(space_of(source, at, place, first, rest))?;
    Ok((value, place))
}
