// Lists and maps, over a reader of space lists.
ghost use Rattle.std.specs.Prelude.{◌≡◌, ◌∷◌, [], map, IfOk, IfErr};
ghost use Rattle.sw_parse_grammar.specs.Grammar.{sep};
ghost use Rattle.sw_parse_terminals.specs.declared.terminal.Terminal.TheVariants.{Comma};
ghost use Rattle.sw_parse_terminals.specs.Numbers.{just};
ghost use Rattle.sw_parse_table.specs.Parts.{Values, Pairs, Marks};
ghost use Rattle.sw_parse_table.specs.Sources.{span_between};
ghost use Rattle.sw_parse_table.specs.Values.{ends_with_comma, listed};
ghost use Rattle.sw_parse_table.specs.Expressions.{space, list_item, expr, pair, colon_space, pairs_rest, items_rest, items, inside};
ghost use Rattle.sw_parse_table.specs.Reads.{reader, reads, Reads, ReadsValue};
ghost use Rattle.sw_parse_expr_nodes.specs.Views.{inner_parts, value_parts};
ghost use Rattle.sw_parse_expr_lists.specs.Deeper.{CallableAt, ReadingAt};

use std::alloc::Global;
use sw_parse_expr_nodes::{Inner, ends_with_comma, given_up, listed, skipped};
use sw_parse_grammar::ReadError;
use sw_parse_table::{Source, begins_value, found, goes_on, is_at, span_between};
use sw_parse_terminals::Terminal;
use sw_text::{List, Memory};
use sw_tree::{Expr, Pair};

/// A list without commas, at these levels.
pub(crate) fn space_in<F: Fn(u8, usize) -> Result<(Expr, usize), ReadError> + Copy>(
    deeper: F,
    source: &Source,
    levels: u8,
    at: usize,
) -> Result<(Expr, usize), ReadError>
    requires callable { CallableAt (F.Fn.pre deeper) levels }
    requires reading { ReadingAt (F.Fn.post deeper) source.now levels }
    ensures { ReadsValue result (reads source.now levels space at) }
{
    deeper(levels, at)
}

/// What stands in brackets: an expression, or nothing.
pub fn items_at<F: Fn(u8, usize) -> Result<(Expr, usize), ReadError> + Copy>(
    alloc: Global,
    deeper: F,
    source: &Source,
    levels: u8,
    at: usize,
) -> Result<(Option<Expr>, usize), ReadError>
    requires callable { CallableAt (F.Fn.pre deeper) levels }
    requires reading { ReadingAt (F.Fn.post deeper) source.now levels }
    ensures { Reads (λ x. value_parts x) result (reads source.now levels items at) }
{
    if !begins_value(source, at) {
        return Ok((None, at));
    }
    let (value, place) = expr_at(alloc, deeper, source, levels, at)?;
    Ok((Some(value), place))
}

fn list_of(
    source: &Source,
    at: usize,
    place: usize,
    first: Expr,
    rest: List<Expr>,
) -> Result<Expr, Memory>
    ensures { IfOk result (λ value. listed (span_between source.now at place) (ends_with_comma source.now place) (first
        ∷ rest) ≡ Values value ∷ []) }
{
    let comma = ends_with_comma(source, place);
    if rest.is_empty() && !comma {
        return Ok(first);
    }
    match span_between(source, at, place) {
        Ok(span) => listed(first, rest, comma, span),
        Err(error) => Err(given_up((first, rest), error)),
    }
}

fn list_read(
    source: &Source,
    at: usize,
    place: usize,
    first: Expr,
    rest: List<Expr>,
) -> Result<Expr, ReadError>
    ensures made { IfOk result (λ value. listed (span_between source.now at place) (ends_with_comma source.now place)
        (first ∷ rest) ≡ Values value ∷ []) }
    ensures memory { IfErr result (λ error. error ≡ ReadError.Memory) }
{
    found(list_of(source, at, place, first, rest))
}

/// The items behind the first of a list with commas.
#[tactic(auto, unfolding(sw_parse_grammar::specs::Readers::parse))]
fn list_items_at<F: Fn(u8, usize) -> Result<(Expr, usize), ReadError> + Copy>(
    alloc: Global,
    deeper: F,
    source: &Source,
    levels: u8,
    at: usize,
) -> Result<(List<Expr>, usize), ReadError>
    requires callable { CallableAt (F.Fn.pre deeper) levels }
    requires reading { ReadingAt (F.Fn.post deeper) source.now levels }
    ensures { Reads (λ x. map Values x) result (reader source.now levels (sep (just Comma) (list_item source.now)) at) }
{
    let mut list = Vec::new(alloc);
    let mut place = at;
    'items: while is_at(source, place, Terminal::Comma) {
        if !goes_on(source, place + 1) {
            return Ok((List::from_vec(list), place + 1));
        }
        let (item, next) = space_in(deeper, source, levels, place + 1)?;
        list.push(item)?;
        place = next;
    }
    Ok((List::from_vec(list), place))
}

/// The expression at a place, and the place behind it; or the place of the first token with which none goes on, or of
/// the first that opens a level too many.
#[tactic(auto, using(sw_parse_expr_nodes::proofs::Collected::collected), unfolding(sw_parse_grammar::specs::Readers::parse, sw_parse_table::specs::Expressions::expr))]
pub fn expr_at<F: Fn(u8, usize) -> Result<(Expr, usize), ReadError> + Copy>(
    alloc: Global,
    deeper: F,
    source: &Source,
    levels: u8,
    at: usize,
) -> Result<(Expr, usize), ReadError>
    requires callable { CallableAt (F.Fn.pre deeper) levels }
    requires reading { ReadingAt (F.Fn.post deeper) source.now levels }
    ensures { ReadsValue result (reads source.now levels expr at) }
{
    let (first, place) = space_in(deeper, source, levels, at)?;
    let (rest, place) = list_items_at(alloc, deeper, source, levels, place)?;
    let value = found(list_of(source, at, place, first, rest))?;
    Ok((value, place))
}

/// A colon, and the list without commas behind it.
#[tactic(auto, unfolding(sw_parse_grammar::specs::Readers::parse, sw_parse_table::specs::Expressions::colon_space))]
pub(crate) fn colon_space_at<F: Fn(u8, usize) -> Result<(Expr, usize), ReadError> + Copy>(
    alloc: Global,
    deeper: F,
    source: &Source,
    levels: u8,
    at: usize,
) -> Result<(Expr, usize), ReadError>
    requires callable { CallableAt (F.Fn.pre deeper) levels }
    requires reading { ReadingAt (F.Fn.post deeper) source.now levels }
    ensures { ReadsValue result (reads source.now levels colon_space at) }
{
    let place = skipped(source, levels, at, Terminal::Colon)?;
    space_in(deeper, source, levels, place)
}

#[tactic(auto, unfolding(sw_parse_grammar::specs::Readers::parse, sw_parse_table::specs::Expressions::pair))]
fn pair_at<F: Fn(u8, usize) -> Result<(Expr, usize), ReadError> + Copy>(
    alloc: Global,
    deeper: F,
    source: &Source,
    levels: u8,
    at: usize,
) -> Result<(Pair, usize), ReadError>
    requires callable { CallableAt (F.Fn.pre deeper) levels }
    requires reading { ReadingAt (F.Fn.post deeper) source.now levels }
    ensures { Reads (λ x. Pairs x ∷ []) result (reads source.now levels pair at) }
{
    let (key, place) = space_in(deeper, source, levels, at)?;
    let (value, place) = colon_space_at(alloc, deeper, source, levels, place)?;
    Ok((Pair { key, value }, place))
}

#[tactic(auto, unfolding(sw_parse_grammar::specs::Readers::parse))]
fn pairs_at<F: Fn(u8, usize) -> Result<(Expr, usize), ReadError> + Copy>(
    alloc: Global,
    deeper: F,
    source: &Source,
    levels: u8,
    at: usize,
) -> Result<(List<Pair>, usize), ReadError>
    requires callable { CallableAt (F.Fn.pre deeper) levels }
    requires reading { ReadingAt (F.Fn.post deeper) source.now levels }
    ensures { Reads (λ x. map Pairs x) result (reader source.now levels (sep (just Comma) (pair source.now)) at) }
{
    let mut list = Vec::new(alloc);
    let mut place = at;
    'items: while is_at(source, place, Terminal::Comma) {
        if !begins_value(source, place + 1) {
            return Ok((List::from_vec(list), place + 1));
        }
        let (item, next) = pair_at(alloc, deeper, source, levels, place + 1)?;
        list.push(item)?;
        place = next;
    }
    Ok((List::from_vec(list), place))
}

#[tactic(auto, unfolding(sw_parse_grammar::specs::Readers::parse, sw_parse_table::specs::Expressions::pairs_rest))]
fn pairs_rest_at<F: Fn(u8, usize) -> Result<(Expr, usize), ReadError> + Copy>(
    alloc: Global,
    deeper: F,
    source: &Source,
    levels: u8,
    at: usize,
) -> Result<((Expr, List<Pair>), usize), ReadError>
    requires callable { CallableAt (F.Fn.pre deeper) levels }
    requires reading { ReadingAt (F.Fn.post deeper) source.now levels }
    ensures { Reads (λ x. Marks 0 ∷ Values x.0 ∷ map Pairs x.1) result (reads source.now levels pairs_rest at) }
{
    let (value, place) = colon_space_at(alloc, deeper, source, levels, at)?;
    let (rest, place) = pairs_at(alloc, deeper, source, levels, place)?;
    Ok(((value, rest), place))
}

#[tactic(auto, unfolding(sw_parse_grammar::specs::Readers::parse, sw_parse_table::specs::Expressions::items_rest))]
fn items_rest_at<F: Fn(u8, usize) -> Result<(Expr, usize), ReadError> + Copy>(
    alloc: Global,
    deeper: F,
    source: &Source,
    levels: u8,
    at: usize,
) -> Result<(List<Expr>, usize), ReadError>
    requires callable { CallableAt (F.Fn.pre deeper) levels }
    requires reading { ReadingAt (F.Fn.post deeper) source.now levels }
    ensures { Reads (λ x. Marks 1 ∷ map Values x) result (reads source.now levels items_rest at) }
{
    list_items_at(alloc, deeper, source, levels, at)
}

/// What stands in parentheses: the pairs of a map, an expression, or nothing.
#[tactic(auto, using(sw_parse_expr_nodes::proofs::Collected::collected))]
pub fn inside_at<F: Fn(u8, usize) -> Result<(Expr, usize), ReadError> + Copy>(
    alloc: Global,
    deeper: F,
    source: &Source,
    levels: u8,
    at: usize,
) -> Result<(Inner, usize), ReadError>
    requires callable { CallableAt (F.Fn.pre deeper) levels }
    requires reading { ReadingAt (F.Fn.post deeper) source.now levels }
    ensures { Reads (λ x. inner_parts x) result (reads source.now levels inside at) }
{
    if !begins_value(source, at) {
        return Ok((Inner::Nothing, at));
    }
    let (first, place) = space_in(deeper, source, levels, at)?;
    if is_at(source, place, Terminal::Colon) {
        return match pairs_rest_at(alloc, deeper, source, levels, place) {
            Ok(((value, rest), place)) => {
                Ok((Inner::Pairs(Pair { key: first, value }, rest), place))
            }
            Err(error) => Err(given_up(first, error)),
        };
    }
    match items_rest_at(alloc, deeper, source, levels, place) {
        Ok((rest, place)) => {
            let value = list_read(source, at, place, first, rest)?;
            Ok((Inner::Value(value), place))
        }
        Err(error) => Err(given_up(first, error)),
    }
}
