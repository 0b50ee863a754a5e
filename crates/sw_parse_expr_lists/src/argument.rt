// The arguments of a call, over a reader of space lists.
ghost use Rattle.std.specs.Prelude.{◌≡◌, ◌∷◌, [], map, IfOk};
ghost use Rattle.sw_parse_grammar.specs.Grammar.{sep};
ghost use Rattle.sw_parse_terminals.specs.declared.terminal.Terminal.TheVariants.{Comma};
ghost use Rattle.sw_parse_terminals.specs.Numbers.{just};
ghost use Rattle.sw_parse_table.specs.Parts.{Place, Values, Argues, Arguments};
ghost use Rattle.sw_parse_table.specs.Values.{to_named};
ghost use Rattle.sw_parse_table.specs.Expressions.{named_argument, plain_argument, argument, arguing, arguments_in};
ghost use Rattle.sw_parse_table.specs.Reads.{reader, reads, Reads};
ghost use Rattle.sw_parse_expr_lists.specs.Deeper.{CallableAt, ReadingAt, Callable, Reading};

use crate::list::{colon_space_at, space_in};
use std::alloc::Global;
use sw_parse_expr_nodes::{begins_argument, given_up, kept, skipped};
use sw_parse_grammar::ReadError;
use sw_parse_table::{Source, bytes_at, found, is_at};
use sw_parse_terminals::Terminal;
use sw_text::{List, Memory, Name};
use sw_tree::{Argument, Expr};

fn named_of(
    alloc: Global,
    source: &Source,
    at: usize,
    place: usize,
    name: usize,
    value: Expr,
) -> Result<Argument, Memory>
    ensures { IfOk result (λ argument. to_named source.now at place (Place name ∷ Values value ∷ []) ≡ Argues argument
        ∷ []) }
{
    match Name::dashed(alloc, bytes_at(source, name)) {
        Ok(name) => Ok(Argument {
            name: Some(name),
            value,
            spread: false,
        }),
        Err(error) => Err(given_up(value, error)),
    }
}

#[tactic(auto, unfolding(sw_parse_grammar::specs::Readers::parse, sw_parse_table::specs::Expressions::named_argument))]
fn named_argument_at<F: Fn(u8, usize) -> Result<(Expr, usize), ReadError> + Copy>(
    alloc: Global,
    deeper: F,
    source: &Source,
    levels: u8,
    at: usize,
) -> Result<(Argument, usize), ReadError>
    requires callable { CallableAt (F.Fn.pre deeper) levels }
    requires reading { ReadingAt (F.Fn.post deeper) source.now levels }
    ensures { Reads (λ x. Argues x ∷ []) result (reads source.now levels named_argument at) }
{
    let place = skipped(source, levels, at, Terminal::DollarNamed)?;
    let (name, place) = kept(source, levels, place, Terminal::VariableName)?;
    let (value, place) = colon_space_at(alloc, deeper, source, levels, place)?;
    let argument = found(named_of(alloc, source, at, place, name, value))?;
    Ok((argument, place))
}

#[tactic(auto, unfolding(sw_parse_grammar::specs::Readers::parse, sw_parse_table::specs::Expressions::plain_argument))]
fn plain_argument_at<F: Fn(u8, usize) -> Result<(Expr, usize), ReadError> + Copy>(
    alloc: Global,
    deeper: F,
    source: &Source,
    levels: u8,
    at: usize,
) -> Result<(Argument, usize), ReadError>
    requires callable { CallableAt (F.Fn.pre deeper) levels }
    requires reading { ReadingAt (F.Fn.post deeper) source.now levels }
    ensures { Reads (λ x. Argues x ∷ []) result (reads source.now levels plain_argument at) }
{
    if is_at(source, at, Terminal::DollarNamed) {
        return Err(ReadError::Unexpected(at));
    }
    let (value, place) = space_in(deeper, source, levels, at)?;
    let spread = is_at(source, place, Terminal::Ellipsis);
    let argument = Argument {
        name: None,
        value,
        spread,
    };
    if spread {
        return Ok((argument, place + 1));
    }
    Ok((argument, place))
}

fn argument_at<F: Fn(u8, usize) -> Result<(Expr, usize), ReadError> + Copy>(
    alloc: Global,
    deeper: F,
    source: &Source,
    levels: u8,
    at: usize,
) -> Result<(Argument, usize), ReadError>
    requires callable { CallableAt (F.Fn.pre deeper) levels }
    requires reading { ReadingAt (F.Fn.post deeper) source.now levels }
    ensures { Reads (λ x. Argues x ∷ []) result (reads source.now levels argument at) }
{
    if is_at(source, at, Terminal::DollarNamed) {
        named_argument_at(alloc, deeper, source, levels, at)
    } else {
        plain_argument_at(alloc, deeper, source, levels, at)
    }
}

#[tactic(auto, unfolding(sw_parse_grammar::specs::Readers::parse))]
fn arguments_at<F: Fn(u8, usize) -> Result<(Expr, usize), ReadError> + Copy>(
    alloc: Global,
    deeper: F,
    source: &Source,
    levels: u8,
    at: usize,
) -> Result<(List<Argument>, usize), ReadError>
    requires callable { CallableAt (F.Fn.pre deeper) levels }
    requires reading { ReadingAt (F.Fn.post deeper) source.now levels }
    ensures { Reads (λ x. map Argues x) result (reader source.now levels (sep (just Comma) (argument source.now)) at) }
{
    let mut list = Vec::new(alloc);
    let mut place = at;
    'items: while is_at(source, place, Terminal::Comma) {
        if !begins_argument(source, place + 1) {
            return Ok((List::from_vec(list), place + 1));
        }
        let (item, next) = argument_at(alloc, deeper, source, levels, place + 1)?;
        list.push(item)?;
        place = next;
    }
    Ok((List::from_vec(list), place))
}

fn arguments_of(first: Argument, rest: List<Argument>) -> Result<List<Argument>, Memory>
    ensures { IfOk result (λ list. list ≡ first ∷ rest) }
{
    let mut list = rest.into_vec();
    list.insert(0, first)?;
    Ok(List::from_vec(list))
}

/// The arguments of a call.
#[tactic(auto, using(sw_parse_expr_nodes::proofs::Collected::collected))]
fn arguing_at<F: Fn(u8, usize) -> Result<(Expr, usize), ReadError> + Copy>(
    alloc: Global,
    deeper: F,
    source: &Source,
    levels: u8,
    at: usize,
) -> Result<(List<Argument>, usize), ReadError>
    requires callable { CallableAt (F.Fn.pre deeper) levels }
    requires reading { ReadingAt (F.Fn.post deeper) source.now levels }
    ensures { Reads (λ x. Arguments x ∷ []) result (reads source.now levels arguing at) }
{
    if !begins_argument(source, at) {
        return Ok((List::new(alloc), at));
    }
    let (first, place) = argument_at(alloc, deeper, source, levels, at)?;
    let (rest, place) = arguments_at(alloc, deeper, source, levels, place)?;
    let arguments = found(arguments_of(first, rest))?;
    Ok((arguments, place))
}

/// The arguments of a call with their parentheses, which open a level, and the place behind them.
#[tactic(auto, unfolding(sw_parse_grammar::specs::Readers::parse, sw_parse_table::specs::Expressions::arguments_in))]
pub fn arguments_in_at<F: Fn(u8, usize) -> Result<(Expr, usize), ReadError> + Copy>(
    alloc: Global,
    deeper: F,
    source: &Source,
    levels: u8,
    at: usize,
) -> Result<(List<Argument>, usize), ReadError>
    requires callable { Callable (F.Fn.pre deeper) levels }
    requires reading { Reading (F.Fn.post deeper) source.now levels }
    ensures { Reads (λ x. Arguments x ∷ []) result (reads source.now levels arguments_in at) }
{
    if !is_at(source, at, Terminal::CallParen) {
        return Err(ReadError::Unexpected(at));
    }
    if levels == 0 {
        return Err(ReadError::TooDeep(at));
    }
    let (arguments, place) = arguing_at(alloc, deeper, source, levels - 1, at + 1)?;
    if !is_at(source, place, Terminal::ParenEnd) {
        return Err(ReadError::Unexpected(place));
    }
    Ok((arguments, place + 1))
}
