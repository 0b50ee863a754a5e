// Operands with the signs before them.
ghost use Rattle.std.specs.Prelude.{◌≡◌, ◌∷◌, [], IfOk};
ghost use Rattle.sw_parse_table.specs.Parts.{Values};
ghost use Rattle.sw_parse_table.specs.Sources.{span_between};
ghost use Rattle.sw_parse_table.specs.Values.{prefixed};
ghost use Rattle.sw_parse_table.specs.Expressions.{literal, other, primary, unary};
ghost use Rattle.sw_parse_table.specs.Reads.{reads, ReadsValue};
ghost use Rattle.sw_parse_expr_lists.specs.Deeper.{Callable, Reading};

use std::alloc::Global;
use sw_parse_expr_lists::prefixes_at;
use sw_parse_expr_nodes::{
    begins_word, constant_value_at, given_up, hash_at, important_at, is_bang, is_constant,
    is_dollar, is_number, is_paren, number_at, parent_at, prefixed, quoted_at, range_at, url_at,
    variable_at,
};
use sw_parse_expr_operands::{
    brackets_at, called_at, owned_at, parens_at, special_at, template_at, url_template_at,
};
use sw_parse_grammar::ReadError;
use sw_parse_table::{Source, begins_literal, found, is_at, span_between};
use sw_parse_terminals::Terminal;
use sw_text::{List, Memory};
use sw_tree::{Expr, Sign};

/// What holds no expression but in `#{}`.
fn literal_at<F: Fn(u8, usize) -> Result<(Expr, usize), ReadError> + Copy>(
    alloc: Global,
    deeper: F,
    source: &Source,
    levels: u8,
    at: usize,
) -> Result<(Expr, usize), ReadError>
    requires callable { Callable (F.Fn.pre deeper) levels }
    requires reading { Reading (F.Fn.post deeper) source.now levels }
    ensures { ReadsValue result (reads source.now levels literal at) }
{
    if is_number(source, at) {
        number_at(alloc, source, levels, at)
    } else if is_at(source, at, Terminal::Quoted) {
        quoted_at(alloc, source, levels, at)
    } else if is_at(source, at, Terminal::Template) {
        template_at(alloc, deeper, source, levels, at)
    } else if is_at(source, at, Terminal::Hash) {
        hash_at(alloc, source, levels, at)
    } else if is_constant(source, at) {
        constant_value_at(source, levels, at)
    } else if is_at(source, at, Terminal::Url) {
        url_at(alloc, source, levels, at)
    } else {
        url_template_at(alloc, deeper, source, levels, at)
    }
}

/// A word, a call, or what begins with a sign of its own.
fn other_at<F: Fn(u8, usize) -> Result<(Expr, usize), ReadError> + Copy>(
    alloc: Global,
    deeper: F,
    source: &Source,
    levels: u8,
    at: usize,
) -> Result<(Expr, usize), ReadError>
    requires callable { Callable (F.Fn.pre deeper) levels }
    requires reading { Reading (F.Fn.post deeper) source.now levels }
    ensures { ReadsValue result (reads source.now levels other at) }
{
    if begins_word(source, at) {
        called_at(alloc, deeper, source, levels, at)
    } else if is_at(source, at, Terminal::Range) {
        range_at(alloc, source, levels, at)
    } else if is_at(source, at, Terminal::Ampersand) {
        parent_at(source, levels, at)
    } else if is_bang(source, at) {
        important_at(source, levels, at)
    } else if is_paren(source, at) {
        parens_at(alloc, deeper, source, levels, at)
    } else {
        brackets_at(alloc, deeper, source, levels, at)
    }
}

/// An operand without a sign.
fn primary_at<F: Fn(u8, usize) -> Result<(Expr, usize), ReadError> + Copy>(
    alloc: Global,
    deeper: F,
    source: &Source,
    levels: u8,
    at: usize,
) -> Result<(Expr, usize), ReadError>
    requires callable { Callable (F.Fn.pre deeper) levels }
    requires reading { Reading (F.Fn.post deeper) source.now levels }
    ensures { ReadsValue result (reads source.now levels primary at) }
{
    if begins_literal(source, at) {
        literal_at(alloc, deeper, source, levels, at)
    } else if is_at(source, at, Terminal::Special) {
        special_at(alloc, deeper, source, levels, at)
    } else if is_dollar(source, at) {
        variable_at(alloc, source, levels, at)
    } else if is_at(source, at, Terminal::Owner) {
        owned_at(alloc, deeper, source, levels, at)
    } else {
        other_at(alloc, deeper, source, levels, at)
    }
}

fn signed_of(
    alloc: Global,
    source: &Source,
    at: usize,
    place: usize,
    signs: List<Sign>,
    operand: Expr,
) -> Result<Expr, Memory>
    ensures { IfOk result (λ value. prefixed (span_between source.now at place) signs (operand ∷ []) ≡ Values value
        ∷ []) }
{
    if signs.is_empty() {
        return Ok(operand);
    }
    match span_between(source, at, place) {
        Ok(span) => prefixed(alloc, signs, operand, span),
        Err(error) => Err(given_up((signs, operand), error)),
    }
}

/// An operand with the signs before it.
#[tactic(auto, using(sw_parse_expr_nodes::proofs::Collected::collected), unfolding(sw_parse_grammar::specs::Readers::parse, sw_parse_table::specs::Expressions::unary))]
pub(crate) fn unary_at<F: Fn(u8, usize) -> Result<(Expr, usize), ReadError> + Copy>(
    alloc: Global,
    deeper: F,
    source: &Source,
    levels: u8,
    at: usize,
) -> Result<(Expr, usize), ReadError>
    requires callable { Callable (F.Fn.pre deeper) levels }
    requires reading { Reading (F.Fn.post deeper) source.now levels }
    ensures { ReadsValue result (reads source.now levels unary at) }
{
    let (signs, place) = prefixes_at(alloc, source, levels, at)?;
    let (operand, place) = primary_at(alloc, deeper, source, levels, place)?;
    let value = found(signed_of(alloc, source, at, place, signs, operand))?;
    Ok((value, place))
}
