// Expressions of one token or a few.
ghost use Rattle.std.specs.Prelude.{◌≡◌, ◌∷◌, [], IfOk};
ghost use Rattle.sw_parse_grammar.specs.Grammar.{skip, seq, alt};
ghost use Rattle.sw_parse_grammar.specs.Readers.{Answers};
ghost use Rattle.sw_parse_terminals.specs.declared.terminal.Terminal.TheVariants.{Sign, Number};
ghost use Rattle.sw_parse_terminals.specs.Numbers.{just};
ghost use Rattle.sw_parse_table.specs.Parts.{Place, Values};
ghost use Rattle.sw_parse_table.specs.Values.{to_number, to_written, to_quoted, to_hash, to_constant, to_url, to_variable, to_range, to_parent, to_important};
ghost use Rattle.sw_parse_table.specs.Expressions.{number, special_number, quoted, hash, constant, url, variable, range, parent, important};
ghost use Rattle.sw_parse_table.specs.Reads.{reader, reads, ReadsValue};

use crate::at::{is_bang, is_constant, is_dollar, kept, skipped};
use crate::numeral::numeral;
use crate::text::plain_parts_of;
use std::alloc::Global;
use sw_parse_grammar::ReadError;
use sw_parse_table::{
    Source, bytes_at, bytes_between, constant_at, decoded_at, found, is_at, span_between,
};
use sw_parse_terminals::Terminal;
use sw_text::{Memory, Name};
use sw_tree::{Expr, ExprKind, Parts};

fn number_of(alloc: Global, source: &Source, at: usize, place: usize) -> Result<Expr, Memory>
    ensures { IfOk result (λ value. to_number source.now at place [] ≡ Values value ∷ []) }
{
    let span = span_between(source, at, place)?;
    Ok(Expr {
        kind: ExprKind::Number(numeral(alloc, bytes_between(source, at, place))?),
        span,
    })
}

/// The place behind a number and its sign.
#[tactic(auto, unfolding(sw_parse_grammar::specs::Readers::parse))]
fn behind_number(source: &Source, levels: u8, at: usize) -> Result<usize, ReadError>
    ensures { Answers (λ _. []) (λ next. next) result (reader source.now levels (alt (seq (skip (just Sign)) (skip
        (just Number))) (skip (just Number))) at) }
{
    if is_at(source, at, Terminal::Sign) {
        skipped(source, levels, at + 1, Terminal::Number)
    } else {
        skipped(source, levels, at, Terminal::Number)
    }
}

/// A number with its sign.
#[tactic(auto, unfolding(sw_parse_grammar::specs::Readers::parse, sw_parse_table::specs::Expressions::number))]
pub fn number_at(
    alloc: Global,
    source: &Source,
    levels: u8,
    at: usize,
) -> Result<(Expr, usize), ReadError>
    ensures { ReadsValue result (reads source.now levels number at) }
{
    let place = behind_number(source, levels, at)?;
    let value = found(number_of(alloc, source, at, place))?;
    Ok((value, place))
}

fn special_number_of(
    alloc: Global,
    source: &Source,
    at: usize,
    place: usize,
) -> Result<Expr, Memory>
    ensures { IfOk result (λ value. to_written source.now at place [] ≡ Values value ∷ []) }
{
    let text = Name::new(alloc, bytes_between(source, at, place))?;
    let span = span_between(source, at, place)?;
    Ok(Expr {
        kind: ExprKind::Special(Parts::Plain(text)),
        span,
    })
}

/// A number with its sign in the text of a special function: it is read as it is written.
#[tactic(auto, unfolding(sw_parse_grammar::specs::Readers::parse, sw_parse_table::specs::Expressions::special_number))]
pub fn special_number_at(
    alloc: Global,
    source: &Source,
    levels: u8,
    at: usize,
) -> Result<(Expr, usize), ReadError>
    ensures { ReadsValue result (reads source.now levels special_number at) }
{
    let place = behind_number(source, levels, at)?;
    let value = found(special_number_of(alloc, source, at, place))?;
    Ok((value, place))
}

fn quoted_of(alloc: Global, source: &Source, at: usize, place: usize) -> Result<Expr, Memory>
    ensures { IfOk result (λ value. to_quoted source.now at place [] ≡ Values value ∷ []) }
{
    let span = span_between(source, at, place)?;
    Ok(Expr {
        kind: ExprKind::Quoted(Parts::Plain(decoded_at(alloc, source, at)?)),
        span,
    })
}

/// A string without `#{}`.
#[tactic(auto, unfolding(sw_parse_grammar::specs::Readers::parse, sw_parse_table::specs::Expressions::quoted))]
pub fn quoted_at(
    alloc: Global,
    source: &Source,
    levels: u8,
    at: usize,
) -> Result<(Expr, usize), ReadError>
    ensures { ReadsValue result (reads source.now levels quoted at) }
{
    let place = skipped(source, levels, at, Terminal::Quoted)?;
    let value = found(quoted_of(alloc, source, at, place))?;
    Ok((value, place))
}

fn hash_of(alloc: Global, source: &Source, at: usize, place: usize) -> Result<Expr, Memory>
    ensures { IfOk result (λ value. to_hash source.now at place [] ≡ Values value ∷ []) }
{
    let span = span_between(source, at, place)?;
    Ok(Expr {
        kind: ExprKind::Hash(Name::new(alloc, bytes_between(source, at, place))?),
        span,
    })
}

/// `#` with what stands directly behind it.
#[tactic(auto, unfolding(sw_parse_grammar::specs::Readers::parse, sw_parse_table::specs::Expressions::hash))]
pub fn hash_at(
    alloc: Global,
    source: &Source,
    levels: u8,
    at: usize,
) -> Result<(Expr, usize), ReadError>
    ensures { ReadsValue result (reads source.now levels hash at) }
{
    let place = skipped(source, levels, at, Terminal::Hash)?;
    let place = skipped(source, levels, place, Terminal::HashName)?;
    let value = found(hash_of(alloc, source, at, place))?;
    Ok((value, place))
}

fn constant_of(source: &Source, at: usize, place: usize) -> Result<Expr, Memory>
    ensures { IfOk result (λ value. to_constant source.now at place [] ≡ Values value ∷ []) }
{
    let span = span_between(source, at, place)?;
    Ok(Expr {
        kind: ExprKind::Constant(constant_at(source, at)),
        span,
    })
}

/// `true`, `false` or `null`.
#[tactic(auto, unfolding(sw_parse_grammar::specs::Readers::parse, sw_parse_table::specs::Expressions::constant))]
pub fn constant_value_at(source: &Source, levels: u8, at: usize) -> Result<(Expr, usize), ReadError>
    ensures { ReadsValue result (reads source.now levels constant at) }
{
    if !is_constant(source, at) {
        return Err(ReadError::Unexpected(at));
    }
    let value = found(constant_of(source, at, at + 1))?;
    Ok((value, at + 1))
}

fn url_of(alloc: Global, source: &Source, at: usize, place: usize) -> Result<Expr, Memory>
    ensures { IfOk result (λ value. to_url source.now at place [] ≡ Values value ∷ []) }
{
    let span = span_between(source, at, place)?;
    Ok(Expr {
        kind: ExprKind::Url(plain_parts_of(alloc, source, at, place)?),
        span,
    })
}

/// `url(..)` without `#{}`.
#[tactic(auto, unfolding(sw_parse_grammar::specs::Readers::parse, sw_parse_table::specs::Expressions::url))]
pub fn url_at(
    alloc: Global,
    source: &Source,
    levels: u8,
    at: usize,
) -> Result<(Expr, usize), ReadError>
    ensures { ReadsValue result (reads source.now levels url at) }
{
    let place = skipped(source, levels, at, Terminal::Url)?;
    let value = found(url_of(alloc, source, at, place))?;
    Ok((value, place))
}

fn variable_of(
    alloc: Global,
    source: &Source,
    at: usize,
    name: usize,
    place: usize,
) -> Result<Expr, Memory>
    ensures { IfOk result (λ value. to_variable source.now at place (Place name ∷ []) ≡ Values value ∷ []) }
{
    let span = span_between(source, at, place)?;
    Ok(Expr {
        kind: ExprKind::Variable(Name::dashed(alloc, bytes_at(source, name))?),
        span,
    })
}

/// `$name`.
#[tactic(auto, unfolding(sw_parse_grammar::specs::Readers::parse, sw_parse_table::specs::Expressions::variable))]
pub fn variable_at(
    alloc: Global,
    source: &Source,
    levels: u8,
    at: usize,
) -> Result<(Expr, usize), ReadError>
    ensures { ReadsValue result (reads source.now levels variable at) }
{
    if !is_dollar(source, at) {
        return Err(ReadError::Unexpected(at));
    }
    let (name, place) = kept(source, levels, at + 1, Terminal::VariableName)?;
    let value = found(variable_of(alloc, source, at, name, place))?;
    Ok((value, place))
}

fn range_of(alloc: Global, source: &Source, at: usize, place: usize) -> Result<Expr, Memory>
    ensures { IfOk result (λ value. to_range source.now at place [] ≡ Values value ∷ []) }
{
    let span = span_between(source, at, place)?;
    Ok(Expr {
        kind: ExprKind::Word(Parts::Plain(Name::new(alloc, bytes_between(source, at, place))?)),
        span,
    })
}

/// A unicode range.
#[tactic(auto, unfolding(sw_parse_grammar::specs::Readers::parse, sw_parse_table::specs::Expressions::range))]
pub fn range_at(
    alloc: Global,
    source: &Source,
    levels: u8,
    at: usize,
) -> Result<(Expr, usize), ReadError>
    ensures { ReadsValue result (reads source.now levels range at) }
{
    let place = skipped(source, levels, at, Terminal::Range)?;
    let value = found(range_of(alloc, source, at, place))?;
    Ok((value, place))
}

fn parent_of(source: &Source, at: usize, place: usize) -> Result<Expr, Memory>
    ensures { IfOk result (λ value. to_parent source.now at place [] ≡ Values value ∷ []) }
{
    let span = span_between(source, at, place)?;
    Ok(Expr {
        kind: ExprKind::Parent,
        span,
    })
}

/// `&`.
#[tactic(auto, unfolding(sw_parse_grammar::specs::Readers::parse, sw_parse_table::specs::Expressions::parent))]
pub fn parent_at(source: &Source, levels: u8, at: usize) -> Result<(Expr, usize), ReadError>
    ensures { ReadsValue result (reads source.now levels parent at) }
{
    let place = skipped(source, levels, at, Terminal::Ampersand)?;
    let value = found(parent_of(source, at, place))?;
    Ok((value, place))
}

fn important_of(source: &Source, at: usize, place: usize) -> Result<Expr, Memory>
    ensures { IfOk result (λ value. to_important source.now at place [] ≡ Values value ∷ []) }
{
    let span = span_between(source, at, place)?;
    Ok(Expr {
        kind: ExprKind::Important,
        span,
    })
}

/// `!important`.
#[tactic(auto, unfolding(sw_parse_grammar::specs::Readers::parse, sw_parse_table::specs::Expressions::important))]
pub fn important_at(source: &Source, levels: u8, at: usize) -> Result<(Expr, usize), ReadError>
    ensures { ReadsValue result (reads source.now levels important at) }
{
    if !is_bang(source, at) {
        return Err(ReadError::Unexpected(at));
    }
    let place = skipped(source, levels, at + 1, Terminal::Important)?;
    let value = found(important_of(source, at, place))?;
    Ok((value, place))
}
