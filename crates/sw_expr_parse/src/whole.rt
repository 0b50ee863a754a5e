// From a sheet's tokens to an expression.
ghost use Rattle.std.specs.Prelude.{◌≡◌, ◌∷◌, [], ◌-◌, ◌≤◌, length, slice_get, None, IfOk};
ghost use Rattle.std.specs.Str.{IsCharBoundary};
ghost use Rattle.sw_parse_grammar.specs.Readers.{ReadsForm};
ghost use Rattle.sw_parse_table.specs.Parts.{Values};
ghost use Rattle.sw_parse_table.specs.Sources.{bytes, text_of, span_from, lexeme_at, token_at, token_of};
ghost use Rattle.sw_parse_table.specs.Table.{forms, opening, closing};
ghost use Rattle.sw_expr_parse.specs.Forms.{form_of};
ghost use Rattle.sw_expr_parse.specs.Readings.{token_span, fault_at, IsEnd, EndsBy, ReadsSource, ReadsExpr};

use crate::end::ReadEnd;
use crate::form::{Form, mode_of};
use crate::read::{read_space, read_sum, read_value};
use std::alloc::Global;
use sw_parse_grammar::ReadError;
use sw_parse_lexemes::value_lexemes_of;
use sw_parse_table::Source;
use sw_parse_terminals::Lexeme;
use sw_text::{Fault, FaultCode, Memory, Span};
use sw_tokens::Tokens;
use sw_tree::Expr;

// How many levels of brackets may be open.
const LEVELS: u8 = 128;

/// The expression of a form that stands at a place in a sheet's tokens, where `depth` levels of brackets are open, and
/// the place of the token behind it. It is as long as it can be: where the tokens up to its end aren't of the form, the
/// fault is at the token with which none can go on, or at the end of the text; where one of them opens level 129, it is
/// of depth, at the first that does. It goes over all tokens of the sheet; what reads many expressions of one makes its
/// lexemes once, and calls `read_value` and the like.
pub fn read_expr(
    alloc: Global,
    tokens: &Tokens,
    form: Form,
    at: usize,
    depth: u8,
) -> Result<(Expr, usize), ReadEnd>
    requires within { at ≤ length tokens.now.list }
    requires depth { depth ≤ LEVELS }
    ensures { ReadsExpr tokens.now form at (LEVELS - depth) result }
{
    let lexemes = value_lexemes_of(alloc, tokens, mode_of(form), at)?;
    let source = Source {
        tokens,
        lexemes: lexemes.as_slice(),
    };
    read_source(alloc, &source, form, LEVELS - depth)
}

fn read_source(
    alloc: Global,
    source: &Source,
    form: Form,
    levels: u8,
) -> Result<(Expr, usize), ReadEnd>
    ensures { ReadsSource source.now levels form result }
{
    match read_form(alloc, source, form, levels) {
        Ok((value, place)) => Ok((value, token_at(source, place))),
        Err(error) => Err(end_of(source, error)),
    }
}

fn end_of(source: &Source, error: ReadError) -> ReadEnd
    ensures { EndsBy source.now error result }
{
    match error {
        ReadError::Memory => ReadEnd::Memory,
        ReadError::Unexpected(at) => fault_end(FaultCode::Syntax, source, at),
        ReadError::TooDeep(at) => fault_end(FaultCode::Depth, source, at),
    }
}

fn read_form(
    alloc: Global,
    source: &Source,
    form: Form,
    levels: u8,
) -> Result<(Expr, usize), ReadError>
    ensures { ReadsForm (forms source.now) (text_of source.now) opening closing levels (form_of form) 0 (λ read. Values
        read.0 ∷ []) (λ read. read.1) result }
{
    match form {
        Form::Expr => read_value(alloc, source, levels, 0),
        Form::Space => read_space(alloc, source, levels, 0),
        Form::Bound => read_space(alloc, source, levels, 0),
        Form::Sum => read_sum(alloc, source, levels, 0),
    }
}

#[tactic(auto, unfolding(sw_parse_table::specs::Sources::token_at))]
fn token_at(source: &Source, at: usize) -> usize
    ensures { result ≡ token_at source.now at }
{
    match source.lexemes.get(at) {
        None => source.tokens.len(),
        Some(lexeme) => lexeme.token,
    }
}

#[tactic(auto, unfolding(crate::specs::Readings::fault_at))]
fn fault_end(code: FaultCode, source: &Source, at: usize) -> ReadEnd
    ensures { IsEnd (fault_at source.now code at) result }
{
    match token_span(source, at) {
        Ok(span) => ReadEnd::Fault(Fault { code, span }),
        Err(Memory) => ReadEnd::Memory,
    }
}

fn token_span(source: &Source, at: usize) -> Result<Span, Memory>
    ensures { IfOk result (λ span. span ≡ token_span source.now (token_of source.now (lexeme_at source.now at))) }
{
    match source.lexemes.get(at) {
        None => end_span(source),
        Some(lexeme) => lexeme_span(source, lexeme),
    }
}

fn lexeme_span(source: &Source, lexeme: &Lexeme) -> Result<Span, Memory>
    ensures { IfOk result (λ span. span ≡ token_span source.now (slice_get
        source.now.tokens.now.list lexeme.now.token)) }
{
    match source.tokens.get(lexeme.token) {
        None => end_span(source),
        Some(token) => span_from(source, token.from, token.to),
    }
}

fn end_span(source: &Source) -> Result<Span, Memory>
    ensures { IfOk result (λ span. span ≡ token_span source.now None) }
{
    let end = source.tokens.sheet().end();
    span_from(source, end, end)
}

fn span_from(source: &Source, from: u32, to: u32) -> Result<Span, Memory>
    requires from { IsCharBoundary (bytes source.now) from }
    requires to { IsCharBoundary (bytes source.now) to }
    ensures { IfOk result (λ span. span ≡ span_from source.now from to) }
{
    Ok(Span {
        file: source.tokens.sheet().path().share()?,
        from: source.tokens.sheet().pos(from),
        to: source.tokens.sheet().pos(to),
    })
}
