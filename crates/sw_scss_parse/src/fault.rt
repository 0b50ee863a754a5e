// How reading ends without a sheet: a fault at a whole token, or want of memory.
ghost use Rattle.std.specs.Prelude.{◌≡◌, slice_get, None, IfOk};
ghost use Rattle.std.specs.Str.{IsCharBoundary};
ghost use Rattle.sw_parse_table.specs.Sources.{bytes, span_from, lexeme_at, token_of};
ghost use Rattle.sw_expr_parse.specs.Readings.{token_span, fault_at, IsEnd, EndsBy};
ghost use Rattle.sw_scss_parse.specs.Readings.{end_without_tokens};

use sw_expr_parse::ReadEnd;
use sw_parse_grammar::ReadError;
use sw_parse_table::Source;
use sw_parse_terminals::Lexeme;
use sw_text::{Fault, FaultCode, Memory, Span};
use sw_tokens::Fault10;

/// How reading ends where the text has no tokens.
pub(crate) fn end_without_tokens(fault: Fault10) -> ReadEnd
    ensures { result ≡ end_without_tokens fault }
{
    match fault {
        Fault10::Fault(fault) => ReadEnd::Fault(fault),
        Fault10::Memory => ReadEnd::Memory,
    }
}

/// How reading ends where the reader of the grammar stops so.
pub(crate) fn end_of(source: &Source, error: ReadError) -> ReadEnd
    ensures { EndsBy source.now error result }
{
    match error {
        ReadError::Memory => ReadEnd::Memory,
        ReadError::Unexpected(at) => fault_end(FaultCode::Syntax, source, at),
        ReadError::TooDeep(at) => fault_end(FaultCode::Depth, source, at),
    }
}

#[tactic(auto, unfolding(sw_expr_parse::specs::Readings::fault_at))]
fn fault_end(code: FaultCode, source: &Source, at: usize) -> ReadEnd
    ensures { IsEnd (fault_at source.now code at) result }
{
    match token_span(source, at) {
        Ok(span) => ReadEnd::Fault(Fault { code, span }),
        Err(Memory) => ReadEnd::Memory,
    }
}

fn token_span(source: &Source, at: usize) -> Result<Span, Memory>
    ensures { IfOk result (λ span. span ≡ token_span source.now (token_of source.now (lexeme_at source.now at))) }
{
    match source.lexemes.get(at) {
        None => end_span(source),
        Some(lexeme) => lexeme_span(source, lexeme),
    }
}

fn lexeme_span(source: &Source, lexeme: &Lexeme) -> Result<Span, Memory>
    ensures { IfOk result (λ span. span ≡ token_span source.now (slice_get
        source.now.tokens.now.list lexeme.now.token)) }
{
    match source.tokens.get(lexeme.token) {
        None => end_span(source),
        Some(token) => span_from(source, token.from, token.to),
    }
}

fn end_span(source: &Source) -> Result<Span, Memory>
    ensures { IfOk result (λ span. span ≡ token_span source.now None) }
{
    let end = source.tokens.sheet().end();
    span_from(source, end, end)
}

fn span_from(source: &Source, from: u32, to: u32) -> Result<Span, Memory>
    requires from { IsCharBoundary (bytes source.now) from }
    requires to { IsCharBoundary (bytes source.now) to }
    ensures { IfOk result (λ span. span ≡ span_from source.now from to) }
{
    Ok(Span {
        file: source.tokens.sheet().path().share()?,
        from: source.tokens.sheet().pos(from),
        to: source.tokens.sheet().pos(to),
    })
}
