// The readers of whole expressions.
ghost use Rattle.std.specs.Prelude.{◌≡◌, ◌<◌, length, IsTrue};
ghost use Rattle.sw_parse_grammar.specs.Grammar.{member};
ghost use Rattle.sw_parse_table.specs.Sources.{terminal_at};
ghost use Rattle.sw_parse_table.specs.Expressions.{space, sum, expr};
ghost use Rattle.sw_parse_table.specs.Reads.{reads, ReadsValue};
ghost use Rattle.sw_expr_parse.specs.Alone.{enders, is_alone};

use crate::chain::chain_at;
use crate::space::space_by;
use std::alloc::Global;
use sw_parse_expr_lists::expr_at;
use sw_parse_expr_nodes::plain_text_of;
use sw_parse_grammar::ReadError;
use sw_parse_table::{Precedence, Source, found, is_at};
use sw_parse_terminals::Terminal;
use sw_tree::{Expr, ExprKind};

/// The expression without commas at a place, where so many levels of brackets may be opened, and the place behind it.
pub fn read_space(
    alloc: Global,
    source: &Source,
    levels: u8,
    at: usize,
) -> Result<(Expr, usize), ReadError>
    ensures { ReadsValue result (reads source.now levels space at) }
{
    space_by(
        alloc,
        |lower: u8, place: usize| -> Result<(Expr, usize), ReadError>
            requires { lower < levels }
            ensures { ReadsValue result (reads source.entry.now lower space place) }
        {
            let _ = &levels;
            read_space(alloc, source, lower, place)
        },
        source,
        levels,
        at,
    )
}

/// Whether a word stands at a place, and the statement ends behind it.
fn is_alone(source: &Source, at: usize) -> bool
    ensures test { result ≡ is_alone source.now at }
    ensures within { IsTrue result → at < length source.now.lexemes.now }
{
    is_at(source, at, Terminal::Word) && ends_statement(source, at + 1)
}

fn ends_statement(source: &Source, at: usize) -> bool
    ensures { result ≡ member (terminal_at source.now at) enders }
{
    is_at(source, at, Terminal::Semicolon) || is_at(source, at, Terminal::Close)
}

/// The word that stands there as a value: most values are one, which the descent through all operators needn't find.
fn word_alone_at(
    alloc: Global,
    source: &Source,
    levels: u8,
    at: usize,
) -> Result<(Expr, usize), ReadError>
    requires alone { IsTrue (is_alone source.now at) }
    requires within { at < length source.now.lexemes.now }
    ensures { ReadsValue result (reads source.now levels expr at) }
{
    let word = found(plain_text_of(alloc, source, at, at + 1))?;
    let value = Expr {
        kind: ExprKind::Word(word.parts),
        span: word.span,
    };
    Ok((value, at + 1))
}

/// The same of an expression with commas.
pub fn read_value(
    alloc: Global,
    source: &Source,
    levels: u8,
    at: usize,
) -> Result<(Expr, usize), ReadError>
    ensures { ReadsValue result (reads source.now levels expr at) }
{
    if is_alone(source, at) {
        return word_alone_at(alloc, source, levels, at);
    }
    expr_at(
        alloc,
        |lower: u8, place: usize| -> Result<(Expr, usize), ReadError>
            ensures { ReadsValue result (reads source.entry.now lower space place) }
        { read_space(alloc, source, lower, place) },
        source,
        levels,
        at,
    )
}

/// The same of a sum.
pub fn read_sum(
    alloc: Global,
    source: &Source,
    levels: u8,
    at: usize,
) -> Result<(Expr, usize), ReadError>
    ensures { ReadsValue result (reads source.now levels sum at) }
{
    chain_at(
        alloc,
        |lower: u8, place: usize| -> Result<(Expr, usize), ReadError>
            ensures { ReadsValue result (reads source.entry.now lower space place) }
        { read_space(alloc, source, lower, place) },
        source,
        levels,
        at,
        Precedence::Sum,
    )
}
