// Statements that are a word and raw text, or a word and a string.
ghost use Rattle.std.specs.Prelude.{◌≡◌, ◌∷◌, [], IfOk};
ghost use Rattle.sw_parse_table.specs.Parts.{Texts, States};
ghost use Rattle.sw_parse_table.specs.Actions.{to_import, to_extend, to_charset};
ghost use Rattle.sw_parse_table.specs.Statements.{import, extend, charset};
ghost use Rattle.sw_parse_table.specs.Reads.{reader, reads, Reads};
ghost use Rattle.sw_parse_expr_lists.specs.Deeper.{Callable, Reading};
ghost use Rattle.sw_parse_statement_text.specs.Rows.{worded_raw};

use crate::at::ended;
use crate::raw::raw_at;
use std::alloc::Global;
use sw_parse_expr_nodes::skipped;
use sw_parse_grammar::ReadError;
use sw_parse_table::{Source, found, span_between};
use sw_parse_terminals::Terminal;
use sw_text::Memory;
use sw_tree::{Expr, Extend, Import, Statement, Text};

/// The raw text behind a word.
#[tactic(auto, unfolding(sw_parse_grammar::specs::Readers::parse))]
fn worded_raw_at<F: Fn(u8, usize) -> Result<(Expr, usize), ReadError> + Copy>(
    alloc: Global,
    deeper: F,
    source: &Source,
    levels: u8,
    at: usize,
    word: Terminal,
) -> Result<(Text, usize), ReadError>
    requires callable { Callable (F.Fn.pre deeper) levels }
    requires reading { Reading (F.Fn.post deeper) source.now levels }
    ensures { Reads (λ text. Texts text ∷ []) result (reader source.now levels (worded_raw source.now word) at) }
{
    let place = skipped(source, levels, at, word)?;
    raw_at(alloc, deeper, source, levels, place)
}

fn import_of(source: &Source, at: usize, place: usize, text: Text) -> Result<Statement, Memory>
    ensures { IfOk result (λ statement. to_import source.now at place (Texts text ∷ []) ≡ States statement ∷ []) }
{
    let span = span_between(source, at, place)?;
    Ok(Statement::Import(Import { text, span }))
}

/// `@import` with all that stands behind it, and its end.
#[tactic(auto, unfolding(sw_parse_grammar::specs::Readers::parse, sw_parse_table::specs::Statements::import))]
pub fn import_at<F: Fn(u8, usize) -> Result<(Expr, usize), ReadError> + Copy>(
    alloc: Global,
    deeper: F,
    source: &Source,
    levels: u8,
    at: usize,
) -> Result<(Statement, usize), ReadError>
    requires callable { Callable (F.Fn.pre deeper) levels }
    requires reading { Reading (F.Fn.post deeper) source.now levels }
    ensures { Reads (λ statement. States statement ∷ []) result (reads source.now levels import at) }
{
    let (text, place) = worded_raw_at(alloc, deeper, source, levels, at, Terminal::AtImport)?;
    let statement = found(import_of(source, at, place, text))?;
    ended(source, levels, place, statement)
}

fn extend_of(source: &Source, at: usize, place: usize, text: Text) -> Result<Statement, Memory>
    ensures { IfOk result (λ statement. to_extend source.now at place (Texts text ∷ []) ≡ States statement ∷ []) }
{
    let span = span_between(source, at, place)?;
    Ok(Statement::Extend(Extend { text, span }))
}

/// `@extend` with all that stands behind it, and its end.
#[tactic(auto, unfolding(sw_parse_grammar::specs::Readers::parse, sw_parse_table::specs::Statements::extend))]
pub fn extend_at<F: Fn(u8, usize) -> Result<(Expr, usize), ReadError> + Copy>(
    alloc: Global,
    deeper: F,
    source: &Source,
    levels: u8,
    at: usize,
) -> Result<(Statement, usize), ReadError>
    requires callable { Callable (F.Fn.pre deeper) levels }
    requires reading { Reading (F.Fn.post deeper) source.now levels }
    ensures { Reads (λ statement. States statement ∷ []) result (reads source.now levels extend at) }
{
    let (text, place) = worded_raw_at(alloc, deeper, source, levels, at, Terminal::AtExtend)?;
    let statement = found(extend_of(source, at, place, text))?;
    ended(source, levels, place, statement)
}

fn charset_of(source: &Source, at: usize, place: usize) -> Result<Statement, Memory>
    ensures { IfOk result (λ statement. to_charset source.now at place [] ≡ States statement ∷ []) }
{
    Ok(Statement::Charset(span_between(source, at, place)?))
}

/// `@charset` with its string, and its end.
#[tactic(auto, unfolding(sw_parse_grammar::specs::Readers::parse, sw_parse_table::specs::Statements::charset))]
pub fn charset_at(source: &Source, levels: u8, at: usize) -> Result<(Statement, usize), ReadError>
    ensures { Reads (λ statement. States statement ∷ []) result (reads source.now levels charset at) }
{
    let place = skipped(source, levels, at, Terminal::AtCharset)?;
    let place = skipped(source, levels, place, Terminal::Plain)?;
    let statement = found(charset_of(source, at, place))?;
    ended(source, levels, place, statement)
}
