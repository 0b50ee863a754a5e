// Statements of a word and a value.
ghost use Rattle.std.specs.Prelude.{◌≡◌, ◌∷◌, [], IfOk};
ghost use Rattle.sw_parse_table.specs.Parts.{Values, States};
ghost use Rattle.sw_parse_table.specs.Statements.{warn, debug, error};
ghost use Rattle.sw_parse_table.specs.Actions.{to_return, to_say};
ghost use Rattle.sw_parse_table.specs.Reads.{reader, reads, Reads};
ghost use Rattle.sw_parse_statement_heads.specs.Rows.{say_row, returning, return_row};

use crate::at::ended;
use crate::value::worded_value_at;
use std::alloc::Global;
use sw_parse_expr_nodes::given_up;
use sw_parse_grammar::ReadError;
use sw_parse_table::{Source, found, span_between};
use sw_parse_terminals::Terminal;
use sw_text::Memory;
use sw_tree::{Expr, Level, Return, Say, Statement};

fn say_of(
    source: &Source,
    at: usize,
    place: usize,
    value: Expr,
    level: Level,
) -> Result<Statement, Memory>
    ensures { IfOk result (λ statement. to_say source.now level at place (Values value ∷ []) ≡ States statement ∷ []) }
{
    match span_between(source, at, place) {
        Ok(span) => Ok(Statement::Say(Say { level, value, span })),
        Err(error) => Err(given_up(value, error)),
    }
}

/// A message of a level, and its end.
#[tactic(auto, unfolding(sw_parse_grammar::specs::Readers::parse))]
fn say_at(
    alloc: Global,
    source: &Source,
    levels: u8,
    at: usize,
    word: Terminal,
    level: Level,
) -> Result<(Statement, usize), ReadError>
    ensures { Reads (λ statement. States statement ∷ []) result (reader source.now levels (say_row source.now word level)
        at) }
{
    let (value, place) = worded_value_at(alloc, source, levels, at, word)?;
    let statement = found(say_of(source, at, place, value, level))?;
    ended(source, levels, place, statement)
}

/// `@warn` and its end.
#[tactic(auto, unfolding(sw_parse_table::specs::Statements::warn))]
pub fn warn_at(
    alloc: Global,
    source: &Source,
    levels: u8,
    at: usize,
) -> Result<(Statement, usize), ReadError>
    ensures { Reads (λ statement. States statement ∷ []) result (reads source.now levels warn at) }
{
    say_at(alloc, source, levels, at, Terminal::AtWarn, Level::Warn)
}

/// `@debug` and its end.
#[tactic(auto, unfolding(sw_parse_table::specs::Statements::debug))]
pub fn debug_at(
    alloc: Global,
    source: &Source,
    levels: u8,
    at: usize,
) -> Result<(Statement, usize), ReadError>
    ensures { Reads (λ statement. States statement ∷ []) result (reads source.now levels debug at) }
{
    say_at(alloc, source, levels, at, Terminal::AtDebug, Level::Debug)
}

/// `@error` and its end.
#[tactic(auto, unfolding(sw_parse_table::specs::Statements::error))]
pub fn error_at(
    alloc: Global,
    source: &Source,
    levels: u8,
    at: usize,
) -> Result<(Statement, usize), ReadError>
    ensures { Reads (λ statement. States statement ∷ []) result (reads source.now levels error at) }
{
    say_at(alloc, source, levels, at, Terminal::AtError, Level::Error)
}

fn return_of(source: &Source, at: usize, place: usize, value: Expr) -> Result<Statement, Memory>
    ensures { IfOk result (λ statement. to_return source.now at place (Values value ∷ []) ≡ States statement ∷ []) }
{
    match span_between(source, at, place) {
        Ok(span) => Ok(Statement::Return(Return { value, span })),
        Err(error) => Err(given_up(value, error)),
    }
}

/// `@return` and its end, by the row.
#[tactic(auto, unfolding(sw_parse_grammar::specs::Readers::parse))]
fn return_row_at(
    alloc: Global,
    source: &Source,
    levels: u8,
    at: usize,
) -> Result<(Statement, usize), ReadError>
    ensures { Reads (λ statement. States statement ∷ []) result (reader source.now levels (return_row source.now) at) }
{
    let (value, place) = worded_value_at(alloc, source, levels, at, Terminal::AtReturn)?;
    let statement = found(return_of(source, at, place, value))?;
    ended(source, levels, place, statement)
}

/// `@return` and its end.
pub fn return_at(
    alloc: Global,
    source: &Source,
    levels: u8,
    at: usize,
) -> Result<(Statement, usize), ReadError>
    ensures { Reads (λ statement. States statement ∷ []) result (reads source.now levels returning at) }
{
    return_row_at(alloc, source, levels, at)
}
