// `@content`.
ghost use Rattle.std.specs.Prelude.{◌≡◌, ◌∷◌, [], IfOk};
ghost use Rattle.sw_parse_table.specs.Parts.{States};
ghost use Rattle.sw_parse_table.specs.Statements.{content};
ghost use Rattle.sw_parse_table.specs.Actions.{to_content, content_call};
ghost use Rattle.sw_parse_table.specs.Reads.{reader, reads, Reads};
ghost use Rattle.sw_parse_statement_heads.specs.CallableHeads.{arguments_parts};
ghost use Rattle.sw_parse_statement_heads.specs.CallableRows.{content_row};

use crate::arguments::optional_arguments_at;
use crate::ended;
use std::alloc::Global;
use sw_parse_expr_nodes::{given_up, skipped};
use sw_parse_grammar::ReadError;
use sw_parse_table::{Source, found, span_between};
use sw_parse_terminals::Terminal;
use sw_text::{List, Memory};
use sw_tree::{Argument, ContentCall, Statement};

fn content_by(
    source: &Source,
    at: usize,
    place: usize,
    arguments: List<Argument>,
) -> Result<Statement, Memory>
    ensures { IfOk result (λ statement. content_call source.now at place arguments ≡ States statement ∷ []) }
{
    match span_between(source, at, place) {
        Ok(span) => Ok(Statement::Content(ContentCall { arguments, span })),
        Err(error) => Err(given_up(arguments, error)),
    }
}

fn content_of(
    alloc: Global,
    source: &Source,
    at: usize,
    place: usize,
    arguments: Option<List<Argument>>,
) -> Result<Statement, Memory>
    ensures { IfOk result (λ statement. to_content source.now at place (arguments_parts arguments) ≡ States statement
        ∷ []) }
{
    match arguments {
        None => content_by(source, at, place, List::new(alloc)),
        Some(arguments) => content_by(source, at, place, arguments),
    }
}

/// The arguments behind `@content`.
#[tactic(auto, unfolding(sw_parse_grammar::specs::Readers::parse))]
fn content_arguments_at(
    alloc: Global,
    source: &Source,
    levels: u8,
    at: usize,
) -> Result<(Option<List<Argument>>, usize), ReadError>
    ensures { Reads arguments_parts result (reader source.now levels (content_row source.now) at) }
{
    let place = skipped(source, levels, at, Terminal::AtContent)?;
    optional_arguments_at(alloc, source, levels, place)
}

/// `@content` with its arguments, and its end.
#[tactic(auto, unfolding(sw_parse_grammar::specs::Readers::parse, sw_parse_table::specs::Statements::content))]
pub fn content_at(
    alloc: Global,
    source: &Source,
    levels: u8,
    at: usize,
) -> Result<(Statement, usize), ReadError>
    ensures { Reads (λ statement. States statement ∷ []) result (reads source.now levels content at) }
{
    let (arguments, place) = content_arguments_at(alloc, source, levels, at)?;
    let statement = found(content_of(alloc, source, at, place, arguments))?;
    ended(source, levels, place, statement)
}
