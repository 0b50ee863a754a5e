// The readers of statements, one behind the other.
ghost use Rattle.std.specs.Prelude.{◌≡◌, ◌<◌, ◌++◌, map, OnOk, IfErr};
ghost use Rattle.sw_parse_grammar.specs.Grammar.{many};
ghost use Rattle.sw_parse_table.specs.Parts.{States};
ghost use Rattle.sw_parse_css.specs.Seen.{seen};
ghost use Rattle.sw_parse_css.specs.Rows.{statement_of, statement_in};
ghost use Rattle.sw_parse_css.specs.Reads.{reader, ReadsStatements};
ghost use Rattle.sw_parse_css.specs.Inner.{Callable, Reading};

use crate::body::Within;
use crate::statement::{begins_statement, statement_at};
use std::alloc::Global;
use sw_parse_grammar::ReadError;
use sw_parse_table::{Source, found};
use sw_text::{List, Memory};
use sw_tree::Statement;

fn added(list: &mut List<Statement>, item: Option<Statement>) -> Result<(), Memory>
    ensures { OnOk result (map States list.new ≡ map States list.old ++ statement_in item) }
{
    match item {
        None => Ok(()),
        Some(statement) => list.push(statement),
    }
}

/// Puts what was read behind the others.
fn grown(list: &mut List<Statement>, item: Option<Statement>) -> Result<(), ReadError>
    ensures more { OnOk result (map States list.new ≡ map States list.old ++ statement_in item) }
    ensures memory { IfErr result (λ error. error ≡ ReadError.Memory) }
{
    found(added(list, item))
}

/// Any number of statements, over a reader of those in blocks.
#[tactic(auto, unfolding(sw_parse_grammar::specs::Readers::parse))]
fn statements_by<S: Fn(Within, u8, usize) -> Result<(List<Statement>, usize), ReadError> + Copy>(
    alloc: Global,
    inner: S,
    source: &Source,
    levels: u8,
    at: usize,
    within: Within,
) -> Result<(List<Statement>, usize), ReadError>
    requires callable { Callable (S.Fn.pre inner) levels }
    requires reading { Reading (S.Fn.post inner) (seen source.now) levels }
    ensures { ReadsStatements result (reader (seen source.now) levels (many (statement_of (seen source.now) within))
        at) }
{
    let mut list = List::new(alloc);
    let mut place = at;
    'items: while begins_statement(source, place, within) {
        let (item, next) = statement_at(alloc, inner, source, levels, place, within)?;
        grown(&mut list, item)?;
        place = next;
    }
    Ok((list, place))
}

/// The statements from a place on, where so many levels of brackets may be opened, and the place behind them.
pub(crate) fn read_statements(
    alloc: Global,
    source: &Source,
    levels: u8,
    at: usize,
    within: Within,
) -> Result<(List<Statement>, usize), ReadError>
    ensures { ReadsStatements result (reader (seen source.now) levels (many (statement_of (seen source.now) within))
        at) }
{
    statements_by(
        alloc,
        |inside: Within, lower: u8, place: usize| -> Result<(List<Statement>, usize), ReadError>
            requires { lower < levels }
            ensures { ReadsStatements result (reader (seen source.entry.now) lower (many (statement_of
                (seen source.entry.now) inside)) place) }
        {
            let _ = &levels;
            read_statements(alloc, source, lower, place, inside)
        },
        source,
        levels,
        at,
        within,
    )
}
