// The head of `@each`.
ghost use Rattle.std.specs.Prelude.{◌∷◌, [], ◌++◌, map};
ghost use Rattle.sw_parse_grammar.specs.Grammar.{many};
ghost use Rattle.sw_parse_table.specs.Parts.{Place};
ghost use Rattle.sw_parse_table.specs.Reads.{reader, Reads};
ghost use Rattle.sw_parse_statement_heads.specs.Heads.{ReadsHead, comma_name, each_head, each_parts};

use crate::at::added;
use crate::value::worded_value_at;
use std::alloc::Global;
use sw_parse_expr_nodes::{given_up, skipped};
use sw_parse_grammar::ReadError;
use sw_parse_statement_text::dollar_name_at;
use sw_parse_table::{Source, is_at};
use sw_parse_terminals::Terminal;
use sw_text::List;
use sw_tree::Expr;

/// What stands before the block of `@each`.
#[derive(Drop)]
pub struct EachHead {
    /// The place of the first name.
    pub first: usize,
    /// The places of the other names.
    pub rest: List<usize>,
    pub value: Expr,
}

/// A `,` and the name behind it.
#[tactic(auto, unfolding(sw_parse_grammar::specs::Readers::parse))]
fn comma_name_at(source: &Source, levels: u8, at: usize) -> Result<(usize, usize), ReadError>
    ensures { Reads (λ place. Place place ∷ []) result (reader source.now levels (comma_name source.now) at) }
{
    let place = skipped(source, levels, at, Terminal::Comma)?;
    dollar_name_at(source, levels, place)
}

/// Further names, each behind a `,`.
#[tactic(auto, unfolding(sw_parse_grammar::specs::Readers::parse))]
fn comma_names_at(
    alloc: Global,
    source: &Source,
    levels: u8,
    at: usize,
) -> Result<(List<usize>, usize), ReadError>
    ensures { Reads (λ list. map Place list) result (reader source.now levels (many (comma_name source.now)) at) }
{
    let mut list = List::new(alloc);
    let mut place = at;
    'items: while is_at(source, place, Terminal::Comma) {
        let (item, next) = comma_name_at(source, levels, place)?;
        added(&mut list, item)?;
        place = next;
    }
    Ok((list, place))
}

/// `@each $name, $name in value`
#[tactic(auto, unfolding(sw_parse_grammar::specs::Readers::parse))]
pub fn each_head_at(
    alloc: Global,
    source: &Source,
    levels: u8,
    at: usize,
) -> Result<(EachHead, usize), ReadError>
    ensures { ReadsHead each_parts result (reader source.now levels (each_head source.now) at) }
{
    let place = skipped(source, levels, at, Terminal::AtEach)?;
    let (first, place) = dollar_name_at(source, levels, place)?;
    let (rest, place) = comma_names_at(alloc, source, levels, place)?;
    match worded_value_at(alloc, source, levels, place, Terminal::In) {
        Ok((value, next)) => Ok((EachHead { first, rest, value }, next)),
        Err(error) => Err(given_up(rest, error)),
    }
}
