// Expressions behind a word or a sign.
ghost use Rattle.sw_parse_table.specs.Statements.{colon_expr};
ghost use Rattle.sw_parse_table.specs.Reads.{reader, reads, ReadsValue};
ghost use Rattle.sw_parse_statement_heads.specs.Heads.{worded_expr};

use std::alloc::Global;
use sw_expr_parse::read_value;
use sw_parse_expr_nodes::skipped;
use sw_parse_grammar::ReadError;
use sw_parse_table::Source;
use sw_parse_terminals::Terminal;
use sw_tree::Expr;

/// The expression behind a word.
#[tactic(auto, unfolding(sw_parse_grammar::specs::Readers::parse))]
pub(crate) fn worded_value_at(
    alloc: Global,
    source: &Source,
    levels: u8,
    at: usize,
    word: Terminal,
) -> Result<(Expr, usize), ReadError>
    ensures { ReadsValue result (reader source.now levels (worded_expr source.now word) at) }
{
    let place = skipped(source, levels, at, word)?;
    read_value(alloc, source, levels, place)
}

/// The expression behind a `:`.
#[tactic(auto, unfolding(sw_parse_grammar::specs::Readers::parse, sw_parse_table::specs::Statements::colon_expr))]
pub(crate) fn colon_value_at(
    alloc: Global,
    source: &Source,
    levels: u8,
    at: usize,
) -> Result<(Expr, usize), ReadError>
    ensures { ReadsValue result (reads source.now levels colon_expr at) }
{
    let place = skipped(source, levels, at, Terminal::Colon)?;
    read_value(alloc, source, levels, place)
}
