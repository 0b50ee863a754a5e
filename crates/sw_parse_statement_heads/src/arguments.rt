// Values of parameters, and arguments.
ghost use Rattle.std.specs.Prelude.{◌∷◌, []};
ghost use Rattle.sw_parse_table.specs.Parts.{Arguments};
ghost use Rattle.sw_parse_table.specs.Expressions.{space, colon_space, arguments_in};
ghost use Rattle.sw_parse_table.specs.Reads.{reader, reads, Reads, ReadsValue};
ghost use Rattle.sw_parse_statement_heads.specs.CallableHeads.{arguments_parts, optional_arguments};

use std::alloc::Global;
use sw_expr_parse::read_space;
use sw_parse_expr_lists::arguments_in_at;
use sw_parse_expr_nodes::skipped;
use sw_parse_grammar::ReadError;
use sw_parse_table::{Source, is_at};
use sw_parse_terminals::Terminal;
use sw_text::List;
use sw_tree::{Argument, Expr};

/// The expression without commas behind a `:`.
#[tactic(auto, unfolding(sw_parse_grammar::specs::Readers::parse, sw_parse_table::specs::Expressions::colon_space))]
pub(crate) fn colon_space_at(
    alloc: Global,
    source: &Source,
    levels: u8,
    at: usize,
) -> Result<(Expr, usize), ReadError>
    ensures { ReadsValue result (reads source.now levels colon_space at) }
{
    let place = skipped(source, levels, at, Terminal::Colon)?;
    read_space(alloc, source, levels, place)
}

/// The arguments of a mixin or a block, in their parentheses.
pub(crate) fn arguments_at(
    alloc: Global,
    source: &Source,
    levels: u8,
    at: usize,
) -> Result<(List<Argument>, usize), ReadError>
    ensures { Reads (λ list. Arguments list ∷ []) result (reads source.now levels arguments_in at) }
{
    arguments_in_at(
        alloc,
        |lower: u8, place: usize| -> Result<(Expr, usize), ReadError>
            ensures { ReadsValue result (reads source.entry.now lower space place) }
        { read_space(alloc, source, lower, place) },
        source,
        levels,
        at,
    )
}

/// The same where they are written.
pub(crate) fn optional_arguments_at(
    alloc: Global,
    source: &Source,
    levels: u8,
    at: usize,
) -> Result<(Option<List<Argument>>, usize), ReadError>
    ensures { Reads arguments_parts result (reader source.now levels (optional_arguments source.now) at) }
{
    if !is_at(source, at, Terminal::CallParen) {
        return Ok((None, at));
    }
    let (arguments, place) = arguments_at(alloc, source, levels, at)?;
    Ok((Some(arguments), place))
}
