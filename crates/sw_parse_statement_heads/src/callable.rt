// The heads of functions and mixins.
ghost use Rattle.std.specs.Prelude.{◌∷◌, []};
ghost use Rattle.sw_parse_table.specs.Reads.{reader};
ghost use Rattle.sw_parse_statement_heads.specs.Heads.{ReadsHead};
ghost use Rattle.sw_parse_statement_heads.specs.CallableHeads.{callable_parts, function_head, mixin_head};

use crate::param::{optional_params_at, params_at};
use std::alloc::Global;
use sw_parse_expr_nodes::{kept, skipped};
use sw_parse_grammar::ReadError;
use sw_parse_table::Source;
use sw_parse_terminals::Terminal;
use sw_tree::Params;

/// What stands before the block of a function or a mixin.
#[derive(Drop)]
pub struct CallableHead {
    /// The place of the name.
    pub name: usize,
    /// The parameters, where parentheses are written.
    pub params: Option<Params>,
}

/// `@function name(..)`
#[tactic(auto, unfolding(sw_parse_grammar::specs::Readers::parse))]
pub fn function_head_at(
    alloc: Global,
    source: &Source,
    levels: u8,
    at: usize,
) -> Result<(CallableHead, usize), ReadError>
    ensures { ReadsHead callable_parts result (reader source.now levels (function_head source.now) at) }
{
    let place = skipped(source, levels, at, Terminal::AtFunction)?;
    let (name, place) = kept(source, levels, place, Terminal::Named)?;
    let (params, place) = params_at(alloc, source, levels, place)?;
    let head = CallableHead {
        name,
        params: Some(params),
    };
    Ok((head, place))
}

/// `@mixin name(..)`
#[tactic(auto, unfolding(sw_parse_grammar::specs::Readers::parse))]
pub fn mixin_head_at(
    alloc: Global,
    source: &Source,
    levels: u8,
    at: usize,
) -> Result<(CallableHead, usize), ReadError>
    ensures { ReadsHead callable_parts result (reader source.now levels (mixin_head source.now) at) }
{
    let place = skipped(source, levels, at, Terminal::AtMixin)?;
    let (name, place) = kept(source, levels, place, Terminal::Named)?;
    let (params, place) = optional_params_at(alloc, source, levels, place)?;
    Ok((CallableHead { name, params }, place))
}
