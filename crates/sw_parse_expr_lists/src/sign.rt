// The signs before an operand.
ghost use Rattle.std.specs.Prelude.{◌≡◌, ◌∷◌, [], map};
ghost use Rattle.sw_parse_grammar.specs.Grammar.{many};
ghost use Rattle.sw_parse_table.specs.Parts.{Signs};
ghost use Rattle.sw_parse_table.specs.Expressions.{prefix};
ghost use Rattle.sw_parse_table.specs.Reads.{reader, reads, Reads};

use std::alloc::Global;
use sw_parse_expr_nodes::is_prefix;
use sw_parse_grammar::ReadError;
use sw_parse_table::{Source, sign_at};
use sw_text::List;
use sw_tree::Sign;

#[tactic(auto, unfolding(sw_parse_grammar::specs::Readers::parse, sw_parse_table::specs::Expressions::prefix))]
fn prefix_at(source: &Source, levels: u8, at: usize) -> Result<(Sign, usize), ReadError>
    ensures { Reads (λ x. Signs x ∷ []) result (reads source.now levels prefix at) }
{
    if !is_prefix(source, at) {
        return Err(ReadError::Unexpected(at));
    }
    Ok((sign_at(source, at), at + 1))
}

/// The signs before an operand, the outermost first, and the place behind them.
#[tactic(auto, unfolding(sw_parse_grammar::specs::Readers::parse, sw_parse_table::specs::Expressions::prefix))]
pub fn prefixes_at(
    alloc: Global,
    source: &Source,
    levels: u8,
    at: usize,
) -> Result<(List<Sign>, usize), ReadError>
    ensures { Reads (λ x. map Signs x) result (reader source.now levels (many (prefix source.now)) at) }
{
    let mut list = Vec::new(alloc);
    let mut place = at;
    'items: while is_prefix(source, place) {
        let (item, next) = prefix_at(source, levels, place)?;
        list.push(item)?;
        place = next;
    }
    Ok((List::from_vec(list), place))
}
