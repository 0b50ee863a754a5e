// At-rules that Sass doesn't know.
ghost use Rattle.std.specs.Prelude.{◌≡◌, ◌∷◌, [], ◌++◌, IfOk};
ghost use Rattle.sw_parse_table.specs.Parts.{Behind, States};
ghost use Rattle.sw_parse_table.specs.Actions.{to_at_rule};
ghost use Rattle.sw_parse_table.specs.Statements.{at as at_row};
ghost use Rattle.sw_parse_table.specs.Reads.{reads, Reads};
ghost use Rattle.sw_parse_expr_lists.specs.Deeper.{Callable};
ghost use Rattle.sw_parse_statement_heads.specs.Heads.{at_parts};
ghost use Rattle.sw_parse_statement_blocks.specs.Inner.{ReadingInner};
ghost use Rattle.sw_parse_statement_blocks.specs.Rows.{block_in};

use crate::block::headed_or_end_at;
use std::alloc::Global;
use sw_parse_expr_nodes::given_up;
use sw_parse_grammar::ReadError;
use sw_parse_statement_heads::{AtRuleHead, at_head_at};
use sw_parse_table::{Source, found, span_between};
use sw_text::{List, Memory};
use sw_tree::{AtRule, Statement};

#[tactic(auto, using(crate::proofs::Made::at_rule_is))]
fn at_rule_of(
    source: &Source,
    at: usize,
    place: usize,
    head: AtRuleHead,
    block: Option<List<Statement>>,
) -> Result<Statement, Memory>
    ensures { IfOk result (λ statement. to_at_rule source.now at place ((at_parts head ++ Behind place ∷ []) ++ block_in
        block) ≡ States statement ∷ []) }
{
    match span_between(source, at, place) {
        Ok(span) => {
            let AtRuleHead { name, prelude } = head;
            Ok(Statement::AtRule(AtRule {
                name,
                prelude,
                block,
                span,
            }))
        }
        Err(error) => Err(given_up((head, block), error)),
    }
}

/// Any other at-rule, with its block or without one.
#[tactic(auto, unfolding(sw_parse_grammar::specs::Readers::parse, sw_parse_table::specs::Statements::at))]
pub fn at_rule_at<S: Fn(u8, usize) -> Result<(List<Statement>, usize), ReadError> + Copy>(
    alloc: Global,
    inner: S,
    source: &Source,
    levels: u8,
    at: usize,
) -> Result<(Statement, usize), ReadError>
    requires callable { Callable (S.Fn.pre inner) levels }
    requires reading { ReadingInner (S.Fn.post inner) source.now levels }
    ensures { Reads (λ statement. States statement ∷ []) result (reads source.now levels at_row at) }
{
    let (head, place) = at_head_at(alloc, source, levels, at)?;
    let ((head, block), next) = headed_or_end_at(inner, source, levels, place, head)?;
    let statement = found(at_rule_of(source, at, place, head, block))?;
    Ok((statement, next))
}
