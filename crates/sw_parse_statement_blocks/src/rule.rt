// Rules, `@supports` and `@at-root`: a text and a block.
ghost use Rattle.std.specs.Prelude.{◌≡◌, ◌∷◌, [], ◌++◌, map, IfOk, IfErr, OnOk};
ghost use Rattle.sw_parse_table.specs.Parts.{Texts, Behind, Blocks, States};
ghost use Rattle.sw_parse_table.specs.Actions.{to_rule, to_supports, to_at_root};
ghost use Rattle.sw_parse_table.specs.Statements.{rule, supports, at_root};
ghost use Rattle.sw_parse_table.specs.Reads.{reads, Reads};
ghost use Rattle.sw_parse_expr_lists.specs.Deeper.{Callable};
ghost use Rattle.sw_parse_statement_text.specs.Rows.{text_in};
ghost use Rattle.sw_parse_statement_blocks.specs.Inner.{ReadingInner, ReadsBehind};

use crate::behind::put;
use crate::block::{block_at, headed_at};
use std::alloc::Global;
use sw_parse_expr_nodes::given_up;
use sw_parse_grammar::ReadError;
use sw_parse_statement_heads::{at_root_head_at, rule_head_at, supports_head_at};
use sw_parse_table::{Source, found, span_between};
use sw_text::{List, Memory};
use sw_tree::{AtRoot, Rule, Statement, Supports, Text};

/// Puts a rule behind the others.
#[inline(always)]
fn put_rule(
    list: &mut Vec<Statement>,
    source: &Source,
    places: (usize, usize),
    selector: Text,
    block: List<Statement>,
) -> Result<(), ReadError>
    ensures more { OnOk result (map States list.new.items ≡ map States list.old.items ++ to_rule source.now places.0
        places.1 (Texts selector ∷ Behind places.1 ∷ Blocks block ∷ [])) }
    ensures memory { IfErr result (λ error. error ≡ ReadError.Memory) }
{
    match span_between(source, places.0, places.1) {
        Ok(span) => put(
            list,
            Statement::Rule(Rule {
                selector,
                block,
                span,
            }),
        ),
        Err(_) => Err(given_up((selector, block), ReadError::Memory)),
    }
}

/// A rule, put behind the statements before it: a selector and its block.
pub fn rule_behind<S: Fn(u8, usize) -> Result<(List<Statement>, usize), ReadError> + Copy>(
    list: &mut Vec<Statement>,
    alloc: Global,
    inner: S,
    source: &Source,
    levels: u8,
    at: usize,
) -> Result<usize, ReadError>
    requires callable { Callable (S.Fn.pre inner) levels }
    requires reading { ReadingInner (S.Fn.post inner) source.now levels }
    ensures { ReadsBehind list.old.items list.new.items result (reads source.now levels rule at) }
{
    let (selector, head) = rule_head_at(alloc, source, levels, at)?;
    match block_at(inner, source, levels, head) {
        Ok((block, place)) => {
            put_rule(list, source, (at, head), selector, block)?;
            Ok(place)
        }
        Err(error) => Err(given_up(selector, error)),
    }
}

fn supports_of(
    source: &Source,
    at: usize,
    head: usize,
    condition: Text,
    block: List<Statement>,
) -> Result<Statement, Memory>
    ensures { IfOk result (λ statement. to_supports source.now at head (Texts condition ∷ Behind head ∷ Blocks block
        ∷ []) ≡ States statement ∷ []) }
{
    match span_between(source, at, head) {
        Ok(span) => Ok(Statement::Supports(Supports {
            condition,
            block,
            span,
        })),
        Err(error) => Err(given_up((condition, block), error)),
    }
}

/// `@supports` with its condition and its block.
#[tactic(auto, unfolding(sw_parse_grammar::specs::Readers::parse, sw_parse_table::specs::Statements::supports))]
pub fn supports_at<S: Fn(u8, usize) -> Result<(List<Statement>, usize), ReadError> + Copy>(
    alloc: Global,
    inner: S,
    source: &Source,
    levels: u8,
    at: usize,
) -> Result<(Statement, usize), ReadError>
    requires callable { Callable (S.Fn.pre inner) levels }
    requires reading { ReadingInner (S.Fn.post inner) source.now levels }
    ensures { Reads (λ statement. States statement ∷ []) result (reads source.now levels supports at) }
{
    let (condition, head) = supports_head_at(alloc, source, levels, at)?;
    let ((condition, block), place) = headed_at(inner, source, levels, head, condition)?;
    let statement = found(supports_of(source, at, head, condition, block))?;
    Ok((statement, place))
}

fn at_root_of(
    source: &Source,
    at: usize,
    head: usize,
    selector: Option<Text>,
    block: List<Statement>,
) -> Result<Statement, Memory>
    ensures { IfOk result (λ statement. to_at_root source.now at head ((text_in selector ++ Behind head ∷ []) ++ Blocks
        block ∷ []) ≡ States statement ∷ []) }
{
    match span_between(source, at, head) {
        Ok(span) => Ok(Statement::AtRoot(AtRoot {
            selector,
            block,
            span,
        })),
        Err(error) => Err(given_up((selector, block), error)),
    }
}

/// `@at-root` with its selector and its block.
#[tactic(auto, unfolding(sw_parse_grammar::specs::Readers::parse, sw_parse_table::specs::Statements::at_root))]
pub fn at_root_at<S: Fn(u8, usize) -> Result<(List<Statement>, usize), ReadError> + Copy>(
    alloc: Global,
    inner: S,
    source: &Source,
    levels: u8,
    at: usize,
) -> Result<(Statement, usize), ReadError>
    requires callable { Callable (S.Fn.pre inner) levels }
    requires reading { ReadingInner (S.Fn.post inner) source.now levels }
    ensures { Reads (λ statement. States statement ∷ []) result (reads source.now levels at_root at) }
{
    let (selector, head) = at_root_head_at(alloc, source, levels, at)?;
    let ((selector, block), place) = headed_at(inner, source, levels, head, selector)?;
    let statement = found(at_root_of(source, at, head, selector, block))?;
    Ok((statement, place))
}
