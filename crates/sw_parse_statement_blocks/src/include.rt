// `@include`.
ghost use Rattle.std.specs.Prelude.{◌≡◌, ◌∷◌, [], ◌++◌, IfOk};
ghost use Rattle.sw_parse_table.specs.Parts.{Behind, States};
ghost use Rattle.sw_parse_table.specs.Actions.{include_of, to_include};
ghost use Rattle.sw_parse_table.specs.Statements.{include};
ghost use Rattle.sw_parse_table.specs.Reads.{reads, Reads};
ghost use Rattle.sw_parse_expr_lists.specs.Deeper.{Callable};
ghost use Rattle.sw_parse_statement_heads.specs.CallableHeads.{include_parts};
ghost use Rattle.sw_parse_statement_blocks.specs.Inner.{ReadingInner};
ghost use Rattle.sw_parse_statement_blocks.specs.Rows.{block_in};
ghost use Rattle.sw_parse_statement_blocks.specs.Made.{mixin_with, content_in};

use crate::block::headed_or_end_at;
use crate::callable::params_of;
use std::alloc::Global;
use sw_parse_expr_nodes::given_up;
use sw_parse_grammar::ReadError;
use sw_parse_statement_heads::{IncludeHead, include_head_at};
use sw_parse_table::{Source, found, span_between};
use sw_text::{List, Memory, Shared};
use sw_tree::{Argument, Content, Mixin, Params, Statement};

/// A mixin with the arguments that are written for it.
fn mixin_with(mixin: Mixin, arguments: Option<List<Argument>>) -> Mixin
    ensures { result ≡ mixin_with mixin arguments }
{
    match arguments {
        None => mixin,
        Some(arguments) => Mixin { arguments, ..mixin },
    }
}

fn content_of(
    alloc: Global,
    params: Params,
    block: Option<List<Statement>>,
) -> Result<Option<Shared<Content>>, Memory>
    ensures { IfOk result (λ content. content ≡ content_in params block) }
{
    match block {
        None => Ok(None),
        Some(block) => Ok(Some(Shared::new(alloc, Content { params, block })?)),
    }
}

fn include_with(
    source: &Source,
    at: usize,
    place: usize,
    mixin: Mixin,
    content: Option<Shared<Content>>,
) -> Result<Statement, Memory>
    ensures { IfOk result (λ statement. include_of source.now at place mixin content ≡ States statement ∷ []) }
{
    match span_between(source, at, place) {
        Ok(span) => Ok(Statement::Include {
            mixin,
            content,
            span,
        }),
        Err(error) => Err(given_up((mixin, content), error)),
    }
}

#[tactic(auto, using(crate::proofs::Made::include_is))]
fn include_by(
    alloc: Global,
    source: &Source,
    at: usize,
    place: usize,
    head: IncludeHead,
    block: Option<List<Statement>>,
) -> Result<Statement, Memory>
    ensures { IfOk result (λ statement. to_include source.now at place ((include_parts head ++ Behind place ∷ [])
        ++ block_in block) ≡ States statement ∷ []) }
{
    let IncludeHead {
        mixin,
        arguments,
        params,
    } = head;
    let mixin = mixin_with(mixin, arguments);
    match content_of(alloc, params_of(alloc, params), block) {
        Ok(content) => include_with(source, at, place, mixin, content),
        Err(error) => Err(given_up(mixin, error)),
    }
}

/// `@include` with its arguments, and the block that is passed or the end.
#[tactic(auto, unfolding(sw_parse_grammar::specs::Readers::parse, sw_parse_table::specs::Statements::include))]
pub fn include_at<S: Fn(u8, usize) -> Result<(List<Statement>, usize), ReadError> + Copy>(
    alloc: Global,
    inner: S,
    source: &Source,
    levels: u8,
    at: usize,
) -> Result<(Statement, usize), ReadError>
    requires callable { Callable (S.Fn.pre inner) levels }
    requires reading { ReadingInner (S.Fn.post inner) source.now levels }
    ensures { Reads (λ statement. States statement ∷ []) result (reads source.now levels include at) }
{
    let (head, place) = include_head_at(alloc, source, levels, at)?;
    let ((head, block), next) = headed_or_end_at(inner, source, levels, place, head)?;
    let statement = found(include_by(alloc, source, at, place, head, block))?;
    Ok((statement, next))
}
