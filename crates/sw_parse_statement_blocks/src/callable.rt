// Functions and mixins.
ghost use Rattle.std.specs.Prelude.{◌≡◌, ◌∷◌, [], ◌++◌, IfOk};
ghost use Rattle.sw_parse_table.specs.Parts.{Behind, Blocks, States};
ghost use Rattle.sw_parse_table.specs.Actions.{to_callable};
ghost use Rattle.sw_parse_table.specs.Statements.{function, mixin};
ghost use Rattle.sw_parse_table.specs.Reads.{reads, Reads};
ghost use Rattle.sw_parse_expr_lists.specs.Deeper.{Callable as CallableInner};
ghost use Rattle.sw_parse_statement_heads.specs.CallableHeads.{callable_parts};
ghost use Rattle.sw_parse_statement_blocks.specs.Inner.{ReadingInner};
ghost use Rattle.sw_parse_statement_blocks.specs.Made.{written_params};

use crate::block::headed_at;
use crate::name::name_between;
use std::alloc::Global;
use sw_parse_expr_nodes::given_up;
use sw_parse_grammar::ReadError;
use sw_parse_statement_heads::{CallableHead, function_head_at, mixin_head_at};
use sw_parse_table::{Source, found};
use sw_text::{List, Memory, Shared};
use sw_tree::{Callable, Kind, Params, Statement};

/// The parameters that are written, or none.
pub(crate) fn params_of(alloc: Global, params: Option<Params>) -> Params
    ensures { result ≡ written_params params }
{
    match params {
        Some(params) => params,
        None => Params {
            items: List::new(alloc),
            rest: None,
        },
    }
}

#[tactic(auto, using(crate::proofs::Made::callable_is))]
fn callable_of(
    alloc: Global,
    source: &Source,
    kind: Kind,
    places: (usize, usize),
    head: CallableHead,
    block: List<Statement>,
) -> Result<Statement, Memory>
    ensures { IfOk result (λ statement. to_callable source.now kind places.0 places.1 ((callable_parts head ++ Behind
        places.1 ∷ []) ++ Blocks block ∷ []) ≡ States statement ∷ []) }
{
    match name_between(alloc, source, places, head.name) {
        Ok((name, span)) => {
            let callable = Callable {
                kind,
                name,
                params: params_of(alloc, head.params),
                block,
                span,
            };
            Ok(Statement::Callable(Shared::new(alloc, callable)?))
        }
        Err(error) => Err(given_up((head, block), error)),
    }
}

/// `@function` with its parameters and its block.
#[tactic(auto, unfolding(sw_parse_grammar::specs::Readers::parse, sw_parse_table::specs::Statements::function))]
pub fn function_at<S: Fn(u8, usize) -> Result<(List<Statement>, usize), ReadError> + Copy>(
    alloc: Global,
    inner: S,
    source: &Source,
    levels: u8,
    at: usize,
) -> Result<(Statement, usize), ReadError>
    requires callable { CallableInner (S.Fn.pre inner) levels }
    requires reading { ReadingInner (S.Fn.post inner) source.now levels }
    ensures { Reads (λ statement. States statement ∷ []) result (reads source.now levels function at) }
{
    let (head, place) = function_head_at(alloc, source, levels, at)?;
    let ((head, block), next) = headed_at(inner, source, levels, place, head)?;
    let statement = found(callable_of(alloc, source, Kind::Function, (at, place), head, block))?;
    Ok((statement, next))
}

/// `@mixin` with its parameters, where it has some, and its block.
#[tactic(auto, unfolding(sw_parse_grammar::specs::Readers::parse, sw_parse_table::specs::Statements::mixin))]
pub fn mixin_at<S: Fn(u8, usize) -> Result<(List<Statement>, usize), ReadError> + Copy>(
    alloc: Global,
    inner: S,
    source: &Source,
    levels: u8,
    at: usize,
) -> Result<(Statement, usize), ReadError>
    requires callable { CallableInner (S.Fn.pre inner) levels }
    requires reading { ReadingInner (S.Fn.post inner) source.now levels }
    ensures { Reads (λ statement. States statement ∷ []) result (reads source.now levels mixin at) }
{
    let (head, place) = mixin_head_at(alloc, source, levels, at)?;
    let ((head, block), next) = headed_at(inner, source, levels, place, head)?;
    let statement = found(callable_of(alloc, source, Kind::Mixin, (at, place), head, block))?;
    Ok((statement, next))
}
