// Loops over the items of a list, and over numbers.
ghost use Rattle.std.specs.Prelude.{◌≡◌, ◌∷◌, [], ◌++◌, IfOk};
ghost use Rattle.sw_parse_table.specs.Parts.{Behind, Blocks, States};
ghost use Rattle.sw_parse_table.specs.Sources.{span_between};
ghost use Rattle.sw_parse_table.specs.Actions.{names_at, to_each, to_for};
ghost use Rattle.sw_parse_table.specs.Statements.{each, for_};
ghost use Rattle.sw_parse_table.specs.Reads.{reads, Reads};
ghost use Rattle.sw_parse_expr_lists.specs.Deeper.{Callable};
ghost use Rattle.sw_parse_statement_heads.specs.Heads.{each_parts, for_parts};
ghost use Rattle.sw_parse_statement_blocks.specs.Inner.{ReadingInner};
ghost use Rattle.sw_parse_statement_blocks.specs.Made.{bounds_of, for_of};

use crate::block::headed_at;
use crate::name::name_between;
use std::alloc::Global;
use sw_parse_expr_nodes::given_up;
use sw_parse_grammar::ReadError;
use sw_parse_statement_heads::{EachHead, ForHead, each_head_at, for_head_at};
use sw_parse_table::{Source, bytes_at, found, is_at, span_between};
use sw_parse_terminals::Terminal;
use sw_text::{List, Memory, Name, Shared, Span};
use sw_tree::{Bounds, Each, Expr, For, Statement};

/// The names at some places.
fn names_at(
    alloc: Global,
    source: &Source,
    first: usize,
    rest: &[usize],
) -> Result<List<Name>, Memory>
    ensures { IfOk result (λ names. names ≡ names_at source.now (first ∷ rest.now)) }
{
    let mut names = List::new(alloc);
    names.push(Name::dashed(alloc, bytes_at(source, first))?)?;
    'places: for place in rest {
        names.push(Name::dashed(alloc, bytes_at(source, *place))?)?;
    }
    Ok(names)
}

fn named_of(
    alloc: Global,
    source: &Source,
    at: usize,
    place: usize,
    head: &EachHead,
) -> Result<(List<Name>, Span), Memory>
    ensures names { IfOk result (λ both. both.0 ≡ names_at source.now (head.now.first ∷ head.now.rest)) }
    ensures span { IfOk result (λ both. both.1 ≡ span_between source.now at place) }
{
    let span = span_between(source, at, place)?;
    Ok((
        names_at(alloc, source, head.first, head.rest.as_slice())?,
        span,
    ))
}

#[tactic(auto, using(crate::proofs::Made::each_is))]
fn each_of(
    alloc: Global,
    source: &Source,
    at: usize,
    place: usize,
    head: EachHead,
    block: List<Statement>,
) -> Result<Statement, Memory>
    ensures { IfOk result (λ statement. to_each source.now at place ((each_parts head ++ Behind place ∷ []) ++ Blocks
        block ∷ []) ≡ States statement ∷ []) }
{
    match named_of(alloc, source, at, place, &head) {
        Ok((names, span)) => Ok(Statement::Each(Each {
            names,
            value: head.value,
            block,
            span,
        })),
        Err(error) => Err(given_up((head, block), error)),
    }
}

/// `@each` with its names, its list and its block.
#[tactic(auto, unfolding(sw_parse_grammar::specs::Readers::parse, sw_parse_table::specs::Statements::each))]
pub fn each_at<S: Fn(u8, usize) -> Result<(List<Statement>, usize), ReadError> + Copy>(
    alloc: Global,
    inner: S,
    source: &Source,
    levels: u8,
    at: usize,
) -> Result<(Statement, usize), ReadError>
    requires callable { Callable (S.Fn.pre inner) levels }
    requires reading { ReadingInner (S.Fn.post inner) source.now levels }
    ensures { Reads (λ statement. States statement ∷ []) result (reads source.now levels each at) }
{
    let (head, place) = each_head_at(alloc, source, levels, at)?;
    let ((head, block), next) = headed_at(inner, source, levels, place, head)?;
    let statement = found(each_of(alloc, source, at, place, head, block))?;
    Ok((statement, next))
}

fn bounds_of(
    alloc: Global,
    source: &Source,
    word: usize,
    from: Expr,
    to: Expr,
) -> Result<Shared<Bounds>, Memory>
    ensures { IfOk result (λ bounds. bounds ≡ bounds_of source.now word from to) }
{
    let through = is_at(source, word, Terminal::Through);
    Shared::new(alloc, Bounds { from, to, through })
}

fn for_with(
    alloc: Global,
    source: &Source,
    counter: (Name, Span),
    head: ForHead,
    block: List<Statement>,
) -> Result<Statement, Memory>
    ensures { IfOk result (λ statement. statement ≡ for_of source.now counter.0 counter.1 head block) }
{
    let ForHead {
        name: _,
        from,
        word,
        to,
    } = head;
    let (name, span) = counter;
    match bounds_of(alloc, source, word, from, to) {
        Ok(bounds) => Ok(Statement::For(For {
            name,
            bounds,
            block,
            span,
        })),
        Err(error) => Err(given_up((name, span, block), error)),
    }
}

fn for_of(
    alloc: Global,
    source: &Source,
    at: usize,
    place: usize,
    head: ForHead,
    block: List<Statement>,
) -> Result<Statement, Memory>
    ensures { IfOk result (λ statement. to_for source.now at place ((for_parts head ++ Behind place ∷ []) ++ Blocks
        block ∷ []) ≡ States statement ∷ []) }
{
    match name_between(alloc, source, (at, place), head.name) {
        Ok(counter) => for_with(alloc, source, counter, head, block),
        Err(error) => Err(given_up((head, block), error)),
    }
}

/// `@for` with its name, its bounds and its block.
#[tactic(auto, unfolding(sw_parse_grammar::specs::Readers::parse, sw_parse_table::specs::Statements::for_))]
pub fn for_at<S: Fn(u8, usize) -> Result<(List<Statement>, usize), ReadError> + Copy>(
    alloc: Global,
    inner: S,
    source: &Source,
    levels: u8,
    at: usize,
) -> Result<(Statement, usize), ReadError>
    requires callable { Callable (S.Fn.pre inner) levels }
    requires reading { ReadingInner (S.Fn.post inner) source.now levels }
    ensures { Reads (λ statement. States statement ∷ []) result (reads source.now levels for_ at) }
{
    let (head, place) = for_head_at(alloc, source, levels, at)?;
    let ((head, block), next) = headed_at(inner, source, levels, place, head)?;
    let statement = found(for_of(alloc, source, at, place, head, block))?;
    Ok((statement, next))
}
