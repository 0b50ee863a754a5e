// Blocks, over a reader of the statements in them.
ghost use Rattle.std.specs.Prelude.{◌≡◌, ◌∷◌, [], IfOk};
ghost use Rattle.sw_parse_table.specs.Parts.{Blocks};
ghost use Rattle.sw_parse_table.specs.Statements.{block, block_or_end};
ghost use Rattle.sw_parse_table.specs.Reads.{reader, reads, Reads};
ghost use Rattle.sw_parse_expr_lists.specs.Deeper.{CallableAt, Callable};
ghost use Rattle.sw_parse_statement_blocks.specs.Inner.{statements, ReadsStatements, ReadingInnerAt, ReadingInner};
ghost use Rattle.sw_parse_statement_blocks.specs.Rows.{block_in};

use sw_parse_expr_nodes::given_up;
use sw_parse_grammar::ReadError;
use sw_parse_statement_text::finish_at;
use sw_parse_table::{Source, is_at};
use sw_parse_terminals::Terminal;
use sw_text::List;
use sw_tree::Statement;

/// The statements at a place.
fn statements_in<S: Fn(u8, usize) -> Result<(List<Statement>, usize), ReadError> + Copy>(
    inner: S,
    source: &Source,
    levels: u8,
    at: usize,
) -> Result<(List<Statement>, usize), ReadError>
    requires callable { CallableAt (S.Fn.pre inner) levels }
    requires reading { ReadingInnerAt (S.Fn.post inner) source.now levels }
    ensures { ReadsStatements result (reader source.now levels (statements source.now) at) }
{
    inner(levels, at)
}

/// The statements in a block, which opens a level, and the place behind its `}`.
#[tactic(auto, unfolding(sw_parse_grammar::specs::Readers::parse, sw_parse_table::specs::Statements::block))]
pub fn block_at<S: Fn(u8, usize) -> Result<(List<Statement>, usize), ReadError> + Copy>(
    inner: S,
    source: &Source,
    levels: u8,
    at: usize,
) -> Result<(List<Statement>, usize), ReadError>
    requires callable { Callable (S.Fn.pre inner) levels }
    requires reading { ReadingInner (S.Fn.post inner) source.now levels }
    ensures { Reads (λ list. Blocks list ∷ []) result (reads source.now levels block at) }
{
    if !is_at(source, at, Terminal::Open) {
        return Err(ReadError::Unexpected(at));
    }
    if levels == 0 {
        return Err(ReadError::TooDeep(at));
    }
    let (list, place) = statements_in(inner, source, levels - 1, at + 1)?;
    if !is_at(source, place, Terminal::Close) {
        return Err(given_up(list, ReadError::Unexpected(place)));
    }
    Ok((list, place + 1))
}

/// The same behind what was read of a head.
pub(crate) fn headed_at<
    H: Drop,
    S: Fn(u8, usize) -> Result<(List<Statement>, usize), ReadError> + Copy,
>(
    inner: S,
    source: &Source,
    levels: u8,
    at: usize,
    head: H,
) -> Result<((H, List<Statement>), usize), ReadError>
    requires callable { Callable (S.Fn.pre inner) levels }
    requires reading { ReadingInner (S.Fn.post inner) source.now levels }
    ensures block { Reads (λ both. Blocks both.1 ∷ []) result (reads source.now levels block at) }
    ensures head { IfOk result (λ read. read.0.0 ≡ head) }
{
    match block_at(inner, source, levels, at) {
        Ok((list, place)) => Ok(((head, list), place)),
        Err(error) => Err(given_up(head, error)),
    }
}

/// A block, or the end of a statement without one.
#[tactic(auto, unfolding(sw_parse_grammar::specs::Readers::parse, sw_parse_table::specs::Statements::block_or_end, sw_parse_table::specs::Statements::block))]
pub(crate) fn block_or_end_at<
    S: Fn(u8, usize) -> Result<(List<Statement>, usize), ReadError> + Copy,
>(
    inner: S,
    source: &Source,
    levels: u8,
    at: usize,
) -> Result<(Option<List<Statement>>, usize), ReadError>
    requires callable { Callable (S.Fn.pre inner) levels }
    requires reading { ReadingInner (S.Fn.post inner) source.now levels }
    ensures { Reads block_in result (reads source.now levels block_or_end at) }
{
    if is_at(source, at, Terminal::Open) {
        let (list, place) = block_at(inner, source, levels, at)?;
        return Ok((Some(list), place));
    }
    let place = finish_at(source, levels, at)?;
    Ok((None, place))
}

/// The same behind what was read of a head.
pub(crate) fn headed_or_end_at<
    H: Drop,
    S: Fn(u8, usize) -> Result<(List<Statement>, usize), ReadError> + Copy,
>(
    inner: S,
    source: &Source,
    levels: u8,
    at: usize,
    head: H,
) -> Result<((H, Option<List<Statement>>), usize), ReadError>
    requires callable { Callable (S.Fn.pre inner) levels }
    requires reading { ReadingInner (S.Fn.post inner) source.now levels }
    ensures block { Reads (λ both. block_in both.1) result (reads source.now levels block_or_end at) }
    ensures head { IfOk result (λ read. read.0.0 ≡ head) }
{
    match block_or_end_at(inner, source, levels, at) {
        Ok((block, place)) => Ok(((head, block), place)),
        Err(error) => Err(given_up(head, error)),
    }
}
