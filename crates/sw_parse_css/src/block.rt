// Blocks, over a reader of the statements in them, and the ends of statements without one.
ghost use Rattle.std.specs.Prelude.{◌≡◌, ◌∷◌, []};
ghost use Rattle.sw_parse_grammar.specs.Grammar.{member, many};
ghost use Rattle.sw_parse_table.specs.Parts.{Blocks};
ghost use Rattle.sw_parse_css.specs.Seen.{seen, terminal_at};
ghost use Rattle.sw_parse_css.specs.Sheets.{finish, block, block_or_end};
ghost use Rattle.sw_parse_css.specs.Rows.{ends_statement, form_of, statement_of, block_in};
ghost use Rattle.sw_parse_css.specs.Reads.{reader, Passes, Reads, ReadsStatements};
ghost use Rattle.sw_parse_css.specs.Inner.{CallableAt, ReadingAt, Callable, Reading};

use crate::body::Within;
use crate::seen::{is_at, number_at};
use sw_parse_grammar::ReadError;
use sw_parse_table::Source;
use sw_parse_terminals::Terminal;
use sw_text::List;
use sw_tree::Statement;

/// An error that leaves no use for what was read before it.
pub(crate) fn given_up<T: Drop, E: Drop>(read: T, error: E) -> E
    ensures { result ≡ error }
{
    drop(read);
    error
}

fn is_finished(source: &Source, at: usize) -> bool
    ensures { result ≡ member (terminal_at (seen source.now) at) ends_statement }
{
    is_at(source, at, Terminal::Close) || number_at(source, at) == 0
}

/// The place behind the end of a statement: behind its `;`, or where no `;` has to stand.
#[tactic(auto, unfolding(sw_parse_grammar::specs::Readers::parse, crate::specs::Sheets::finish))]
pub(crate) fn finish_at(source: &Source, levels: u8, at: usize) -> Result<usize, ReadError>
    ensures { Passes result (reader (seen source.now) levels finish at) }
{
    if is_at(source, at, Terminal::Semicolon) {
        Ok(at + 1)
    } else if is_finished(source, at) {
        Ok(at)
    } else {
        Err(ReadError::Unexpected(at))
    }
}

/// The statements at a place.
fn statements_in<S: Fn(Within, u8, usize) -> Result<(List<Statement>, usize), ReadError> + Copy>(
    inner: S,
    source: &Source,
    levels: u8,
    at: usize,
    within: Within,
) -> Result<(List<Statement>, usize), ReadError>
    requires callable { CallableAt (S.Fn.pre inner) levels }
    requires reading { ReadingAt (S.Fn.post inner) (seen source.now) levels }
    ensures { ReadsStatements result (reader (seen source.now) levels (many (statement_of (seen source.now) within))
        at) }
{
    inner(within, levels, at)
}

/// The statements in a block, which opens a level, and the place behind its `}`.
#[tactic(auto, unfolding(sw_parse_grammar::specs::Readers::parse))]
pub(crate) fn block_at<
    S: Fn(Within, u8, usize) -> Result<(List<Statement>, usize), ReadError> + Copy,
>(
    inner: S,
    source: &Source,
    levels: u8,
    at: usize,
    within: Within,
) -> Result<(List<Statement>, usize), ReadError>
    requires callable { Callable (S.Fn.pre inner) levels }
    requires reading { Reading (S.Fn.post inner) (seen source.now) levels }
    ensures { Reads (λ list. Blocks list ∷ []) result (reader (seen source.now) levels (block (form_of within)) at) }
{
    if !is_at(source, at, Terminal::Open) {
        return Err(ReadError::Unexpected(at));
    }
    if levels == 0 {
        return Err(ReadError::TooDeep(at));
    }
    let (list, place) = statements_in(inner, source, levels - 1, at + 1, within)?;
    if !is_at(source, place, Terminal::Close) {
        return Err(given_up(list, ReadError::Unexpected(place)));
    }
    Ok((list, place + 1))
}

/// A block, or the end of a statement without one.
#[tactic(auto, unfolding(sw_parse_grammar::specs::Readers::parse))]
pub(crate) fn block_or_end_at<
    S: Fn(Within, u8, usize) -> Result<(List<Statement>, usize), ReadError> + Copy,
>(
    inner: S,
    source: &Source,
    levels: u8,
    at: usize,
    within: Within,
) -> Result<(Option<List<Statement>>, usize), ReadError>
    requires callable { Callable (S.Fn.pre inner) levels }
    requires reading { Reading (S.Fn.post inner) (seen source.now) levels }
    ensures { Reads block_in result (reader (seen source.now) levels (block_or_end (form_of within)) at) }
{
    if is_at(source, at, Terminal::Open) {
        let (list, place) = block_at(inner, source, levels, at, within)?;
        return Ok((Some(list), place));
    }
    let place = finish_at(source, levels, at)?;
    Ok((None, place))
}
