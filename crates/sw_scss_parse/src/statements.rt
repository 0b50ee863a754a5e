// The readers of statements, one behind the other.
ghost use Rattle.std.specs.Prelude.{◌≡◌, ◌<◌, IfErr};
ghost use Rattle.sw_parse_table.specs.Reads.{reader};
ghost use Rattle.sw_parse_expr_lists.specs.Deeper.{Callable};
ghost use Rattle.sw_parse_statement_blocks.specs.Inner.{statements, ReadsStatements, ReadingInner};

use crate::begin::begins_statement;
use crate::statement::statement_behind;
use std::alloc::Global;
use sw_parse_grammar::ReadError;
use sw_parse_table::Source;
use sw_text::List;
use sw_tree::Statement;

// A statement of a whole sheet has about so many tokens, with those of its block.
const TOKENS_OF_ONE: usize = 6;

/// For how many statements room is made at a place before the first: most blocks have one or a few, and a whole sheet
/// has one of every few tokens.
fn room_at(source: &Source, at: usize) -> usize {
    if at == 0 {
        source.lexemes.len() / TOKENS_OF_ONE + 1
    } else {
        1
    }
}

/// Makes room for so many statements before the first.
#[inline(always)]
fn make_room(list: &mut Vec<Statement>, room: usize) -> Result<(), ReadError>
    ensures same { list.new.items ≡ list.old.items }
    ensures memory { IfErr result (λ error. error ≡ ReadError.Memory) }
{
    if !list.is_empty() {
        return Ok(());
    }
    match list.reserve_exact(room) {
        Ok(()) => Ok(()),
        Err(_) => Err(ReadError::Memory),
    }
}

/// Any number of statements, over a reader of those in blocks.
#[tactic(auto, unfolding(sw_parse_grammar::specs::Readers::parse))]
fn statements_by<S: Fn(u8, usize) -> Result<(List<Statement>, usize), ReadError> + Copy>(
    alloc: Global,
    inner: S,
    source: &Source,
    levels: u8,
    at: usize,
) -> Result<(List<Statement>, usize), ReadError>
    requires callable { Callable (S.Fn.pre inner) levels }
    requires reading { ReadingInner (S.Fn.post inner) source.now levels }
    ensures { ReadsStatements result (reader source.now levels (statements source.now) at) }
{
    let mut list = Vec::new(alloc);
    let room = room_at(source, at);
    let mut place = at;
    'items: while begins_statement(source, place) {
        make_room(&mut list, room)?;
        let next = statement_behind(&mut list, alloc, inner, source, levels, place)?;
        place = next;
    }
    list.shrink_to_fit();
    Ok((List::from_vec(list), place))
}

/// The statements from a place on, where so many levels of brackets may be opened, and the place behind them.
pub fn read_statements(
    alloc: Global,
    source: &Source,
    levels: u8,
    at: usize,
) -> Result<(List<Statement>, usize), ReadError>
    ensures { ReadsStatements result (reader source.now levels (statements source.now) at) }
{
    statements_by(
        alloc,
        |lower: u8, place: usize| -> Result<(List<Statement>, usize), ReadError>
            requires { lower < levels }
            ensures { ReadsStatements result (reader source.entry.now lower (statements source.entry.now) place) }
        {
            let _ = &levels;
            read_statements(alloc, source, lower, place)
        },
        source,
        levels,
        at,
    )
}
