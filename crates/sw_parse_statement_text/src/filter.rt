// Which members of a module are passed on.
ghost use Rattle.std.specs.Prelude.{◌≡◌, ◌∷◌, [], ◌++◌, map, OnOk, IfErr, IsTrue, ◌<◌, length};
ghost use Rattle.sw_parse_grammar.specs.Grammar.{member, many};
ghost use Rattle.sw_parse_table.specs.Parts.{Place, Members};
ghost use Rattle.sw_parse_table.specs.Sources.{terminal_at};
ghost use Rattle.sw_parse_table.specs.Statements.{filter};
ghost use Rattle.sw_parse_table.specs.Reads.{reader, reads, Reads};
ghost use Rattle.sw_parse_statement_text.specs.Rows.{filter_words, comma_member, passed_in, passed_parts, passed_row};

use crate::name::member_at;
use std::alloc::Global;
use sw_parse_expr_nodes::given_up;
use sw_parse_grammar::ReadError;
use sw_parse_table::{Source, found, is_at};
use sw_parse_terminals::Terminal;
use sw_text::{List, Memory};
use sw_tree::Member;

/// The names behind `show` or `hide`.
#[derive(Drop)]
pub struct Passed {
    /// The place of `show` or `hide`.
    pub word: usize,
    pub first: Member,
    pub rest: List<Member>,
}

fn is_filter(source: &Source, at: usize) -> bool
    ensures test { result ≡ member (terminal_at source.now at) filter_words }
    ensures within { IsTrue result → at < length source.now.lexemes.now }
{
    is_at(source, at, Terminal::Show) || is_at(source, at, Terminal::Hide)
}

fn added(list: &mut List<Member>, member: Member) -> Result<(), ReadError>
    ensures more { OnOk result (map Members list.new ≡ map Members list.old ++ Members member ∷ []) }
    ensures memory { IfErr result (λ error. error ≡ ReadError.Memory) }
{
    found(list.push(member))
}

/// A `,` and the name behind it.
#[tactic(auto, unfolding(sw_parse_grammar::specs::Readers::parse))]
fn comma_member_at(
    alloc: Global,
    source: &Source,
    levels: u8,
    at: usize,
) -> Result<(Member, usize), ReadError>
    ensures { Reads (λ member. Members member ∷ []) result (reader source.now levels (comma_member source.now) at) }
{
    if !is_at(source, at, Terminal::Comma) {
        return Err(ReadError::Unexpected(at));
    }
    member_at(alloc, source, levels, at + 1)
}

/// Further names, each behind a `,`.
#[tactic(auto, unfolding(sw_parse_grammar::specs::Readers::parse))]
fn members_at(
    alloc: Global,
    source: &Source,
    levels: u8,
    at: usize,
) -> Result<(List<Member>, usize), ReadError>
    ensures { Reads (λ list. map Members list) result (reader source.now levels (many (comma_member source.now)) at) }
{
    let mut list = List::new(alloc);
    let mut place = at;
    'items: while is_at(source, place, Terminal::Comma) {
        let (item, next) = comma_member_at(alloc, source, levels, place)?;
        added(&mut list, item)?;
        place = next;
    }
    Ok((list, place))
}

/// The names behind a word.
#[tactic(auto, unfolding(sw_parse_grammar::specs::Readers::parse))]
fn passed_at(
    alloc: Global,
    source: &Source,
    levels: u8,
    at: usize,
) -> Result<(Passed, usize), ReadError>
    ensures { Reads passed_parts result (reader source.now levels (passed_row source.now) at) }
{
    if !is_filter(source, at) {
        return Err(ReadError::Unexpected(at));
    }
    let (first, place) = member_at(alloc, source, levels, at + 1)?;
    match members_at(alloc, source, levels, place) {
        Ok((rest, place)) => {
            let passed = Passed {
                word: at,
                first,
                rest,
            };
            Ok((passed, place))
        }
        Err(error) => Err(given_up(first, error)),
    }
}

/// `show` or `hide` with the names behind it, where it stands behind `@forward`.
#[tactic(auto, unfolding(sw_parse_grammar::specs::Readers::parse, sw_parse_table::specs::Statements::filter))]
pub fn filter_at(
    alloc: Global,
    source: &Source,
    levels: u8,
    at: usize,
) -> Result<(Option<Passed>, usize), ReadError>
    ensures { Reads passed_in result (reads source.now levels filter at) }
{
    if !is_filter(source, at) {
        return Ok((None, at));
    }
    let (passed, place) = passed_at(alloc, source, levels, at)?;
    Ok((Some(passed), place))
}
