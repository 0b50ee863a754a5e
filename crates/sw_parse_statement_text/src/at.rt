// Which terminal stands at a place, and the end of a statement.
ghost use Rattle.std.specs.Prelude.{◌≡◌, ◌∷◌, [], length, ◌<◌, IsTrue};
ghost use Rattle.sw_parse_grammar.specs.Grammar.{member, prepend};
ghost use Rattle.sw_parse_grammar.specs.Readers.{Answers};
ghost use Rattle.sw_parse_table.specs.Parts.{States};
ghost use Rattle.sw_parse_table.specs.Sources.{terminal_at};
ghost use Rattle.sw_parse_table.specs.Statements.{finish};
ghost use Rattle.sw_parse_table.specs.Reads.{reads, Reads};
ghost use Rattle.sw_parse_statement_text.specs.Rows.{raw_groups, raw_starts, ends_statement};

use sw_parse_expr_nodes::given_up;
use sw_parse_grammar::ReadError;
use sw_parse_table::{Source, is_at, number_at};
use sw_parse_terminals::Terminal;
use sw_tree::Statement;

/// Whether a bracket of raw text opens at a place.
pub(crate) fn is_raw_group(source: &Source, at: usize) -> bool
    ensures test { result ≡ member (terminal_at source.now at) raw_groups }
    ensures within { IsTrue result → at < length source.now.lexemes.now }
{
    is_at(source, at, Terminal::RawParen)
        || is_at(source, at, Terminal::RawBracket)
        || is_at(source, at, Terminal::RawBrace)
}

/// Whether raw text begins at a place.
pub fn begins_raw(source: &Source, at: usize) -> bool
    ensures test { result ≡ member (terminal_at source.now at) raw_starts }
    ensures within { IsTrue result → at < length source.now.lexemes.now }
{
    is_at(source, at, Terminal::Raw)
        || is_raw_group(source, at)
        || is_at(source, at, Terminal::Insert)
}

/// Whether a statement may end at a place without `;`: before `}`, or at the end of the text.
pub fn is_finished(source: &Source, at: usize) -> bool
    ensures { result ≡ member (terminal_at source.now at) ends_statement }
{
    is_at(source, at, Terminal::Close) || number_at(source, at) == 0
}

/// The place behind the end of a statement: behind its `;`, or where no `;` has to stand.
#[tactic(auto, unfolding(sw_parse_grammar::specs::Readers::parse, sw_parse_table::specs::Statements::finish))]
pub fn finish_at(source: &Source, levels: u8, at: usize) -> Result<usize, ReadError>
    ensures { Answers (λ _. []) (λ next. next) result (reads source.now levels finish at) }
{
    if is_at(source, at, Terminal::Semicolon) {
        Ok(at + 1)
    } else if is_finished(source, at) {
        Ok(at)
    } else {
        Err(ReadError::Unexpected(at))
    }
}

/// A statement that was read, and the place behind its end.
pub(crate) fn ended(
    source: &Source,
    levels: u8,
    place: usize,
    statement: Statement,
) -> Result<(Statement, usize), ReadError>
    ensures { Reads (λ read. States read ∷ []) result (prepend (States statement ∷ []) (reads source.now levels finish
        place)) }
{
    match finish_at(source, levels, place) {
        Ok(next) => Ok((statement, next)),
        Err(error) => Err(given_up(statement, error)),
    }
}
