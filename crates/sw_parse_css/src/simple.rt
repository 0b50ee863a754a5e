// Statements without a block: imports, `@charset` and comments.
ghost use Rattle.std.specs.Prelude.{◌≡◌, ◌∷◌, []};
ghost use Rattle.sw_parse_grammar.specs.Grammar.{seq, skip, prepend};
ghost use Rattle.sw_parse_terminals.specs.declared.terminal.Terminal.TheVariants as terminals;
ghost use Rattle.sw_parse_terminals.specs.Numbers.{just};
ghost use Rattle.sw_parse_table.specs.Parts.{Texts, States};
ghost use Rattle.sw_parse_css.specs.Seen.{seen};
ghost use Rattle.sw_parse_css.specs.Sheets.{finish, text, import, charset, comment};
ghost use Rattle.sw_parse_css.specs.Reads.{reader, reads, Passes, Reads};

use crate::block::{finish_at, given_up};
use crate::made::{charset_of, comment_of, import_of};
use crate::seen::is_at;
use crate::text::text_at;
use std::alloc::Global;
use sw_parse_grammar::ReadError;
use sw_parse_table::{Source, found};
use sw_parse_terminals::Terminal;
use sw_tree::{Statement, Text};

/// A statement that was read, and the place behind its end.
fn ended(
    source: &Source,
    levels: u8,
    place: usize,
    statement: Statement,
) -> Result<(Statement, usize), ReadError>
    ensures { Reads (λ read. States read ∷ []) result (prepend (States statement ∷ []) (reader (seen source.now) levels
        finish place)) }
{
    match finish_at(source, levels, place) {
        Ok(next) => Ok((statement, next)),
        Err(error) => Err(given_up(statement, error)),
    }
}

/// The text behind `@import`.
#[tactic(auto, unfolding(sw_parse_grammar::specs::Readers::parse))]
fn import_text_at(
    alloc: Global,
    source: &Source,
    levels: u8,
    at: usize,
) -> Result<(Text, usize), ReadError>
    ensures { Reads (λ text. Texts text ∷ []) result (reader (seen source.now) levels (seq (skip
        (just terminals.AtImport)) (text (seen source.now))) at) }
{
    if !is_at(source, at, Terminal::AtImport) {
        return Err(ReadError::Unexpected(at));
    }
    text_at(alloc, source, levels, at + 1)
}

/// `@import` with all that stands behind it, and its end.
#[tactic(auto, unfolding(sw_parse_grammar::specs::Readers::parse, crate::specs::Sheets::import))]
pub(crate) fn import_at(
    alloc: Global,
    source: &Source,
    levels: u8,
    at: usize,
) -> Result<(Statement, usize), ReadError>
    ensures { Reads (λ statement. States statement ∷ []) result (reads (seen source.now) levels import at) }
{
    let (text, place) = import_text_at(alloc, source, levels, at)?;
    let statement = found(import_of(source, at, place, text))?;
    ended(source, levels, place, statement)
}

/// The place behind `@charset` and its string.
#[tactic(auto, unfolding(sw_parse_grammar::specs::Readers::parse))]
fn behind_charset(source: &Source, levels: u8, at: usize) -> Result<usize, ReadError>
    ensures { Passes result (reader (seen source.now) levels (seq (skip (just terminals.AtCharset)) (skip
        (just terminals.Plain))) at) }
{
    if !is_at(source, at, Terminal::AtCharset) {
        return Err(ReadError::Unexpected(at));
    }
    if !is_at(source, at + 1, Terminal::Plain) {
        return Err(ReadError::Unexpected(at + 1));
    }
    Ok(at + 2)
}

/// `@charset` with its string, and its end.
#[tactic(auto, unfolding(sw_parse_grammar::specs::Readers::parse, crate::specs::Sheets::charset))]
pub(crate) fn charset_at(
    source: &Source,
    levels: u8,
    at: usize,
) -> Result<(Statement, usize), ReadError>
    ensures { Reads (λ statement. States statement ∷ []) result (reads (seen source.now) levels charset at) }
{
    let place = behind_charset(source, levels, at)?;
    let statement = found(charset_of(source, at, place))?;
    ended(source, levels, place, statement)
}

/// A comment that is a statement.
#[tactic(auto, unfolding(sw_parse_grammar::specs::Readers::parse, crate::specs::Sheets::comment))]
pub(crate) fn comment_at(
    alloc: Global,
    source: &Source,
    levels: u8,
    at: usize,
) -> Result<(Statement, usize), ReadError>
    ensures { Reads (λ statement. States statement ∷ []) result (reads (seen source.now) levels comment at) }
{
    if !is_at(source, at, Terminal::CommentWhole) {
        return Err(ReadError::Unexpected(at));
    }
    let statement = found(comment_of(alloc, source, at, at + 1))?;
    Ok((statement, at + 1))
}
