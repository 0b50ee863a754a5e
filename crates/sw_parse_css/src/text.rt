// Preludes and values: text as it is read, up to a `;`, `{` or `}` outside its brackets.
ghost use Rattle.std.specs.Prelude.{◌≡◌, ◌∷◌, [], ◌++◌, ◌<◌, length, IsTrue};
ghost use Rattle.sw_parse_grammar.specs.Grammar.{member, seq};
ghost use Rattle.sw_parse_table.specs.Parts.{Texts};
ghost use Rattle.sw_parse_css.specs.Seen.{seen, terminal_at};
ghost use Rattle.sw_parse_css.specs.Sheets.{bracketed, text_item, text_items, text, optional_text, pseudo};
ghost use Rattle.sw_parse_css.specs.Rows.{text_starts, text_in};
ghost use Rattle.sw_parse_css.specs.Reads.{reader, reads, Passes, Reads};

use crate::said::text_between;
use crate::seen::is_at;
use std::alloc::Global;
use sw_parse_grammar::ReadError;
use sw_parse_table::{Source, found};
use sw_parse_terminals::Terminal;
use sw_tree::Text;

/// Whether text begins at a place.
pub(crate) fn begins_text(source: &Source, at: usize) -> bool
    ensures test { result ≡ member (terminal_at (seen source.now) at) text_starts }
    ensures within { IsTrue result → at < length source.now.lexemes.now }
{
    is_at(source, at, Terminal::Raw)
        || is_at(source, at, Terminal::RawParen)
        || is_at(source, at, Terminal::RawBracket)
        || is_at(source, at, Terminal::RawBrace)
}

/// What stands in brackets of a kind, which open a level.
#[cycle(text)]
#[tactic(auto, unfolding(sw_parse_grammar::specs::Readers::parse))]
fn brackets_at(
    source: &Source,
    levels: u8,
    at: usize,
    brackets: (Terminal, Terminal),
) -> Result<usize, ReadError>
    ensures { Passes result (reader (seen source.now) levels (bracketed brackets.0 brackets.1) at) }
{
    if !is_at(source, at, brackets.0) {
        return Err(ReadError::Unexpected(at));
    }
    if levels == 0 {
        return Err(ReadError::TooDeep(at));
    }
    let place = text_items_at(source, levels - 1, at + 1)?;
    if !is_at(source, place, brackets.1) {
        return Err(ReadError::Unexpected(place));
    }
    Ok(place + 1)
}

/// One token of text, or what stands in brackets.
#[cycle(text)]
#[tactic(auto, unfolding(sw_parse_grammar::specs::Readers::parse, crate::specs::Sheets::text_item))]
fn text_item_at(source: &Source, levels: u8, at: usize) -> Result<usize, ReadError>
    ensures { Passes result (reader (seen source.now) levels text_item at) }
{
    if is_at(source, at, Terminal::Raw) {
        Ok(at + 1)
    } else if is_at(source, at, Terminal::RawParen) {
        brackets_at(
            source,
            levels,
            at,
            (Terminal::RawParen, Terminal::RawParenEnd),
        )
    } else if is_at(source, at, Terminal::RawBracket) {
        brackets_at(
            source,
            levels,
            at,
            (Terminal::RawBracket, Terminal::RawBracketEnd),
        )
    } else {
        brackets_at(
            source,
            levels,
            at,
            (Terminal::RawBrace, Terminal::RawBraceEnd),
        )
    }
}

/// The place behind any number of these.
#[cycle(text)]
pub(crate) fn text_items_at(source: &Source, levels: u8, at: usize) -> Result<usize, ReadError>
    ensures { Passes result (reader (seen source.now) levels text_items at) }
{
    let mut place = at;
    'items: while begins_text(source, place) {
        place = text_item_at(source, levels, place)?;
    }
    Ok(place)
}

/// The place behind text that isn't empty.
#[tactic(auto, unfolding(sw_parse_grammar::specs::Readers::parse))]
pub(crate) fn behind_text(source: &Source, levels: u8, at: usize) -> Result<usize, ReadError>
    ensures { Passes result (reader (seen source.now) levels (seq text_item text_items) at) }
{
    let place = text_item_at(source, levels, at)?;
    text_items_at(source, levels, place)
}

/// Text that isn't empty, without the comments in it.
#[tactic(auto, unfolding(sw_parse_grammar::specs::Readers::parse, crate::specs::Sheets::text))]
pub(crate) fn text_at(
    alloc: Global,
    source: &Source,
    levels: u8,
    at: usize,
) -> Result<(Text, usize), ReadError>
    ensures { Reads (λ text. Texts text ∷ []) result (reads (seen source.now) levels text at) }
{
    let place = behind_text(source, levels, at)?;
    let text = found(text_between(alloc, source, at, place))?;
    Ok((text, place))
}

/// Text where some stands.
#[tactic(auto, unfolding(sw_parse_grammar::specs::Readers::parse, crate::specs::Sheets::optional_text, crate::specs::Sheets::text, crate::specs::Sheets::text_item))]
pub(crate) fn optional_text_at(
    alloc: Global,
    source: &Source,
    levels: u8,
    at: usize,
) -> Result<(Option<Text>, usize), ReadError>
    ensures { Reads text_in result (reads (seen source.now) levels optional_text at) }
{
    if !begins_text(source, at) {
        return Ok((None, at));
    }
    let (text, place) = text_at(alloc, source, levels, at)?;
    Ok((Some(text), place))
}

/// Text that stands directly behind a `:`, as the name of a pseudo-class does.
#[tactic(auto, unfolding(sw_parse_grammar::specs::Readers::parse, crate::specs::Sheets::pseudo))]
pub(crate) fn pseudo_at(
    alloc: Global,
    source: &Source,
    levels: u8,
    at: usize,
) -> Result<(Text, usize), ReadError>
    ensures { Reads (λ text. Texts text ∷ []) result (reads (seen source.now) levels pseudo at) }
{
    if !is_at(source, at, Terminal::Part) {
        return Err(ReadError::Unexpected(at));
    }
    let place = text_items_at(source, levels, at + 1)?;
    let text = found(text_between(alloc, source, at, place))?;
    Ok((text, place))
}
