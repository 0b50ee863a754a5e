// Media types, and the features behind them.
ghost use Rattle.std.specs.Prelude.{◌≡◌, ◌∷◌, []};
ghost use Rattle.sw_parse_grammar.specs.Grammar.{alt, many};
ghost use Rattle.sw_parse_table.specs.Queries.{typed_rest, typed_part, typed_name, inserted, typed};
ghost use Rattle.sw_parse_table.specs.Reads.{reader, reads};
ghost use Rattle.sw_parse_media_queries.specs.Adding.{Adds};
ghost use Rattle.sw_parse_media_queries.specs.Joints.{behind_and, typed_tail};

use crate::at::{begins_name, is_type_part};
use crate::feature::{Joint, feature_at, joined_features_at, not_feature_at};
use crate::piece::{add_text, inserted_at, token_at};
use std::alloc::Global;
use sw_parse_grammar::ReadError;
use sw_parse_table::{Source, is_at};
use sw_parse_terminals::Terminal;
use sw_text::List;
use sw_tree::Piece;

/// A name, a number, a sign or a `#{}` in a media type.
pub(crate) fn typed_part_at(
    alloc: Global,
    list: &mut List<Piece>,
    source: &Source,
    levels: u8,
    at: usize,
) -> Result<usize, ReadError>
    ensures { Adds list.old list.new result (reads source.now levels typed_part at) }
{
    if is_at(source, at, Terminal::Part) {
        token_at(alloc, list, source, levels, at, Terminal::Part)
    } else {
        inserted_at(alloc, list, source, levels, at, Terminal::PartInsert)
    }
}

/// Any number of these.
fn typed_parts_at(
    alloc: Global,
    list: &mut List<Piece>,
    source: &Source,
    levels: u8,
    at: usize,
) -> Result<usize, ReadError>
    ensures { Adds list.old list.new result (reader source.now levels (many (typed_part source.now)) at) }
{
    let mut place = at;
    'parts: while is_type_part(source, place) {
        place = typed_part_at(alloc, list, source, levels, place)?;
    }
    Ok(place)
}

/// The features behind the `and` that follows a media type, or the one behind `not`.
fn behind_and_at(
    alloc: Global,
    list: &mut List<Piece>,
    source: &Source,
    levels: u8,
    at: usize,
) -> Result<usize, ReadError>
    ensures { Adds list.old list.new result (reader source.now levels (behind_and source.now) at) }
{
    if is_at(source, at, Terminal::Not) {
        return not_feature_at(alloc, list, source, levels, at);
    }
    let place = feature_at(alloc, list, source, levels, at)?;
    joined_features_at(alloc, list, source, levels, place, Joint::And)
}

/// The features behind a media type, where some stand.
pub(crate) fn typed_rest_at(
    alloc: Global,
    list: &mut List<Piece>,
    source: &Source,
    levels: u8,
    at: usize,
) -> Result<usize, ReadError>
    ensures { Adds list.old list.new result (reads source.now levels typed_rest at) }
{
    if !is_at(source, at, Terminal::And) {
        return Ok(at);
    }
    add_text(alloc, list, " and ")?;
    behind_and_at(alloc, list, source, levels, at + 1)
}

/// What stands behind the beginning of a media type.
pub(crate) fn typed_tail_at(
    alloc: Global,
    list: &mut List<Piece>,
    source: &Source,
    levels: u8,
    at: usize,
) -> Result<usize, ReadError>
    ensures { Adds list.old list.new result (reader source.now levels (typed_tail source.now) at) }
{
    let place = typed_parts_at(alloc, list, source, levels, at)?;
    typed_rest_at(alloc, list, source, levels, place)
}

/// The beginning of a media type: a name, or a sign and a `#{}`.
pub(crate) fn typed_name_at(
    alloc: Global,
    list: &mut List<Piece>,
    source: &Source,
    levels: u8,
    at: usize,
) -> Result<usize, ReadError>
    ensures { Adds list.old list.new result (reads source.now levels typed_name at) }
{
    if is_at(source, at, Terminal::Word) {
        return token_at(alloc, list, source, levels, at, Terminal::Word);
    }
    let place = token_at(alloc, list, source, levels, at, Terminal::WordMinus)?;
    inserted_at(alloc, list, source, levels, place, Terminal::WordInsert)
}

/// The same, or a `#{}`.
fn typed_start_at(
    alloc: Global,
    list: &mut List<Piece>,
    source: &Source,
    levels: u8,
    at: usize,
) -> Result<usize, ReadError>
    ensures { Adds list.old list.new result (reader source.now levels (alt (typed_name source.now) (inserted source.now))
        at) }
{
    if begins_name(source, at) {
        typed_name_at(alloc, list, source, levels, at)
    } else {
        inserted_at(alloc, list, source, levels, at, Terminal::WordInsert)
    }
}

/// A media type, with the features behind it.
pub(crate) fn typed_at(
    alloc: Global,
    list: &mut List<Piece>,
    source: &Source,
    levels: u8,
    at: usize,
) -> Result<usize, ReadError>
    ensures { Adds list.old list.new result (reads source.now levels typed at) }
{
    let place = typed_start_at(alloc, list, source, levels, at)?;
    typed_tail_at(alloc, list, source, levels, place)
}
