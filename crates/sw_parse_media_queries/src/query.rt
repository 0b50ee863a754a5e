// Media queries.
ghost use Rattle.std.specs.Prelude.{◌≡◌, ◌∷◌, [], map, IfOk};
ghost use Rattle.sw_parse_grammar.specs.Grammar.{seq, many};
ghost use Rattle.sw_parse_table.specs.Parts.{Texts, Pieces};
ghost use Rattle.sw_parse_table.specs.Queries.{to_queries, inserted_query, prefixed_query, typed_name, paren_feature, features, query, comma_query, queries};
ghost use Rattle.sw_parse_table.specs.Reads.{reader, reads, Reads};
ghost use Rattle.sw_parse_media_queries.specs.Adding.{Adds};
ghost use Rattle.sw_parse_media_queries.specs.Joints.{prefix_piece, typed_tail, inserted_rest};

use crate::at::{begins_name, is_prefix, is_type_part};
use crate::feature::{Joint, features_at, joined_features_at, not_feature_at, paren_feature_at};
use crate::piece::{add_text, inserted_at, token_at};
use crate::typed::{typed_at, typed_name_at, typed_part_at, typed_rest_at, typed_tail_at};
use std::alloc::Global;
use sw_parse_grammar::ReadError;
use sw_parse_table::{Source, found, is_at, span_between};
use sw_parse_terminals::Terminal;
use sw_text::{List, Memory};
use sw_tree::{Parts, Piece, Text};

/// The word before a media type.
fn prefix_at(
    alloc: Global,
    list: &mut List<Piece>,
    source: &Source,
    levels: u8,
    at: usize,
) -> Result<usize, ReadError>
    ensures { Adds list.old list.new result (reader source.now levels (prefix_piece source.now) at) }
{
    if is_at(source, at, Terminal::NotType) {
        token_at(alloc, list, source, levels, at, Terminal::NotType)
    } else {
        token_at(alloc, list, source, levels, at, Terminal::Only)
    }
}

/// A media type behind `not` or `only`.
fn prefixed_query_at(
    alloc: Global,
    list: &mut List<Piece>,
    source: &Source,
    levels: u8,
    at: usize,
) -> Result<usize, ReadError>
    ensures { Adds list.old list.new result (reads source.now levels prefixed_query at) }
{
    let place = prefix_at(alloc, list, source, levels, at)?;
    add_text(alloc, list, " ")?;
    typed_at(alloc, list, source, levels, place)
}

/// What stands behind the `#{}` with which a query begins.
fn inserted_rest_at(
    alloc: Global,
    list: &mut List<Piece>,
    source: &Source,
    levels: u8,
    at: usize,
) -> Result<usize, ReadError>
    ensures { Adds list.old list.new result (reader source.now levels (inserted_rest source.now) at) }
{
    if is_type_part(source, at) {
        let place = typed_part_at(alloc, list, source, levels, at)?;
        return typed_tail_at(alloc, list, source, levels, place);
    }
    if is_at(source, at, Terminal::Or) {
        return joined_features_at(alloc, list, source, levels, at, Joint::Or);
    }
    typed_rest_at(alloc, list, source, levels, at)
}

/// A query that begins with `#{}`.
fn inserted_query_at(
    alloc: Global,
    list: &mut List<Piece>,
    source: &Source,
    levels: u8,
    at: usize,
) -> Result<usize, ReadError>
    ensures { Adds list.old list.new result (reads source.now levels inserted_query at) }
{
    let place = inserted_at(alloc, list, source, levels, at, Terminal::WordInsert)?;
    inserted_rest_at(alloc, list, source, levels, place)
}

/// A query that begins with a name or a sign.
fn named_query_at(
    alloc: Global,
    list: &mut List<Piece>,
    source: &Source,
    levels: u8,
    at: usize,
) -> Result<usize, ReadError>
    ensures { Adds list.old list.new result (reader source.now levels (seq (typed_name source.now) (typed_tail
        source.now)) at) }
{
    let place = typed_name_at(alloc, list, source, levels, at)?;
    typed_tail_at(alloc, list, source, levels, place)
}

/// A query that begins with a parenthesis.
fn paren_query_at(
    alloc: Global,
    list: &mut List<Piece>,
    source: &Source,
    levels: u8,
    at: usize,
) -> Result<usize, ReadError>
    ensures { Adds list.old list.new result (reader source.now levels (seq (paren_feature source.now) (features
        source.now)) at) }
{
    let place = paren_feature_at(alloc, list, source, levels, at)?;
    features_at(alloc, list, source, levels, place)
}

/// One query.
fn query_at(
    alloc: Global,
    list: &mut List<Piece>,
    source: &Source,
    levels: u8,
    at: usize,
) -> Result<usize, ReadError>
    ensures { Adds list.old list.new result (reads source.now levels query at) }
{
    if is_prefix(source, at) {
        prefixed_query_at(alloc, list, source, levels, at)
    } else if begins_name(source, at) {
        named_query_at(alloc, list, source, levels, at)
    } else if is_at(source, at, Terminal::WordInsert) {
        inserted_query_at(alloc, list, source, levels, at)
    } else if is_at(source, at, Terminal::Not) {
        not_feature_at(alloc, list, source, levels, at)
    } else {
        paren_query_at(alloc, list, source, levels, at)
    }
}

/// Any number of further queries, each behind a comma.
fn comma_queries_at(
    alloc: Global,
    list: &mut List<Piece>,
    source: &Source,
    levels: u8,
    at: usize,
) -> Result<usize, ReadError>
    ensures { Adds list.old list.new result (reader source.now levels (many (comma_query source.now)) at) }
{
    let mut place = at;
    'queries: while is_at(source, place, Terminal::Comma) {
        add_text(alloc, list, ", ")?;
        place = query_at(alloc, list, source, levels, place + 1)?;
    }
    Ok(place)
}

/// The pieces of all queries.
fn pieces_at(
    alloc: Global,
    list: &mut List<Piece>,
    source: &Source,
    levels: u8,
    at: usize,
) -> Result<usize, ReadError>
    ensures { Adds list.old list.new result (reader source.now levels (seq (query source.now) (many (comma_query
        source.now))) at) }
{
    let place = query_at(alloc, list, source, levels, at)?;
    comma_queries_at(alloc, list, source, levels, place)
}

/// The text of these pieces, from the token at a place to the one before another.
#[tactic(auto, using(crate::proofs::Added::pieces_of_pieces))]
fn text_of(source: &Source, at: usize, place: usize, list: List<Piece>) -> Result<Text, Memory>
    ensures { IfOk result (λ text. to_queries source.now at place (map Pieces list) ≡ Texts text ∷ []) }
{
    let span = span_between(source, at, place)?;
    Ok(Text {
        parts: Parts::Mixed(list),
        span,
    })
}

/// The media queries at a place, where so many levels of brackets may be opened, and the place behind them (Media
/// Queries Level 4; Sass reference documentation, "@media"). Their text is as it will be written, with spaces where
/// they are written, and with the values in it.
pub fn queries_at(
    alloc: Global,
    source: &Source,
    levels: u8,
    at: usize,
) -> Result<(Text, usize), ReadError>
    ensures { Reads (λ text. Texts text ∷ []) result (reads source.now levels queries at) }
{
    let mut list = List::new(alloc);
    let place = pieces_at(alloc, &mut list, source, levels, at)?;
    let text = found(text_of(source, at, place, list))?;
    Ok((text, place))
}
