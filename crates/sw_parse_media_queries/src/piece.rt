// The pieces of a query's text.
ghost use Rattle.std.specs.Prelude.{◌≡◌, ◌∷◌, [], ◌++◌, OnOk, IfErr};
ghost use Rattle.sw_tree.specs.declared.text.Piece.TheVariants as pieces;
ghost use Rattle.sw_parse_table.specs.Expressions.{space};
ghost use Rattle.sw_parse_table.specs.Reads.{reader, reads, ReadsValue};
ghost use Rattle.sw_parse_media_queries.specs.Adding.{Adds, token_piece, insert_piece, paren_end};

use std::alloc::Global;
use sw_expr_parse::read_space;
use sw_parse_expr_lists::insert_at;
use sw_parse_grammar::ReadError;
use sw_parse_table::{Source, bytes_between, found, is_at};
use sw_parse_terminals::Terminal;
use sw_text::{List, Name};
use sw_tree::{Expr, Piece};

/// Puts a piece behind the others.
pub(crate) fn add(list: &mut List<Piece>, piece: Piece) -> Result<(), ReadError>
    ensures more { OnOk result (list.new ≡ list.old ++ piece ∷ []) }
    ensures memory { IfErr result (λ error. error ≡ ReadError.Memory) }
{
    found(list.push(piece))
}

/// Puts a text behind the pieces.
pub(crate) fn add_text(alloc: Global, list: &mut List<Piece>, text: &str) -> Result<(), ReadError>
    ensures more { OnOk result (list.new ≡ list.old ++ pieces.Text text.now ∷ []) }
    ensures memory { IfErr result (λ error. error ≡ ReadError.Memory) }
{
    let text = found(Name::new(alloc, text))?;
    add(list, Piece::Text(text))
}

/// A token as it stands.
pub(crate) fn token_at(
    alloc: Global,
    list: &mut List<Piece>,
    source: &Source,
    levels: u8,
    at: usize,
    terminal: Terminal,
) -> Result<usize, ReadError>
    ensures { Adds list.old list.new result (reader source.now levels (token_piece source.now terminal) at) }
{
    if !is_at(source, at, terminal) {
        return Err(ReadError::Unexpected(at));
    }
    add_text(alloc, list, bytes_between(source, at, at + 1))?;
    Ok(at + 1)
}

/// A `#{}` that this token opens.
pub(crate) fn inserted_at(
    alloc: Global,
    list: &mut List<Piece>,
    source: &Source,
    levels: u8,
    at: usize,
    opening: Terminal,
) -> Result<usize, ReadError>
    ensures { Adds list.old list.new result (reader source.now levels (insert_piece source.now opening) at) }
{
    let (value, place) = insert_at(
        alloc,
        |lower: u8, place: usize| -> Result<(Expr, usize), ReadError>
            ensures { ReadsValue result (reads source.entry.now lower space place) }
        { read_space(alloc, source, lower, place) },
        source,
        levels,
        at,
        opening,
    )?;
    add(list, Piece::Inserted(value))?;
    Ok(place)
}

/// The parenthesis behind what stands in one.
pub(crate) fn paren_end_at(
    alloc: Global,
    list: &mut List<Piece>,
    source: &Source,
    levels: u8,
    at: usize,
) -> Result<usize, ReadError>
    ensures { Adds list.old list.new result (reader source.now levels paren_end at) }
{
    if !is_at(source, at, Terminal::ParenEnd) {
        return Err(ReadError::Unexpected(at));
    }
    add_text(alloc, list, ")")?;
    Ok(at + 1)
}
