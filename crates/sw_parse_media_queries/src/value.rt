// What stands in the parentheses of a feature: its name, values and what compares them.
ghost use Rattle.std.specs.Prelude.{◌≡◌, ◌∷◌, [], ◌++◌, codes, IfOk, OnOk, IfErr};
ghost use Rattle.sw_parse_grammar.specs.Grammar.{alt, empty};
ghost use Rattle.sw_tree.specs.declared.text.Piece.TheVariants as pieces;
ghost use Rattle.sw_parse_terminals.specs.declared.terminal.Terminal.TheVariants.{Paren};
ghost use Rattle.sw_parse_table.specs.Parts.{Feature};
ghost use Rattle.sw_parse_table.specs.Sources.{bytes_at};
ghost use Rattle.sw_parse_table.specs.Queries.{value_piece, comparison, colon_piece, feature_inside};
ghost use Rattle.sw_parse_table.specs.Reads.{reader, reads};
ghost use Rattle.sw_parse_media_queries.specs.Adding.{Adds, parens};
ghost use Rattle.sw_parse_media_queries.specs.Joints.{expr_piece, compared, feature_rest};

use crate::at::is_comparison;
use crate::piece::{add, add_text, paren_end_at};
use std::alloc::Global;
use sw_expr_parse::{read_sum, read_value};
use sw_parse_grammar::ReadError;
use sw_parse_table::{Source, bytes_at, found, is_at};
use sw_parse_terminals::Terminal;
use sw_text::{List, Memory, Name};
use sw_tree::Piece;

/// A sum by itself.
fn value_at(
    alloc: Global,
    list: &mut List<Piece>,
    source: &Source,
    levels: u8,
    at: usize,
) -> Result<usize, ReadError>
    ensures { Adds list.old list.new result (reads source.now levels value_piece at) }
{
    let (value, place) = read_sum(alloc, source, levels, at)?;
    add(list, Piece::Value(value))?;
    Ok(place)
}

/// An expression with commas by itself.
fn commas_at(
    alloc: Global,
    list: &mut List<Piece>,
    source: &Source,
    levels: u8,
    at: usize,
) -> Result<usize, ReadError>
    ensures { Adds list.old list.new result (reader source.now levels (expr_piece source.now) at) }
{
    let (value, place) = read_value(alloc, source, levels, at)?;
    add(list, Piece::Value(value))?;
    Ok(place)
}

/// `:` and the value of a feature.
fn colon_at(
    alloc: Global,
    list: &mut List<Piece>,
    source: &Source,
    levels: u8,
    at: usize,
) -> Result<usize, ReadError>
    ensures { Adds list.old list.new result (reads source.now levels colon_piece at) }
{
    if !is_at(source, at, Terminal::Colon) {
        return Err(ReadError::Unexpected(at));
    }
    add_text(alloc, list, ": ")?;
    commas_at(alloc, list, source, levels, at + 1)
}

fn spaced(alloc: Global, text: &str) -> Result<Name, Memory>
    ensures { IfOk result (λ name. name ≡ codes " " ++ text.now ++ codes " ") }
{
    let mut spaced = String::new(alloc);
    spaced.push(' ')?;
    spaced.push_str(text)?;
    spaced.push(' ')?;
    Name::new(alloc, spaced.as_str())
}

/// Puts what compares behind the pieces, with spaces around it.
fn add_comparison(
    alloc: Global,
    list: &mut List<Piece>,
    source: &Source,
    at: usize,
) -> Result<(), ReadError>
    ensures more { OnOk result (list.new ≡ list.old ++ pieces.Text (codes " " ++ bytes_at source.now at ++ codes " ") ∷
        []) }
    ensures memory { IfErr result (λ error. error ≡ ReadError.Memory) }
{
    let text = found(spaced(alloc, bytes_at(source, at)))?;
    add(list, Piece::Text(text))
}

/// What compares, and the value behind it.
fn comparison_at(
    alloc: Global,
    list: &mut List<Piece>,
    source: &Source,
    levels: u8,
    at: usize,
) -> Result<usize, ReadError>
    ensures { Adds list.old list.new result (reads source.now levels comparison at) }
{
    if !is_comparison(source, at) {
        return Err(ReadError::Unexpected(at));
    }
    add_comparison(alloc, list, source, at)?;
    value_at(alloc, list, source, levels, at + 1)
}

/// The same where it may be left out.
fn second_comparison_at(
    alloc: Global,
    list: &mut List<Piece>,
    source: &Source,
    levels: u8,
    at: usize,
) -> Result<usize, ReadError>
    ensures { Adds list.old list.new result (reader source.now levels (alt (comparison source.now) empty) at) }
{
    if !is_comparison(source, at) {
        return Ok(at);
    }
    comparison_at(alloc, list, source, levels, at)
}

/// What compares, once or twice, with the values behind it.
fn comparisons_at(
    alloc: Global,
    list: &mut List<Piece>,
    source: &Source,
    levels: u8,
    at: usize,
) -> Result<usize, ReadError>
    ensures { Adds list.old list.new result (reader source.now levels (compared source.now) at) }
{
    let place = comparison_at(alloc, list, source, levels, at)?;
    second_comparison_at(alloc, list, source, levels, place)
}

/// What stands behind the first value of a feature.
fn feature_rest_at(
    alloc: Global,
    list: &mut List<Piece>,
    source: &Source,
    levels: u8,
    at: usize,
) -> Result<usize, ReadError>
    ensures { Adds list.old list.new result (reader source.now levels (feature_rest source.now) at) }
{
    if is_at(source, at, Terminal::Colon) {
        colon_at(alloc, list, source, levels, at)
    } else if is_comparison(source, at) {
        comparisons_at(alloc, list, source, levels, at)
    } else {
        Ok(at)
    }
}

/// What stands in the parentheses of a feature.
fn feature_inside_at(
    alloc: Global,
    list: &mut List<Piece>,
    source: &Source,
    levels: u8,
    at: usize,
) -> Result<usize, ReadError>
    ensures { Adds list.old list.new result (reads source.now levels feature_inside at) }
{
    let place = value_at(alloc, list, source, levels, at)?;
    feature_rest_at(alloc, list, source, levels, place)
}

/// A feature in its parentheses, which open a level.
pub(crate) fn value_parens_at(
    alloc: Global,
    list: &mut List<Piece>,
    source: &Source,
    levels: u8,
    at: usize,
) -> Result<usize, ReadError>
    ensures { Adds list.old list.new result (reader source.now levels (parens Paren Feature) at) }
{
    if !is_at(source, at, Terminal::Paren) {
        return Err(ReadError::Unexpected(at));
    }
    if levels == 0 {
        return Err(ReadError::TooDeep(at));
    }
    add_text(alloc, list, "(")?;
    let place = feature_inside_at(alloc, list, source, levels - 1, at + 1)?;
    paren_end_at(alloc, list, source, levels - 1, place)
}
