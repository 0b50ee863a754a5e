// Declarations, with nested properties and without.
ghost use Rattle.std.specs.Prelude.{◌≡◌, ◌∷◌, [], ◌++◌, map, IfOk, IfErr, OnOk};
ghost use Rattle.sw_parse_grammar.specs.Grammar.{acted, prepend};
ghost use Rattle.sw_parse_table.specs.Parts.{Texts, Values, Behind, Blocks, States};
ghost use Rattle.sw_parse_table.specs.Actions.{to_declaration};
ghost use Rattle.sw_parse_table.specs.Statements.{block as block_row, declaration};
ghost use Rattle.sw_parse_table.specs.Reads.{reads};
ghost use Rattle.sw_parse_expr_lists.specs.Deeper.{Callable};
ghost use Rattle.sw_parse_statement_blocks.specs.Inner.{ReadingInner, ReadsBehind};
ghost use Rattle.sw_parse_statement_blocks.specs.Rows.{opening_parts, block_place};

use crate::behind::put;
use crate::block::block_at;
use std::alloc::Global;
use sw_parse_expr_nodes::given_up;
use sw_parse_grammar::ReadError;
use sw_parse_statement_heads::{property_at, value_head_at};
use sw_parse_statement_text::finish_at;
use sw_parse_table::{Source, found, is_at, span_between};
use sw_parse_terminals::Terminal;
use sw_text::{List, Memory};
use sw_tree::{Declaration, Expr, Properties, Statement, Text};

/// What stands before the block of nested properties.
#[derive(Drop)]
pub(crate) struct Opening {
    pub property: Text,
    /// The place behind the `:`.
    pub place: usize,
    /// A value, and the place behind it.
    pub value: Option<(Expr, usize)>,
}

fn properties_of(
    source: &Source,
    places: (usize, usize),
    opening: Opening,
    block: List<Statement>,
) -> Result<Statement, Memory>
    ensures { IfOk result (λ statement. to_declaration source.now places.0 places.1 (opening_parts opening ++ Blocks
        block ∷ []) ≡ States statement ∷ []) }
{
    let Opening {
        property,
        place,
        value,
    } = opening;
    let (value, end) = match value {
        None => (None, place),
        Some((value, end)) => (Some(value), end),
    };
    match span_between(source, places.0, end) {
        Ok(span) => Ok(Statement::Properties(Properties {
            property,
            value,
            block,
            span,
        })),
        Err(error) => Err(given_up((property, value, block), error)),
    }
}

/// The block of nested properties behind what stands before it.
#[inline(never)]
fn properties_behind<S: Fn(u8, usize) -> Result<(List<Statement>, usize), ReadError> + Copy>(
    list: &mut Vec<Statement>,
    inner: S,
    source: &Source,
    levels: u8,
    at: usize,
    opening: Opening,
) -> Result<usize, ReadError>
    requires callable { Callable (S.Fn.pre inner) levels }
    requires reading { ReadingInner (S.Fn.post inner) source.now levels }
    ensures { ReadsBehind list.old.items list.new.items result (acted (to_declaration source.now at) (prepend
        (opening_parts opening) (reads source.now levels block_row (block_place opening)))) }
{
    let place = block_place(&opening);
    match block_at(inner, source, levels, place) {
        Ok((block, next)) => {
            let statement = found(properties_of(source, (at, next), opening, block))?;
            put(list, statement)?;
            Ok(next)
        }
        Err(error) => Err(given_up(opening, error)),
    }
}

fn block_place(opening: &Opening) -> usize
    ensures { result ≡ block_place opening.now }
{
    match &opening.value {
        None => opening.place,
        Some((_, end)) => *end,
    }
}

/// Puts a declaration without a block behind the others.
#[inline(always)]
fn put_plain(
    list: &mut Vec<Statement>,
    source: &Source,
    places: (usize, usize),
    property: Text,
    value: Expr,
) -> Result<(), ReadError>
    ensures more { OnOk result (map States list.new.items ≡ map States list.old.items
        ++ to_declaration source.now places.0 places.1 (Texts property ∷ Behind places.1 ∷ Values value ∷ Behind places.1 ∷ [])) }
    ensures memory { IfErr result (λ error. error ≡ ReadError.Memory) }
{
    match span_between(source, places.0, places.1) {
        Ok(span) => put(
            list,
            Statement::Declaration(Declaration {
                property,
                value,
                span,
            }),
        ),
        Err(_) => Err(given_up((property, value), ReadError::Memory)),
    }
}

/// A declaration with its value, its nested properties, or both, put behind the statements before it.
pub fn declaration_behind<S: Fn(u8, usize) -> Result<(List<Statement>, usize), ReadError> + Copy>(
    list: &mut Vec<Statement>,
    alloc: Global,
    inner: S,
    source: &Source,
    levels: u8,
    at: usize,
) -> Result<usize, ReadError>
    requires callable { Callable (S.Fn.pre inner) levels }
    requires reading { ReadingInner (S.Fn.post inner) source.now levels }
    ensures { ReadsBehind list.old.items list.new.items result (reads source.now levels declaration at) }
{
    let (property, place) = property_at(alloc, source, levels, at)?;
    if is_at(source, place, Terminal::Open) {
        let opening = Opening {
            property,
            place,
            value: None,
        };
        return properties_behind(list, inner, source, levels, at, opening);
    }
    let (value, end) = match value_head_at(alloc, source, levels, place) {
        Ok(read) => read,
        Err(error) => return Err(given_up(property, error)),
    };
    if is_at(source, end, Terminal::Open) {
        let opening = Opening {
            property,
            place,
            value: Some((value, end)),
        };
        return properties_behind(list, inner, source, levels, at, opening);
    }
    match finish_at(source, levels, end) {
        Ok(next) => {
            put_plain(list, source, (at, end), property, value)?;
            Ok(next)
        }
        Err(error) => Err(given_up((property, value), error)),
    }
}
