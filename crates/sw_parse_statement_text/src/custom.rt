// Custom properties, and the names of at-rules.
ghost use Rattle.std.specs.Prelude.{◌≡◌, ◌∷◌, [], ◌++◌, map, IfOk};
ghost use Rattle.sw_parse_grammar.specs.Grammar.{alt, seq, skip, many, prepend};
ghost use Rattle.sw_parse_table.specs.Parts.{Texts, States};
ghost use Rattle.sw_parse_table.specs.Sources.{text_between};
ghost use Rattle.sw_parse_table.specs.Actions.{to_custom};
ghost use Rattle.sw_parse_table.specs.Statements.{custom_name, custom};
ghost use Rattle.sw_parse_table.specs.Reads.{reader, reads, Reads};
ghost use Rattle.sw_parse_expr_lists.specs.Deeper.{Callable, Reading};
ghost use Rattle.sw_parse_statement_text.specs.Rows.{text_in, custom_value};

use crate::at::ended;
use crate::raw::optional_raw_at;
use std::alloc::Global;
use sw_parse_expr_lists::{Pieces, pieces_at};
use sw_parse_expr_nodes::{given_up, skipped, text_of};
use sw_parse_grammar::ReadError;
use sw_parse_table::{Source, found, span_between};
use sw_parse_terminals::Terminal;
use sw_text::Memory;
use sw_tree::{Custom, Expr, Statement, Text};

/// The name of a custom property, with the `#{}` in it.
#[tactic(auto, unfolding(sw_parse_grammar::specs::Readers::parse, sw_parse_table::specs::Statements::custom_name, sw_parse_table::specs::Expressions::word_part, sw_parse_table::specs::Expressions::part_insert))]
fn custom_name_at<F: Fn(u8, usize) -> Result<(Expr, usize), ReadError> + Copy>(
    alloc: Global,
    deeper: F,
    source: &Source,
    levels: u8,
    at: usize,
) -> Result<(Text, usize), ReadError>
    requires callable { Callable (F.Fn.pre deeper) levels }
    requires reading { Reading (F.Fn.post deeper) source.now levels }
    ensures { Reads (λ text. Texts text ∷ []) result (reads source.now levels custom_name at) }
{
    let place = skipped(source, levels, at, Terminal::Custom)?;
    let (list, place) = pieces_at(alloc, deeper, source, levels, place, Pieces::Word)?;
    let text = found(text_of(alloc, source, at, place, list))?;
    Ok((text, place))
}

/// `:` and the raw text behind it, which may be empty.
#[tactic(auto, unfolding(sw_parse_grammar::specs::Readers::parse))]
fn custom_value_at<F: Fn(u8, usize) -> Result<(Expr, usize), ReadError> + Copy>(
    alloc: Global,
    deeper: F,
    source: &Source,
    levels: u8,
    at: usize,
) -> Result<(Option<Text>, usize), ReadError>
    requires callable { Callable (F.Fn.pre deeper) levels }
    requires reading { Reading (F.Fn.post deeper) source.now levels }
    ensures { Reads text_in result (reader source.now levels (custom_value source.now) at) }
{
    let place = skipped(source, levels, at, Terminal::Colon)?;
    optional_raw_at(alloc, deeper, source, levels, place)
}

fn custom_of(
    source: &Source,
    at: usize,
    place: usize,
    property: Text,
    value: Option<Text>,
) -> Result<Statement, Memory>
    ensures { IfOk result (λ statement. to_custom source.now at place (Texts property ∷ text_in value)
        ≡ States statement ∷ []) }
{
    match span_between(source, at, place) {
        Ok(span) => Ok(Statement::Custom(Custom {
            property,
            value,
            span,
        })),
        Err(error) => Err(given_up((property, value), error)),
    }
}

/// `--property: text` and its end.
#[tactic(auto, unfolding(sw_parse_grammar::specs::Readers::parse, sw_parse_table::specs::Statements::custom))]
pub fn custom_at<F: Fn(u8, usize) -> Result<(Expr, usize), ReadError> + Copy>(
    alloc: Global,
    deeper: F,
    source: &Source,
    levels: u8,
    at: usize,
) -> Result<(Statement, usize), ReadError>
    requires callable { Callable (F.Fn.pre deeper) levels }
    requires reading { Reading (F.Fn.post deeper) source.now levels }
    ensures { Reads (λ statement. States statement ∷ []) result (reads source.now levels custom at) }
{
    let (property, place) = custom_name_at(alloc, deeper, source, levels, at)?;
    let (value, place) = custom_value_at(alloc, deeper, source, levels, place)?;
    let statement = found(custom_of(source, at, place, property, value))?;
    ended(source, levels, place, statement)
}
