// `@media`: queries and a block.
ghost use Rattle.std.specs.Prelude.{◌≡◌, ◌∷◌, [], IfOk};
ghost use Rattle.sw_parse_table.specs.Parts.{Texts, Behind, Blocks, States};
ghost use Rattle.sw_parse_table.specs.Actions.{to_media};
ghost use Rattle.sw_parse_table.specs.Statements.{media};
ghost use Rattle.sw_parse_table.specs.Reads.{reader, reads, Reads};
ghost use Rattle.sw_parse_expr_lists.specs.Deeper.{Callable};
ghost use Rattle.sw_parse_statement_heads.specs.Heads.{ReadsHead};
ghost use Rattle.sw_parse_statement_blocks.specs.Inner.{ReadingInner};
ghost use Rattle.sw_parse_statement_blocks.specs.Rows.{media_head};

use crate::block::headed_at;
use std::alloc::Global;
use sw_parse_expr_nodes::{given_up, skipped};
use sw_parse_grammar::ReadError;
use sw_parse_media_queries::queries_at;
use sw_parse_table::{Source, found, span_between};
use sw_parse_terminals::Terminal;
use sw_text::{List, Memory};
use sw_tree::{Media, Statement, Text};

/// `@media` and its queries.
#[tactic(auto, unfolding(sw_parse_grammar::specs::Readers::parse))]
fn media_head_at(
    alloc: Global,
    source: &Source,
    levels: u8,
    at: usize,
) -> Result<(Text, usize), ReadError>
    ensures { ReadsHead (λ text. Texts text ∷ []) result (reader source.now levels (media_head source.now) at) }
{
    let place = skipped(source, levels, at, Terminal::AtMedia)?;
    queries_at(alloc, source, levels, place)
}

fn media_of(
    source: &Source,
    at: usize,
    head: usize,
    queries: Text,
    block: List<Statement>,
) -> Result<Statement, Memory>
    ensures { IfOk result (λ statement. to_media source.now at head (Texts queries ∷ Behind head ∷ Blocks block ∷ [])
        ≡ States statement ∷ []) }
{
    match span_between(source, at, head) {
        Ok(span) => Ok(Statement::Media(Media {
            queries,
            block,
            span,
        })),
        Err(error) => Err(given_up((queries, block), error)),
    }
}

/// `@media` with its queries and its block.
#[tactic(auto, unfolding(sw_parse_grammar::specs::Readers::parse, sw_parse_table::specs::Statements::media))]
pub fn media_at<S: Fn(u8, usize) -> Result<(List<Statement>, usize), ReadError> + Copy>(
    alloc: Global,
    inner: S,
    source: &Source,
    levels: u8,
    at: usize,
) -> Result<(Statement, usize), ReadError>
    requires callable { Callable (S.Fn.pre inner) levels }
    requires reading { ReadingInner (S.Fn.post inner) source.now levels }
    ensures { Reads (λ statement. States statement ∷ []) result (reads source.now levels media at) }
{
    let (queries, head) = media_head_at(alloc, source, levels, at)?;
    let ((queries, block), place) = headed_at(inner, source, levels, head, queries)?;
    let statement = found(media_of(source, at, head, queries, block))?;
    Ok((statement, place))
}
