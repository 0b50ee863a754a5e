// Comments that are statements.
ghost use Rattle.std.specs.Prelude.{◌≡◌, ◌∷◌, [], map, IfOk};
ghost use Rattle.sw_parse_grammar.specs.Grammar.{many};
ghost use Rattle.sw_parse_table.specs.Parts.{States};
ghost use Rattle.sw_parse_table.specs.Actions.{to_comment};
ghost use Rattle.sw_parse_table.specs.Statements.{comment};
ghost use Rattle.sw_parse_table.specs.Reads.{reader, reads, Reads};
ghost use Rattle.sw_parse_expr_nodes.specs.Views.{insert_of};
ghost use Rattle.sw_parse_expr_lists.specs.Deeper.{Callable, Reading};
ghost use Rattle.sw_parse_statement_text.specs.Rows.{comment_row};

use std::alloc::Global;
use sw_parse_expr_lists::{Pieces, pieces_at};
use sw_parse_expr_nodes::{Inserted, comment_text_of, skipped};
use sw_parse_grammar::ReadError;
use sw_parse_table::{Source, found, is_at};
use sw_parse_terminals::Terminal;
use sw_text::{List, Memory};
use sw_tree::{Expr, Statement};

/// The `#{}` in a comment, and the place behind it.
#[tactic(auto, unfolding(sw_parse_grammar::specs::Readers::parse, sw_parse_table::specs::Expressions::insert))]
fn inserts_at<F: Fn(u8, usize) -> Result<(Expr, usize), ReadError> + Copy>(
    alloc: Global,
    deeper: F,
    source: &Source,
    levels: u8,
    at: usize,
) -> Result<(List<Inserted>, usize), ReadError>
    requires callable { Callable (F.Fn.pre deeper) levels }
    requires reading { Reading (F.Fn.post deeper) source.now levels }
    ensures { Reads (λ list. map insert_of list) result (reader source.now levels (comment_row source.now) at) }
{
    if is_at(source, at, Terminal::CommentWhole) {
        return Ok((List::new(alloc), at + 1));
    }
    let place = skipped(source, levels, at, Terminal::CommentTemplate)?;
    let (list, place) = pieces_at(alloc, deeper, source, levels, place, Pieces::Url)?;
    if !is_at(source, place, Terminal::CommentEnd) {
        return Err(ReadError::Unexpected(place));
    }
    Ok((list, place + 1))
}

fn comment_of(
    alloc: Global,
    source: &Source,
    at: usize,
    place: usize,
    list: List<Inserted>,
) -> Result<Statement, Memory>
    ensures { IfOk result (λ statement. to_comment source.now at place (map insert_of list) ≡ States statement ∷ []) }
{
    Ok(Statement::Comment(comment_text_of(alloc, source, at, place, list)?))
}

/// A comment from `/*` to `*/` that is a statement, with the `#{}` in it.
#[tactic(auto, unfolding(sw_parse_grammar::specs::Readers::parse, sw_parse_table::specs::Statements::comment))]
pub fn comment_at<F: Fn(u8, usize) -> Result<(Expr, usize), ReadError> + Copy>(
    alloc: Global,
    deeper: F,
    source: &Source,
    levels: u8,
    at: usize,
) -> Result<(Statement, usize), ReadError>
    requires callable { Callable (F.Fn.pre deeper) levels }
    requires reading { Reading (F.Fn.post deeper) source.now levels }
    ensures { Reads (λ statement. States statement ∷ []) result (reads source.now levels comment at) }
{
    let (list, place) = inserts_at(alloc, deeper, source, levels, at)?;
    let statement = found(comment_of(alloc, source, at, place, list))?;
    Ok((statement, place))
}
