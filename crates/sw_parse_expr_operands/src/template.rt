// Strings and urls with `#{}`.
ghost use Rattle.std.specs.Prelude.{◌≡◌, ◌∷◌, [], ◌++◌, ◌<◌, length, map, IsTrue, IfOk, IfErr};
ghost use Rattle.sw_parse_grammar.specs.Grammar.{member, many};
ghost use Rattle.sw_parse_terminals.specs.declared.terminal.Terminal.TheVariants.{TextPiece, Insert};
ghost use Rattle.sw_parse_terminals.specs.Numbers.{just};
ghost use Rattle.sw_tree.specs.declared.expr.ExprKind.TheVariants as exprs;
ghost use Rattle.sw_tree.specs.declared.text.Parts.TheVariants.{Mixed};
ghost use Rattle.sw_parse_table.specs.Parts.{Values, Pieces as Piecing};
ghost use Rattle.sw_parse_table.specs.Sources.{terminal_at, span_between};
ghost use Rattle.sw_parse_table.specs.Values.{value_of, to_url};
ghost use Rattle.sw_parse_table.specs.Expressions.{text_item, template, url_template};
ghost use Rattle.sw_parse_table.specs.Reads.{reader, reads, Reads, ReadsValue};
ghost use Rattle.sw_parse_expr_nodes.specs.Views.{insert_of};
ghost use Rattle.sw_parse_expr_lists.specs.Deeper.{Callable, Reading};

use std::alloc::Global;
use sw_parse_expr_lists::{Pieces, insert_at, pieces_at};
use sw_parse_expr_nodes::{Inserted, parts_of, skipped};
use sw_parse_grammar::ReadError;
use sw_parse_table::{Source, decoded_at, found, is_at, span_between};
use sw_parse_terminals::Terminal;
use sw_text::{List, Memory};
use sw_tree::{Expr, ExprKind, Parts, Piece};

fn is_text_item(source: &Source, at: usize) -> bool
    ensures test { result ≡ member (terminal_at source.now at) (just TextPiece ++ just Insert) }
    ensures within { IsTrue result → at < length source.now.lexemes.now }
{
    is_at(source, at, Terminal::TextPiece) || is_at(source, at, Terminal::Insert)
}

/// A text in a string, or a `#{}`.
#[tactic(auto, unfolding(sw_parse_grammar::specs::Readers::parse, sw_parse_table::specs::Expressions::text_item, sw_parse_table::specs::Expressions::insert))]
fn text_item_at<F: Fn(u8, usize) -> Result<(Expr, usize), ReadError> + Copy>(
    alloc: Global,
    deeper: F,
    source: &Source,
    levels: u8,
    at: usize,
) -> Result<(Piece, usize), ReadError>
    requires callable { Callable (F.Fn.pre deeper) levels }
    requires reading { Reading (F.Fn.post deeper) source.now levels }
    ensures { Reads (λ piece. Piecing piece ∷ []) result (reads source.now levels text_item at) }
{
    if is_at(source, at, Terminal::TextPiece) {
        let text = found(decoded_at(alloc, source, at))?;
        return Ok((Piece::Text(text), at + 1));
    }
    let (value, place) = insert_at(alloc, deeper, source, levels, at, Terminal::Insert)?;
    Ok((Piece::Inserted(value), place))
}

/// What a string with `#{}` is made of.
#[tactic(auto, unfolding(sw_parse_grammar::specs::Readers::parse))]
fn text_items_at<F: Fn(u8, usize) -> Result<(Expr, usize), ReadError> + Copy>(
    alloc: Global,
    deeper: F,
    source: &Source,
    levels: u8,
    at: usize,
) -> Result<(List<Piece>, usize), ReadError>
    requires callable { Callable (F.Fn.pre deeper) levels }
    requires reading { Reading (F.Fn.post deeper) source.now levels }
    ensures { Reads (λ pieces. map Piecing pieces) result (reader source.now levels (many (text_item source.now)) at) }
{
    let mut list = Vec::new(alloc);
    let mut place = at;
    'items: while is_text_item(source, place) {
        let (item, next) = text_item_at(alloc, deeper, source, levels, place)?;
        list.push(item)?;
        place = next;
    }
    Ok((List::from_vec(list), place))
}

fn template_of(
    source: &Source,
    at: usize,
    place: usize,
    pieces: List<Piece>,
) -> Result<Expr, Memory>
    ensures { IfOk result (λ value. value_of (exprs.Quoted (Mixed pieces))
        (span_between source.now at place) ≡ Values value ∷ []) }
{
    let span = span_between(source, at, place)?;
    Ok(Expr {
        kind: ExprKind::Quoted(Parts::Mixed(pieces)),
        span,
    })
}

/// A string with `#{}`.
#[tactic(auto, using(crate::proofs::Pieces::pieces_before), unfolding(sw_parse_grammar::specs::Readers::parse, sw_parse_table::specs::Expressions::template))]
pub fn template_at<F: Fn(u8, usize) -> Result<(Expr, usize), ReadError> + Copy>(
    alloc: Global,
    deeper: F,
    source: &Source,
    levels: u8,
    at: usize,
) -> Result<(Expr, usize), ReadError>
    requires callable { Callable (F.Fn.pre deeper) levels }
    requires reading { Reading (F.Fn.post deeper) source.now levels }
    ensures { ReadsValue result (reads source.now levels template at) }
{
    let place = skipped(source, levels, at, Terminal::Template)?;
    let (pieces, place) = text_items_at(alloc, deeper, source, levels, place)?;
    let place = skipped(source, levels, place, Terminal::TemplateEnd)?;
    let value = found(template_of(source, at, place, pieces))?;
    Ok((value, place))
}

fn url_of(
    alloc: Global,
    source: &Source,
    at: usize,
    place: usize,
    list: List<Inserted>,
) -> Result<Expr, Memory>
    ensures { IfOk result (λ value. to_url source.now at place (map insert_of list) ≡ Values value ∷ []) }
{
    let span = span_between(source, at, place)?;
    Ok(Expr {
        kind: ExprKind::Url(parts_of(alloc, source, at, place, list)?),
        span,
    })
}

/// `url(..)` with `#{}`.
#[tactic(auto, unfolding(sw_parse_grammar::specs::Readers::parse, sw_parse_table::specs::Expressions::url_template, sw_parse_table::specs::Expressions::url_item, sw_parse_table::specs::Expressions::insert))]
pub fn url_template_at<F: Fn(u8, usize) -> Result<(Expr, usize), ReadError> + Copy>(
    alloc: Global,
    deeper: F,
    source: &Source,
    levels: u8,
    at: usize,
) -> Result<(Expr, usize), ReadError>
    requires callable { Callable (F.Fn.pre deeper) levels }
    requires reading { Reading (F.Fn.post deeper) source.now levels }
    ensures { ReadsValue result (reads source.now levels url_template at) }
{
    let place = skipped(source, levels, at, Terminal::UrlTemplate)?;
    let (list, place) = pieces_at(alloc, deeper, source, levels, place, Pieces::Url)?;
    let place = skipped(source, levels, place, Terminal::UrlEnd)?;
    let value = found(url_of(alloc, source, at, place, list))?;
    Ok((value, place))
}
