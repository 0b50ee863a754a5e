// The heads of conditions and of loops that count.
ghost use Rattle.std.specs.Prelude.{◌≡◌, ◌∷◌, [], ◌++◌, ◌<◌, length, IsTrue};
ghost use Rattle.sw_parse_grammar.specs.Grammar.{member};
ghost use Rattle.sw_parse_grammar.specs.Readers.{Answers};
ghost use Rattle.sw_parse_table.specs.Parts.{Place, Values};
ghost use Rattle.sw_parse_table.specs.Sources.{terminal_at};
ghost use Rattle.sw_parse_table.specs.Reads.{reader, Reads};
ghost use Rattle.sw_parse_statement_heads.specs.Heads.{ReadsHead, if_head, while_head, value_head, else_if_word, bound_words, upper_row, bounds_row, for_head, for_parts};

use crate::value::worded_value_at;
use std::alloc::Global;
use sw_expr_parse::{read_space, read_value};
use sw_parse_expr_nodes::{given_up, skipped};
use sw_parse_grammar::ReadError;
use sw_parse_statement_text::dollar_name_at;
use sw_parse_table::{Source, is_at};
use sw_parse_terminals::Terminal;
use sw_tree::Expr;

/// What stands before the block of `@for`.
#[derive(Drop)]
pub struct ForHead {
    /// The place of the name.
    pub name: usize,
    pub from: Expr,
    /// The place of `through` or `to`.
    pub word: usize,
    pub to: Expr,
}

/// The bounds of `@for`.
#[derive(Drop)]
pub(crate) struct ForBounds {
    pub from: Expr,
    pub word: usize,
    pub to: Expr,
}

/// `@if condition`
#[tactic(auto, unfolding(sw_parse_grammar::specs::Readers::parse))]
pub fn if_head_at(
    alloc: Global,
    source: &Source,
    levels: u8,
    at: usize,
) -> Result<(Expr, usize), ReadError>
    ensures { ReadsHead (λ value. Values value ∷ []) result (reader source.now levels (if_head source.now) at) }
{
    worded_value_at(alloc, source, levels, at, Terminal::AtIf)
}

/// `@while condition`
#[tactic(auto, unfolding(sw_parse_grammar::specs::Readers::parse))]
pub fn while_head_at(
    alloc: Global,
    source: &Source,
    levels: u8,
    at: usize,
) -> Result<(Expr, usize), ReadError>
    ensures { ReadsHead (λ value. Values value ∷ []) result (reader source.now levels (while_head source.now) at) }
{
    worded_value_at(alloc, source, levels, at, Terminal::AtWhile)
}

/// The value of a declaration, behind which a block may stand.
#[tactic(auto, unfolding(sw_parse_grammar::specs::Readers::parse))]
pub fn value_head_at(
    alloc: Global,
    source: &Source,
    levels: u8,
    at: usize,
) -> Result<(Expr, usize), ReadError>
    ensures { ReadsHead (λ value. Values value ∷ []) result (reader source.now levels (value_head source.now) at) }
{
    read_value(alloc, source, levels, at)
}

/// The place behind `@else if`, which is one word or two.
#[tactic(auto, unfolding(sw_parse_grammar::specs::Readers::parse))]
pub fn else_if_word_at(source: &Source, levels: u8, at: usize) -> Result<usize, ReadError>
    ensures { Answers (λ _. []) (λ next. next) result (reader source.now levels else_if_word at) }
{
    if is_at(source, at, Terminal::AtElseIfWhole) {
        return Ok(at + 1);
    }
    let place = skipped(source, levels, at, Terminal::AtElseIf)?;
    skipped(source, levels, place, Terminal::If)
}

fn is_bound_word(source: &Source, at: usize) -> bool
    ensures test { result ≡ member (terminal_at source.now at) bound_words }
    ensures within { IsTrue result → at < length source.now.lexemes.now }
{
    is_at(source, at, Terminal::Through) || is_at(source, at, Terminal::To)
}

/// `through` or `to`, and the bound behind it.
#[tactic(auto, unfolding(sw_parse_grammar::specs::Readers::parse))]
fn upper_bound_at(
    alloc: Global,
    source: &Source,
    levels: u8,
    at: usize,
) -> Result<((usize, Expr), usize), ReadError>
    ensures { Reads (λ bound. Place bound.0 ∷ Values bound.1 ∷ []) result (reader source.now levels (upper_row source.now)
        at) }
{
    if !is_bound_word(source, at) {
        return Err(ReadError::Unexpected(at));
    }
    let (to, place) = read_space(alloc, source, levels, at + 1)?;
    Ok(((at, to), place))
}

/// Both bounds.
#[tactic(auto, unfolding(sw_parse_grammar::specs::Readers::parse))]
fn bounds_at(
    alloc: Global,
    source: &Source,
    levels: u8,
    at: usize,
) -> Result<(ForBounds, usize), ReadError>
    ensures { Reads (λ bounds. Values bounds.from ∷ Place bounds.word ∷ Values bounds.to ∷ []) result (reader source.now
        levels (bounds_row source.now) at) }
{
    let (from, place) = read_space(alloc, source, levels, at)?;
    match upper_bound_at(alloc, source, levels, place) {
        Ok((upper, next)) => {
            let (word, to) = upper;
            Ok((ForBounds { from, word, to }, next))
        }
        Err(error) => Err(given_up(from, error)),
    }
}

/// `@for $name from value through value`, or `to`
#[tactic(auto, unfolding(sw_parse_grammar::specs::Readers::parse))]
pub fn for_head_at(
    alloc: Global,
    source: &Source,
    levels: u8,
    at: usize,
) -> Result<(ForHead, usize), ReadError>
    ensures { ReadsHead for_parts result (reader source.now levels (for_head source.now) at) }
{
    let place = skipped(source, levels, at, Terminal::AtFor)?;
    let (name, place) = dollar_name_at(source, levels, place)?;
    let place = skipped(source, levels, place, Terminal::From)?;
    let (bounds, place) = bounds_at(alloc, source, levels, place)?;
    let ForBounds { from, word, to } = bounds;
    let head = ForHead {
        name,
        from,
        word,
        to,
    };
    Ok((head, place))
}
