// What is read of a statement behind its name.
ghost use Rattle.std.specs.Prelude.{◌≡◌, ◌∷◌, [], ◌++◌};
ghost use Rattle.sw_parse_grammar.specs.Grammar.{alt, prepend};
ghost use Rattle.sw_parse_table.specs.Parts.{Behind};
ghost use Rattle.sw_parse_css.specs.Seen.{seen};
ghost use Rattle.sw_parse_css.specs.Sheets.{finish, block, block_or_end, InRule, value, colon_value, custom_value, selector_rest, pseudo_or_value};
ghost use Rattle.sw_parse_css.specs.Rows.{form_of, text_in, body_parts, at_rest, named_rest, dashed_rest};
ghost use Rattle.sw_parse_css.specs.Reads.{reader, reads, Reads};
ghost use Rattle.sw_parse_css.specs.Inner.{Callable, Reading};

use crate::block::{block_at, block_or_end_at, finish_at, given_up};
use crate::seen::is_at;
use crate::text::{optional_text_at, pseudo_at, text_at, text_items_at};
use std::alloc::Global;
use sw_parse_grammar::ReadError;
use sw_parse_table::Source;
use sw_parse_terminals::Terminal;
use sw_text::List;
use sw_tree::{Statement, Text};

/// Where statements stand.
#[derive(Clone, Copy, Debug, PartialEq, Eq)]
pub(crate) enum Within {
    Outside,
    Rule,
}

/// The text of a statement behind its name, the place behind that, and its block.
#[derive(Drop)]
pub(crate) struct Body {
    pub text: Option<Text>,
    pub head: usize,
    pub block: Option<List<Statement>>,
}

/// Behind a text: the end of a statement without a block.
fn ended(
    source: &Source,
    levels: u8,
    head: usize,
    text: Option<Text>,
) -> Result<(Body, usize), ReadError>
    ensures { Reads body_parts result (prepend (text_in text ++ Behind head ∷ []) (reader (seen source.now) levels
        finish head)) }
{
    match finish_at(source, levels, head) {
        Ok(place) => {
            let body = Body {
                text,
                head,
                block: None,
            };
            Ok((body, place))
        }
        Err(error) => Err(given_up(text, error)),
    }
}

/// Behind a text: the block of a rule.
fn blocked<S: Fn(Within, u8, usize) -> Result<(List<Statement>, usize), ReadError> + Copy>(
    inner: S,
    source: &Source,
    levels: u8,
    head: usize,
) -> Result<(Body, usize), ReadError>
    requires callable { Callable (S.Fn.pre inner) levels }
    requires reading { Reading (S.Fn.post inner) (seen source.now) levels }
    ensures { Reads body_parts result (prepend (Behind head ∷ []) (reader (seen source.now) levels (block InRule)
        head)) }
{
    let (block, place) = block_at(inner, source, levels, head, Within::Rule)?;
    let body = Body {
        text: None,
        head,
        block: Some(block),
    };
    Ok((body, place))
}

/// Behind a text: a block, or the end of a statement without one.
fn blocked_or_ended<S: Fn(Within, u8, usize) -> Result<(List<Statement>, usize), ReadError> + Copy>(
    inner: S,
    source: &Source,
    levels: u8,
    head: usize,
    text: Option<Text>,
    within: Within,
) -> Result<(Body, usize), ReadError>
    requires callable { Callable (S.Fn.pre inner) levels }
    requires reading { Reading (S.Fn.post inner) (seen source.now) levels }
    ensures { Reads body_parts result (prepend (text_in text ++ Behind head ∷ []) (reader (seen source.now) levels
        (block_or_end (form_of within)) head)) }
{
    match block_or_end_at(inner, source, levels, head, within) {
        Ok((block, place)) => Ok((Body { text, head, block }, place)),
        Err(error) => Err(given_up(text, error)),
    }
}

/// A value, and the end of its declaration.
#[tactic(auto, unfolding(sw_parse_grammar::specs::Readers::parse, crate::specs::Sheets::value))]
fn value_at(
    alloc: Global,
    source: &Source,
    levels: u8,
    at: usize,
) -> Result<(Body, usize), ReadError>
    ensures { Reads body_parts result (reads (seen source.now) levels value at) }
{
    let (text, head) = text_at(alloc, source, levels, at)?;
    ended(source, levels, head, Some(text))
}

/// `:` and a value.
#[tactic(auto, unfolding(sw_parse_grammar::specs::Readers::parse, crate::specs::Sheets::colon_value))]
pub(crate) fn colon_value_at(
    alloc: Global,
    source: &Source,
    levels: u8,
    at: usize,
) -> Result<(Body, usize), ReadError>
    ensures { Reads body_parts result (reads (seen source.now) levels colon_value at) }
{
    if !is_at(source, at, Terminal::Colon) {
        return Err(ReadError::Unexpected(at));
    }
    value_at(alloc, source, levels, at + 1)
}

/// `:` and the value of a custom property, which may be empty.
#[tactic(auto, unfolding(sw_parse_grammar::specs::Readers::parse, crate::specs::Sheets::custom_value))]
pub(crate) fn custom_value_at(
    alloc: Global,
    source: &Source,
    levels: u8,
    at: usize,
) -> Result<(Body, usize), ReadError>
    ensures { Reads body_parts result (reads (seen source.now) levels custom_value at) }
{
    if !is_at(source, at, Terminal::Colon) {
        return Err(ReadError::Unexpected(at));
    }
    let (text, head) = optional_text_at(alloc, source, levels, at + 1)?;
    ended(source, levels, head, text)
}

/// The rest of a selector, and the block of its rule.
#[tactic(auto, unfolding(sw_parse_grammar::specs::Readers::parse, crate::specs::Sheets::selector_rest))]
fn selector_rest_at<S: Fn(Within, u8, usize) -> Result<(List<Statement>, usize), ReadError> + Copy>(
    inner: S,
    source: &Source,
    levels: u8,
    at: usize,
) -> Result<(Body, usize), ReadError>
    requires callable { Callable (S.Fn.pre inner) levels }
    requires reading { Reading (S.Fn.post inner) (seen source.now) levels }
    ensures { Reads body_parts result (reads (seen source.now) levels selector_rest at) }
{
    let head = text_items_at(source, levels, at)?;
    blocked(inner, source, levels, head)
}

/// What stands behind the `:` of a name: a pseudo-class with the block of its rule, or a value.
#[tactic(auto, unfolding(sw_parse_grammar::specs::Readers::parse, crate::specs::Sheets::pseudo_or_value, crate::specs::Sheets::pseudo))]
fn pseudo_or_value_at<
    S: Fn(Within, u8, usize) -> Result<(List<Statement>, usize), ReadError> + Copy,
>(
    alloc: Global,
    inner: S,
    source: &Source,
    levels: u8,
    at: usize,
) -> Result<(Body, usize), ReadError>
    requires callable { Callable (S.Fn.pre inner) levels }
    requires reading { Reading (S.Fn.post inner) (seen source.now) levels }
    ensures { Reads body_parts result (reads (seen source.now) levels pseudo_or_value at) }
{
    if is_at(source, at, Terminal::Part) {
        let (text, head) = pseudo_at(alloc, source, levels, at)?;
        blocked_or_ended(inner, source, levels, head, Some(text), Within::Rule)
    } else {
        value_at(alloc, source, levels, at)
    }
}

/// What stands behind a name, where a rule or a declaration may begin with one.
#[tactic(auto, unfolding(sw_parse_grammar::specs::Readers::parse))]
pub(crate) fn named_rest_at<
    S: Fn(Within, u8, usize) -> Result<(List<Statement>, usize), ReadError> + Copy,
>(
    alloc: Global,
    inner: S,
    source: &Source,
    levels: u8,
    at: usize,
) -> Result<(Body, usize), ReadError>
    requires callable { Callable (S.Fn.pre inner) levels }
    requires reading { Reading (S.Fn.post inner) (seen source.now) levels }
    ensures { Reads body_parts result (reader (seen source.now) levels (named_rest (seen source.now)) at) }
{
    if is_at(source, at, Terminal::Colon) {
        pseudo_or_value_at(alloc, inner, source, levels, at + 1)
    } else {
        selector_rest_at(inner, source, levels, at)
    }
}

/// The same behind a name that begins with `--`, which is that of a custom property where a `:` follows.
#[tactic(auto, unfolding(sw_parse_grammar::specs::Readers::parse, crate::specs::Sheets::custom_value))]
pub(crate) fn dashed_rest_at<
    S: Fn(Within, u8, usize) -> Result<(List<Statement>, usize), ReadError> + Copy,
>(
    alloc: Global,
    inner: S,
    source: &Source,
    levels: u8,
    at: usize,
) -> Result<(Body, usize), ReadError>
    requires callable { Callable (S.Fn.pre inner) levels }
    requires reading { Reading (S.Fn.post inner) (seen source.now) levels }
    ensures { Reads body_parts result (reader (seen source.now) levels (dashed_rest (seen source.now)) at) }
{
    if is_at(source, at, Terminal::Colon) {
        custom_value_at(alloc, source, levels, at)
    } else {
        selector_rest_at(inner, source, levels, at)
    }
}

/// The prelude of an at-rule, and its block or its end.
#[tactic(auto, unfolding(sw_parse_grammar::specs::Readers::parse))]
pub(crate) fn at_rest_at<
    S: Fn(Within, u8, usize) -> Result<(List<Statement>, usize), ReadError> + Copy,
>(
    alloc: Global,
    inner: S,
    source: &Source,
    levels: u8,
    at: usize,
    within: Within,
) -> Result<(Body, usize), ReadError>
    requires callable { Callable (S.Fn.pre inner) levels }
    requires reading { Reading (S.Fn.post inner) (seen source.now) levels }
    ensures { Reads body_parts result (reader (seen source.now) levels (at_rest (seen source.now) (form_of within))
        at) }
{
    let (text, head) = optional_text_at(alloc, source, levels, at)?;
    blocked_or_ended(inner, source, levels, head, text, within)
}
