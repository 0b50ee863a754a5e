// Which statement stands at a place, over a reader of the statements in blocks.
ghost use Rattle.std.specs.Prelude.{◌≡◌, ◌∷◌, [], ◌<◌, length, IsTrue};
ghost use Rattle.sw_parse_grammar.specs.Grammar.{member, Answer};
ghost use Rattle.sw_parse_table.specs.Parts.{Part, States};
ghost use Rattle.sw_parse_css.specs.Seen.{seen, terminal_at};
ghost use Rattle.sw_parse_css.specs.Sheets.{declaration, custom, named, dashed, rule, at_rule, other, outer_statement, inner_statement};
ghost use Rattle.sw_parse_css.specs.Rows.{other_starts, starts_of, form_of, statement_of, statement_in};
ghost use Rattle.sw_parse_css.specs.Reads.{reader, reads, Reads};
ghost use Rattle.sw_parse_css.specs.Inner.{Callable, Reading};

use crate::block::block_at;
use crate::body::{
    Within, at_rest_at, colon_value_at, custom_value_at, dashed_rest_at, named_rest_at,
};
use crate::made::{at_rule_of, named_of, rule_of};
use crate::seen::is_at;
use crate::simple::{charset_at, comment_at, import_at};
use crate::text::{begins_text, behind_text};
use std::alloc::Global;
use sw_parse_grammar::ReadError;
use sw_parse_table::{Source, found};
use sw_parse_terminals::Terminal;
use sw_text::List;
use sw_tree::Statement;

/// `property: value` in a rule.
#[tactic(auto, unfolding(sw_parse_grammar::specs::Readers::parse, crate::specs::Sheets::declaration))]
fn declaration_at(
    alloc: Global,
    source: &Source,
    levels: u8,
    at: usize,
) -> Result<(Statement, usize), ReadError>
    ensures { Reads (λ statement. States statement ∷ []) result (reads (seen source.now) levels declaration at) }
{
    if !is_at(source, at, Terminal::Word) {
        return Err(ReadError::Unexpected(at));
    }
    let (body, place) = colon_value_at(alloc, source, levels, at + 1)?;
    let statement = found(named_of(alloc, source, (at, at + 1), place, body))?;
    Ok((statement, place))
}

/// `--property: value` in a rule.
#[tactic(auto, unfolding(sw_parse_grammar::specs::Readers::parse, crate::specs::Sheets::custom))]
fn custom_at(
    alloc: Global,
    source: &Source,
    levels: u8,
    at: usize,
) -> Result<(Statement, usize), ReadError>
    ensures { Reads (λ statement. States statement ∷ []) result (reads (seen source.now) levels custom at) }
{
    if !is_at(source, at, Terminal::Custom) {
        return Err(ReadError::Unexpected(at));
    }
    let (body, place) = custom_value_at(alloc, source, levels, at + 1)?;
    let statement = found(named_of(alloc, source, (at, at + 1), place, body))?;
    Ok((statement, place))
}

/// A rule or a declaration outside rules that begins with a name.
#[tactic(auto, unfolding(sw_parse_grammar::specs::Readers::parse, crate::specs::Sheets::named))]
fn named_at<S: Fn(Within, u8, usize) -> Result<(List<Statement>, usize), ReadError> + Copy>(
    alloc: Global,
    inner: S,
    source: &Source,
    levels: u8,
    at: usize,
) -> Result<(Statement, usize), ReadError>
    requires callable { Callable (S.Fn.pre inner) levels }
    requires reading { Reading (S.Fn.post inner) (seen source.now) levels }
    ensures { Reads (λ statement. States statement ∷ []) result (reads (seen source.now) levels named at) }
{
    if !is_at(source, at, Terminal::Word) {
        return Err(ReadError::Unexpected(at));
    }
    let (body, place) = named_rest_at(alloc, inner, source, levels, at + 1)?;
    let statement = found(named_of(alloc, source, (at, at + 1), place, body))?;
    Ok((statement, place))
}

/// The same of a name that begins with `--`.
#[tactic(auto, unfolding(sw_parse_grammar::specs::Readers::parse, crate::specs::Sheets::dashed))]
fn dashed_at<S: Fn(Within, u8, usize) -> Result<(List<Statement>, usize), ReadError> + Copy>(
    alloc: Global,
    inner: S,
    source: &Source,
    levels: u8,
    at: usize,
) -> Result<(Statement, usize), ReadError>
    requires callable { Callable (S.Fn.pre inner) levels }
    requires reading { Reading (S.Fn.post inner) (seen source.now) levels }
    ensures { Reads (λ statement. States statement ∷ []) result (reads (seen source.now) levels dashed at) }
{
    if !is_at(source, at, Terminal::Custom) {
        return Err(ReadError::Unexpected(at));
    }
    let (body, place) = dashed_rest_at(alloc, inner, source, levels, at + 1)?;
    let statement = found(named_of(alloc, source, (at, at + 1), place, body))?;
    Ok((statement, place))
}

/// A rule that begins with no name.
#[tactic(auto, unfolding(sw_parse_grammar::specs::Readers::parse, crate::specs::Sheets::rule))]
fn rule_at<S: Fn(Within, u8, usize) -> Result<(List<Statement>, usize), ReadError> + Copy>(
    alloc: Global,
    inner: S,
    source: &Source,
    levels: u8,
    at: usize,
) -> Result<(Statement, usize), ReadError>
    requires callable { Callable (S.Fn.pre inner) levels }
    requires reading { Reading (S.Fn.post inner) (seen source.now) levels }
    ensures { Reads (λ statement. States statement ∷ []) result (reads (seen source.now) levels rule at) }
{
    let head = behind_text(source, levels, at)?;
    let (block, place) = block_at(inner, source, levels, head, Within::Rule)?;
    let statement = found(rule_of(alloc, source, at, head, block))?;
    Ok((statement, place))
}

/// An at-rule without a form of its own.
#[tactic(auto, unfolding(sw_parse_grammar::specs::Readers::parse, crate::specs::Sheets::at_rule))]
fn at_rule_at<S: Fn(Within, u8, usize) -> Result<(List<Statement>, usize), ReadError> + Copy>(
    alloc: Global,
    inner: S,
    source: &Source,
    levels: u8,
    at: usize,
    within: Within,
) -> Result<(Statement, usize), ReadError>
    requires callable { Callable (S.Fn.pre inner) levels }
    requires reading { Reading (S.Fn.post inner) (seen source.now) levels }
    ensures { Reads (λ statement. States statement ∷ []) result (reader (seen source.now) levels (at_rule
        (seen source.now) (form_of within)) at) }
{
    if !is_at(source, at, Terminal::AtOther) {
        return Err(ReadError::Unexpected(at));
    }
    let (body, place) = at_rest_at(alloc, inner, source, levels, at + 1, within)?;
    let statement = found(at_rule_of(alloc, source, (at, at + 1), place, body))?;
    Ok((statement, place))
}

/// Whether a statement begins at a place that may stand everywhere.
fn begins_other(source: &Source, at: usize) -> bool
    ensures test { result ≡ member (terminal_at (seen source.now) at) other_starts }
    ensures within { IsTrue result → at < length source.now.lexemes.now }
{
    is_at(source, at, Terminal::AtOther)
        || is_at(source, at, Terminal::AtImport)
        || is_at(source, at, Terminal::AtCharset)
        || is_at(source, at, Terminal::CommentWhole)
        || is_at(source, at, Terminal::Semicolon)
        || is_at(source, at, Terminal::AtInsert)
}

/// Whether a statement begins at a place.
pub(crate) fn begins_statement(source: &Source, at: usize, within: Within) -> bool
    ensures test { result ≡ member (terminal_at (seen source.now) at) (starts_of within) }
    ensures within { IsTrue result → at < length source.now.lexemes.now }
{
    match within {
        Within::Outside => {
            is_at(source, at, Terminal::Word)
                || is_at(source, at, Terminal::Custom)
                || begins_text(source, at)
                || begins_other(source, at)
        }
        Within::Rule => {
            is_at(source, at, Terminal::Word)
                || is_at(source, at, Terminal::Custom)
                || begins_other(source, at)
        }
    }
}

/// What was read as what may be no statement.
fn read_some(
    read: Result<(Statement, usize), ReadError>,
) -> Result<(Option<Statement>, usize), ReadError>
    ensures { (answer : Answer Part) → Reads (λ statement. States statement ∷ []) read answer → Reads statement_in
        result answer }
{
    let (statement, place) = read?;
    Ok((Some(statement), place))
}

/// A statement that may stand everywhere, or a `;`.
fn other_at<S: Fn(Within, u8, usize) -> Result<(List<Statement>, usize), ReadError> + Copy>(
    alloc: Global,
    inner: S,
    source: &Source,
    levels: u8,
    at: usize,
    within: Within,
) -> Result<(Option<Statement>, usize), ReadError>
    requires callable { Callable (S.Fn.pre inner) levels }
    requires reading { Reading (S.Fn.post inner) (seen source.now) levels }
    ensures { Reads statement_in result (reader (seen source.now) levels (other (seen source.now) (form_of within))
        at) }
{
    if is_at(source, at, Terminal::AtOther) {
        read_some(at_rule_at(alloc, inner, source, levels, at, within))
    } else if is_at(source, at, Terminal::AtImport) {
        read_some(import_at(alloc, source, levels, at))
    } else if is_at(source, at, Terminal::AtCharset) {
        read_some(charset_at(source, levels, at))
    } else if is_at(source, at, Terminal::CommentWhole) {
        read_some(comment_at(alloc, source, levels, at))
    } else if is_at(source, at, Terminal::Semicolon) {
        Ok((None, at + 1))
    } else if is_at(source, at, Terminal::AtInsert) {
        Err(ReadError::Unexpected(at + 1))
    } else {
        Err(ReadError::Unexpected(at))
    }
}

/// A statement outside rules.
fn outer_at<S: Fn(Within, u8, usize) -> Result<(List<Statement>, usize), ReadError> + Copy>(
    alloc: Global,
    inner: S,
    source: &Source,
    levels: u8,
    at: usize,
) -> Result<(Option<Statement>, usize), ReadError>
    requires callable { Callable (S.Fn.pre inner) levels }
    requires reading { Reading (S.Fn.post inner) (seen source.now) levels }
    ensures { Reads statement_in result (reads (seen source.now) levels outer_statement at) }
{
    if is_at(source, at, Terminal::Word) {
        read_some(named_at(alloc, inner, source, levels, at))
    } else if is_at(source, at, Terminal::Custom) {
        read_some(dashed_at(alloc, inner, source, levels, at))
    } else if begins_text(source, at) {
        read_some(rule_at(alloc, inner, source, levels, at))
    } else {
        other_at(alloc, inner, source, levels, at, Within::Outside)
    }
}

/// A statement in a rule.
fn inner_at<S: Fn(Within, u8, usize) -> Result<(List<Statement>, usize), ReadError> + Copy>(
    alloc: Global,
    inner: S,
    source: &Source,
    levels: u8,
    at: usize,
) -> Result<(Option<Statement>, usize), ReadError>
    requires callable { Callable (S.Fn.pre inner) levels }
    requires reading { Reading (S.Fn.post inner) (seen source.now) levels }
    ensures { Reads statement_in result (reads (seen source.now) levels inner_statement at) }
{
    if is_at(source, at, Terminal::Word) {
        read_some(declaration_at(alloc, source, levels, at))
    } else if is_at(source, at, Terminal::Custom) {
        read_some(custom_at(alloc, source, levels, at))
    } else {
        other_at(alloc, inner, source, levels, at, Within::Rule)
    }
}

/// A statement, or a `;`.
pub(crate) fn statement_at<
    S: Fn(Within, u8, usize) -> Result<(List<Statement>, usize), ReadError> + Copy,
>(
    alloc: Global,
    inner: S,
    source: &Source,
    levels: u8,
    at: usize,
    within: Within,
) -> Result<(Option<Statement>, usize), ReadError>
    requires callable { Callable (S.Fn.pre inner) levels }
    requires reading { Reading (S.Fn.post inner) (seen source.now) levels }
    ensures { Reads statement_in result (reader (seen source.now) levels (statement_of (seen source.now) within) at) }
{
    match within {
        Within::Outside => outer_at(alloc, inner, source, levels, at),
        Within::Rule => inner_at(alloc, inner, source, levels, at),
    }
}
