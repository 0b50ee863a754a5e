// Statements made of what was read of them.
ghost use Rattle.std.specs.Prelude.{◌≡◌, ◌∷◌, [], IfOk};
ghost use Rattle.sw_parse_table.specs.Parts.{Texts, States};
ghost use Rattle.sw_parse_css.specs.Seen.{seen, text_between};
ghost use Rattle.sw_parse_css.specs.Sheets.{property_of, rule_of, at_rule_of, to_named, to_at_rule, to_import, to_charset, to_comment};
ghost use Rattle.sw_parse_css.specs.Rows.{body_parts};

use crate::block::given_up;
use crate::body::Body;
use crate::said::text_between;
use crate::seen::span_between;
use std::alloc::Global;
use sw_parse_table::Source;
use sw_text::{List, Memory};
use sw_tree::{AtRule, Custom, Import, Rule, Statement, Text};

/// A property by the places of its name, with its value.
fn property_of(
    alloc: Global,
    source: &Source,
    name: (usize, usize),
    head: usize,
    value: Option<Text>,
) -> Result<Statement, Memory>
    ensures { IfOk result (λ statement. property_of (seen source.now) name.0 head
        (text_between (seen source.now) name.0 name.1) value ≡ States statement ∷ []) }
{
    let property = text_between(alloc, source, name.0, name.1)?;
    let span = span_between(source, name.0, head)?;
    Ok(Statement::Custom(Custom {
        property,
        value,
        span,
    }))
}

/// A rule whose selector stands from a place to before another.
pub(crate) fn rule_of(
    alloc: Global,
    source: &Source,
    at: usize,
    head: usize,
    block: List<Statement>,
) -> Result<Statement, Memory>
    ensures { IfOk result (λ statement. rule_of (seen source.now) at head block ≡ States statement ∷ []) }
{
    match text_between(alloc, source, at, head) {
        Ok(selector) => rule_with(source, at, head, selector, block),
        Err(error) => Err(given_up(block, error)),
    }
}

fn rule_with(
    source: &Source,
    at: usize,
    head: usize,
    selector: Text,
    block: List<Statement>,
) -> Result<Statement, Memory>
    requires { selector ≡ text_between (seen source.now) at head }
    ensures { IfOk result (λ statement. rule_of (seen source.now) at head block ≡ States statement ∷ []) }
{
    match span_between(source, at, head) {
        Ok(span) => Ok(Statement::Rule(Rule {
            selector,
            block,
            span,
        })),
        Err(error) => Err(given_up((selector, block), error)),
    }
}

/// A statement that begins with a name, by the places of this.
pub(crate) fn named_of(
    alloc: Global,
    source: &Source,
    name: (usize, usize),
    behind: usize,
    body: Body,
) -> Result<Statement, Memory>
    ensures { IfOk result (λ statement. to_named (seen source.now) name.0 behind (Texts
        (text_between (seen source.now) name.0 name.1) ∷ body_parts body) ≡ States statement ∷ []) }
{
    let Body { text, head, block } = body;
    match block {
        None => property_of(alloc, source, name, head, text),
        Some(block) => rule_of(alloc, source, name.0, head, block),
    }
}

fn at_rule_with(source: &Source, at: usize, name: Text, body: Body) -> Result<Statement, Memory>
    ensures { IfOk result (λ statement. at_rule_of (seen source.now) at body.head name body.text body.block ≡ States
        statement ∷ []) }
{
    match span_between(source, at, body.head) {
        Ok(span) => Ok(Statement::AtRule(AtRule {
            name,
            prelude: body.text,
            block: body.block,
            span,
        })),
        Err(error) => Err(given_up((name, body), error)),
    }
}

/// An at-rule by the places of its name.
pub(crate) fn at_rule_of(
    alloc: Global,
    source: &Source,
    name: (usize, usize),
    behind: usize,
    body: Body,
) -> Result<Statement, Memory>
    ensures { IfOk result (λ statement. to_at_rule (seen source.now) name.0 behind (Texts
        (text_between (seen source.now) name.0 name.1) ∷ body_parts body) ≡ States statement ∷ []) }
{
    match text_between(alloc, source, name.0, name.1) {
        Ok(text) => at_rule_with(source, name.0, text, body),
        Err(error) => Err(given_up(body, error)),
    }
}

pub(crate) fn import_of(
    source: &Source,
    at: usize,
    place: usize,
    text: Text,
) -> Result<Statement, Memory>
    ensures { IfOk result (λ statement. to_import (seen source.now) at place (Texts text ∷ []) ≡ States statement
        ∷ []) }
{
    let span = span_between(source, at, place)?;
    Ok(Statement::Import(Import { text, span }))
}

pub(crate) fn charset_of(source: &Source, at: usize, place: usize) -> Result<Statement, Memory>
    ensures { IfOk result (λ statement. to_charset (seen source.now) at place [] ≡ States statement ∷ []) }
{
    Ok(Statement::Charset(span_between(source, at, place)?))
}

pub(crate) fn comment_of(
    alloc: Global,
    source: &Source,
    at: usize,
    place: usize,
) -> Result<Statement, Memory>
    ensures { IfOk result (λ statement. to_comment (seen source.now) at place [] ≡ States statement ∷ []) }
{
    Ok(Statement::Comment(text_between(alloc, source, at, place)?))
}
