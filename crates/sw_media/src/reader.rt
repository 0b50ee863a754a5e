// What media queries a text is.
ghost use Rattle.std.specs.Prelude.{◌≡◌, ◌∷◌, [], Some};
ghost use Rattle.sw_media.specs.Words.{IsRead, white, name_end};
ghost use Rattle.sw_media.specs.Reading.{nested_by, inside_at, feature_at, features_at, denied, joined_by, condition_at, conditions_in, all_by, typed_condition, conditioned, typed_at, untyped_at, modifies, query_at, queries_in, within_limit, queries_of, IsAnswer};

use crate::feature::{closed_by, plain_at};
use crate::words::{is_at, is_type_at, name_end, text_of, white};
use crate::write::condition_text;
use crate::{Condition, MediaFault, Modifier, Queries, Query};
use std::alloc::Global;
use sw_text::{List, Name};
use sw_text_scan::{byte_at, signs};

/// At most so many conditions stand in each other in parentheses.
pub const LEVELS: u8 = 128;

/// A list has at most so many queries.
pub const MOST_QUERIES: usize = 10_000;

/// The media queries of a text without comments and `#{}`. `BadQuery` comes exactly where the text is none, also where
/// more than 128 conditions stand in each other in parentheses; else `TooLarge` exactly where there are more than
/// 10,000 queries.
#[tactic(auto, unfolding(crate::specs::Reading::queries_of))]
pub fn read(alloc: Global, text: &str) -> Result<Queries, MediaFault>
    ensures { IsAnswer result (queries_of text.now) }
{
    let list = queries_in(alloc, text, LEVELS)?;
    within_limit(list)
}

fn within_limit(list: List<Query>) -> Result<Queries, MediaFault>
    ensures { IsAnswer result (within_limit list) }
{
    if list.len() > MOST_QUERIES {
        return Err(MediaFault::TooLarge);
    }
    Ok(Queries::new(list))
}

#[tactic(auto, unfolding(crate::specs::Reading::queries_in))]
fn queries_in(alloc: Global, text: &str, levels: u8) -> Result<List<Query>, MediaFault>
    ensures { IsRead result (queries_in text.now levels) }
{
    let mut list = List::new(alloc);
    let mut place = 0;
    'queries: for _turn in 0..text.len() + 1 {
        let (query, to) = query_at(alloc, text, levels, white(text.as_bytes(), place))?;
        list.push(query)?;
        let behind = white(text.as_bytes(), to);
        let byte = byte_at(text.as_bytes(), behind);
        if byte == signs::END {
            return Ok(list);
        }
        if byte != signs::COMMA {
            return Err(MediaFault::BadQuery);
        }
        place = behind + 1;
    }
    Err(MediaFault::BadQuery)
}

#[tactic(auto, unfolding(crate::specs::Reading::query_at))]
fn query_at(alloc: Global, text: &str, levels: u8, at: usize) -> Result<(Query, usize), MediaFault>
    ensures { IsRead result (query_at (conditions_in text.now levels) text.now at) }
{
    let behind = white(text.as_bytes(), name_end(text.as_bytes(), at));
    if modifies("not", text, at) {
        return typed_at(alloc, text, levels, Modifier::Not, behind);
    }
    if modifies("only", text, at) {
        return typed_at(alloc, text, levels, Modifier::Only, behind);
    }
    if is_type_at(text, at) {
        return typed_at(alloc, text, levels, Modifier::Unmodified, at);
    }
    untyped_at(alloc, text, levels, at)
}

// Whether `not` or `only` stands before a type.
fn modifies(keyword: &str, text: &str, at: usize) -> bool
    ensures { result ≡ modifies keyword.now text.now at }
{
    is_at(keyword, text, at)
        && is_type_at(text, white(text.as_bytes(), name_end(text.as_bytes(), at)))
}

#[tactic(auto, unfolding(crate::specs::Reading::typed_at))]
fn typed_at(
    alloc: Global,
    text: &str,
    levels: u8,
    modifier: Modifier,
    at: usize,
) -> Result<(Query, usize), MediaFault>
    ensures { IsRead result (typed_at (conditions_in text.now levels) text.now modifier at) }
{
    let end = name_end(text.as_bytes(), at);
    let (condition, to) = conditioned(alloc, text, levels, end)?;
    let medium = text_of(alloc, text, at, end)?;
    let query = Query {
        modifier,
        medium: Some(medium),
        condition,
    };
    Ok((query, to))
}

fn untyped_at(
    alloc: Global,
    text: &str,
    levels: u8,
    at: usize,
) -> Result<(Query, usize), MediaFault>
    ensures { IsRead result (untyped_at (conditions_in text.now levels) text.now at) }
{
    let (condition, to) = condition_at(alloc, text, levels, at)?;
    let query = Query {
        modifier: Modifier::Unmodified,
        medium: None,
        condition,
    };
    Ok((query, to))
}

// What stands behind a type.
#[tactic(auto, unfolding(crate::specs::Reading::conditioned))]
fn conditioned(
    alloc: Global,
    text: &str,
    levels: u8,
    at: usize,
) -> Result<(Condition, usize), MediaFault>
    ensures { IsRead result (conditioned (conditions_in text.now levels) text.now at) }
{
    let next = white(text.as_bytes(), at);
    if is_at("and", text, next) {
        let behind = white(text.as_bytes(), name_end(text.as_bytes(), next));
        return typed_condition(alloc, text, levels, behind);
    }
    Ok((Condition::And(List::new(alloc)), at))
}

#[tactic(auto, unfolding(crate::specs::Reading::typed_condition))]
fn typed_condition(
    alloc: Global,
    text: &str,
    levels: u8,
    at: usize,
) -> Result<(Condition, usize), MediaFault>
    ensures { IsRead result (typed_condition (conditions_in text.now levels) text.now at) }
{
    if is_at("not", text, at) {
        return denied_at(alloc, text, levels, at);
    }
    let (first, to) = feature_at(alloc, text, levels, at)?;
    all_behind(alloc, text, levels, first, to)
}

// Further features behind a first one, with `and` between.
#[tactic(auto, unfolding(crate::specs::Reading::all_by))]
fn all_behind(
    alloc: Global,
    text: &str,
    levels: u8,
    first: Name,
    at: usize,
) -> Result<(Condition, usize), MediaFault>
    ensures { IsRead result (all_by (conditions_in text.now levels) text.now (Some (first, at))) }
{
    let (features, to) = features_at(alloc, text, levels, "and", first, at)?;
    Ok((Condition::And(features), to))
}

// A condition in parentheses.
#[cycle(descent)]
fn conditions_in(
    alloc: Global,
    text: &str,
    levels: u8,
    at: usize,
) -> Result<(Condition, usize), MediaFault>
    ensures { IsRead result (conditions_in text.now levels at) }
{
    if levels == 0 {
        return Err(MediaFault::BadQuery);
    }
    condition_at(alloc, text, levels - 1, at)
}

#[cycle(descent)]
#[tactic(auto, unfolding(crate::specs::Reading::condition_at))]
fn condition_at(
    alloc: Global,
    text: &str,
    levels: u8,
    at: usize,
) -> Result<(Condition, usize), MediaFault>
    ensures { IsRead result (condition_at (conditions_in text.now levels) text.now at) }
{
    if is_at("not", text, at) {
        return denied_at(alloc, text, levels, at);
    }
    let (first, to) = feature_at(alloc, text, levels, at)?;
    joined_behind(alloc, text, levels, first, to)
}

// `not` and a feature.
#[cycle(descent)]
fn denied_at(
    alloc: Global,
    text: &str,
    levels: u8,
    at: usize,
) -> Result<(Condition, usize), MediaFault>
    ensures { IsRead result (denied (feature_at (conditions_in text.now levels) text.now
        (white text.now (name_end text.now at)))) }
{
    let behind = white(text.as_bytes(), name_end(text.as_bytes(), at));
    let (feature, to) = feature_at(alloc, text, levels, behind)?;
    Ok((Condition::Not(feature), to))
}

// Further features behind a first one, with `and` or with `or` between.
#[cycle(descent)]
#[tactic(auto, unfolding(crate::specs::Reading::joined_by))]
fn joined_behind(
    alloc: Global,
    text: &str,
    levels: u8,
    first: Name,
    at: usize,
) -> Result<(Condition, usize), MediaFault>
    ensures { IsRead result (joined_by (conditions_in text.now levels) text.now (Some (first, at))) }
{
    if is_at("or", text, white(text.as_bytes(), at)) {
        let (features, to) = features_at(alloc, text, levels, "or", first, at)?;
        return Ok((Condition::Or(features), to));
    }
    let (features, to) = features_at(alloc, text, levels, "and", first, at)?;
    Ok((Condition::And(features), to))
}

#[cycle(descent)]
#[tactic(auto, unfolding(crate::specs::Reading::features_at))]
fn features_at(
    alloc: Global,
    text: &str,
    levels: u8,
    keyword: &str,
    first: Name,
    at: usize,
) -> Result<(List<Name>, usize), MediaFault>
    ensures { IsRead result (features_at (conditions_in text.now levels) text.now keyword.now (first ∷ []) at) }
{
    let mut list = List::new(alloc);
    list.push(first)?;
    let mut place = at;
    'features: for _turn in 0..text.len() + 1 {
        let next = white(text.as_bytes(), place);
        if !is_at(keyword, text, next) {
            return Ok((list, place));
        }
        let behind = white(text.as_bytes(), name_end(text.as_bytes(), next));
        let (feature, to) = feature_at(alloc, text, levels, behind)?;
        list.push(feature)?;
        place = to;
    }
    Err(MediaFault::BadQuery)
}

// The text of a feature, and the place behind it.
#[cycle(descent)]
#[tactic(auto, unfolding(crate::specs::Reading::feature_at))]
fn feature_at(alloc: Global, text: &str, levels: u8, at: usize) -> Result<(Name, usize), MediaFault>
    ensures { IsRead result (feature_at (conditions_in text.now levels) text.now at) }
{
    if byte_at(text.as_bytes(), at) != signs::OPEN_PAREN {
        return Err(MediaFault::BadQuery);
    }
    inside_at(alloc, text, levels, white(text.as_bytes(), at + 1))
}

// The inside of parentheses.
#[cycle(descent)]
#[tactic(auto, unfolding(crate::specs::Reading::inside_at))]
fn inside_at(alloc: Global, text: &str, levels: u8, at: usize) -> Result<(Name, usize), MediaFault>
    ensures { IsRead result (inside_at (conditions_in text.now levels) text.now at) }
{
    if byte_at(text.as_bytes(), at) == signs::OPEN_PAREN || is_at("not", text, at) {
        return nested_at(alloc, text, levels, at);
    }
    plain_at(alloc, text, at)
}

#[cycle(descent)]
#[tactic(auto, unfolding(crate::specs::Reading::nested_by))]
fn nested_at(alloc: Global, text: &str, levels: u8, at: usize) -> Result<(Name, usize), MediaFault>
    ensures { IsRead result (nested_by text.now (conditions_in text.now levels at)) }
{
    let (condition, to) = conditions_in(alloc, text, levels, at)?;
    let inside = condition_text(alloc, &condition)?;
    closed_by(alloc, text, inside.as_str(), white(text.as_bytes(), to))
}
