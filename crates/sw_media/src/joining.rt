// Media queries joined with those around them.
ghost use Rattle.std.specs.Prelude.{◌≡◌, ◌∷◌, ◌++◌, [], IfOk, OnOk, false};
ghost use Rattle.sw_media.specs.Features.{in_parens};
ghost use Rattle.sw_media.specs.Reading.{IsAnswer};
ghost use Rattle.sw_media.specs.Writing.{condition_text};
ghost use Rattle.sw_media.specs.Joining.{is_not, is_only, is_denied, denied_from, same_medium, is_all, either_only, joined_kind, two_media, kind_by, features_of, joined_features, pair_added, inner_joined, outer_joined, media_meet, is_kept, counted, inner_counted, outer_counted, too_many, joins_none, join_by};

use crate::feature::in_parens;
use crate::reader::MOST_QUERIES;
use crate::write::condition_text;
use crate::{Condition, MediaFault, Modifier, Queries, Query};
use std::alloc::Global;
use sw_text::{List, Memory, Name};

/// A joined query's type, with what stands before it.
#[derive(Drop)]
pub struct Kind {
    pub modifier: Modifier,
    pub medium: Option<Name>,
}

/// Each outer query joined with each inner one, with the outer ones as outer loop. The type comes first, then the outer
/// features, then the inner ones; a condition with `or` or `not` stands in parentheses. Two types equal without regard
/// to case are one, written as the outer one is, with `only` if either has it; `all` gives way to another type; a pair
/// of any other two types is dropped. `MediaJoin` comes exactly where a query has `not` before its type; else
/// `TooLarge` exactly where more than 10,000 queries would come.
pub fn join(alloc: Global, outer: &Queries, inner: &Queries) -> Result<Queries, MediaFault>
    ensures { IsAnswer result (join_by outer.now inner.now) }
{
    joined(alloc, outer.as_slice(), inner.as_slice())
}

fn joined(alloc: Global, outers: &[Query], inners: &[Query]) -> Result<Queries, MediaFault>
    ensures { IsAnswer result (join_by outers.now inners.now) }
{
    if joins_none(outers, inners) {
        return Err(MediaFault::MediaJoin);
    }
    if too_many(outers, inners) {
        return Err(MediaFault::TooLarge);
    }
    let list = outer_joined(alloc, inners, outers)?;
    Ok(Queries::new(list))
}

fn is_not(modifier: Modifier) -> bool
    ensures { result ≡ is_not modifier }
{
    match modifier {
        Modifier::Not => true,
        _ => false,
    }
}

fn is_only(modifier: Modifier) -> bool
    ensures { result ≡ is_only modifier }
{
    match modifier {
        Modifier::Only => true,
        _ => false,
    }
}

#[tactic(auto, unfolding(crate::specs::Joining::is_denied))]
fn is_denied(query: &Query) -> bool
    ensures { result ≡ is_denied query.now }
{
    match &query.medium {
        None => false,
        Some(_) => is_not(query.modifier),
    }
}

fn some_denied(list: &[Query]) -> bool
    ensures { result ≡ denied_from false list.now }
{
    let mut found = false;
    'list: for query in list {
        found = found || is_denied(query);
    }
    found
}

fn joins_none(outers: &[Query], inners: &[Query]) -> bool
    ensures { result ≡ joins_none outers.now inners.now }
{
    some_denied(outers) || some_denied(inners)
}

#[tactic(auto, unfolding(crate::specs::Joining::same_medium))]
fn same_medium(a: &str, b: &str) -> bool
    ensures { result ≡ same_medium a.now b.now }
{
    a.eq_ignore_ascii_case(b)
}

fn is_all(medium: &str) -> bool
    ensures { result ≡ is_all medium.now }
{
    same_medium(medium, "all")
}

fn either_only(outer: Modifier, inner: Modifier) -> Modifier
    ensures { result ≡ either_only outer inner }
{
    if is_only(inner) { inner } else { outer }
}

fn kind_of(modifier: Modifier, medium: &Name) -> Result<Kind, Memory>
    ensures { IfOk result (λ kind. kind ≡ record { modifier = modifier; medium = Some medium.now }) }
{
    let medium = Some(medium.share()?);
    Ok(Kind { modifier, medium })
}

// The type of two queries that both have one.
#[tactic(auto, unfolding(crate::specs::Joining::two_media))]
fn two_media(outer: Modifier, a: &Name, inner: Modifier, b: &Name) -> Result<Option<Kind>, Memory>
    ensures { IfOk result (λ kind. kind ≡ two_media outer a.now inner b.now) }
{
    if same_medium(a.as_str(), b.as_str()) {
        return Ok(Some(kind_of(either_only(outer, inner), a)?));
    }
    if is_all(a.as_str()) {
        return Ok(Some(kind_of(inner, b)?));
    }
    if is_all(b.as_str()) {
        return Ok(Some(kind_of(outer, a)?));
    }
    Ok(None)
}

fn kind_alone(modifier: Modifier, medium: &Option<Name>) -> Result<Option<Kind>, Memory>
    ensures { IfOk result (λ kind. kind ≡ Some (record { modifier = modifier; medium = medium.now })) }
{
    match medium {
        None => Ok(Some(Kind {
            modifier,
            medium: None,
        })),
        Some(name) => Ok(Some(kind_of(modifier, name)?)),
    }
}

fn kind_by(
    outer: Modifier,
    a: &Option<Name>,
    inner: Modifier,
    b: &Option<Name>,
) -> Result<Option<Kind>, Memory>
    ensures { IfOk result (λ kind. kind ≡ kind_by outer a.now inner b.now) }
{
    match a {
        None => kind_alone(inner, b),
        Some(first) => match b {
            None => kind_alone(outer, a),
            Some(second) => two_media(outer, first, inner, second),
        },
    }
}

// The type of two queries joined, with what stands before it. None where the pair is dropped.
#[tactic(auto, unfolding(crate::specs::Joining::joined_kind))]
fn joined_kind(outer: &Query, inner: &Query) -> Result<Option<Kind>, Memory>
    ensures { IfOk result (λ kind. kind ≡ joined_kind outer.now inner.now) }
{
    kind_by(outer.modifier, &outer.medium, inner.modifier, &inner.medium)
}

fn push_shared(out: &mut List<Name>, features: &[Name]) -> Result<(), Memory>
    ensures { OnOk result (out.new ≡ out.old ++ features.now) }
{
    'features: for feature in features {
        out.push(feature.share()?)?;
    }
    Ok(())
}

fn push_features(alloc: Global, out: &mut List<Name>, condition: &Condition) -> Result<(), Memory>
    ensures { OnOk result (out.new ≡ out.old ++ features_of condition.now) }
{
    match condition {
        Condition::And(features) => push_shared(out, features.as_slice()),
        Condition::Or(_) => push_parens(alloc, out, condition),
        Condition::Not(_) => push_parens(alloc, out, condition),
    }
}

fn push_parens(alloc: Global, out: &mut List<Name>, condition: &Condition) -> Result<(), Memory>
    ensures { OnOk result (out.new ≡ out.old ++ in_parens (condition_text condition.now) ∷ []) }
{
    let text = condition_text(alloc, condition)?;
    let whole = in_parens(alloc, text.as_str())?;
    out.push(whole)
}

#[tactic(auto, unfolding(crate::specs::Joining::joined_features))]
fn joined_features(alloc: Global, outer: &Query, inner: &Query) -> Result<List<Name>, Memory>
    ensures { IfOk result (λ features. features ≡ joined_features outer.now inner.now) }
{
    let mut out = List::new(alloc);
    push_features(alloc, &mut out, &outer.condition)?;
    push_features(alloc, &mut out, &inner.condition)?;
    Ok(out)
}

#[tactic(auto, unfolding(crate::specs::Joining::pair_added))]
fn push_pair(
    alloc: Global,
    list: &mut List<Query>,
    outer: &Query,
    inner: &Query,
) -> Result<(), Memory>
    ensures { OnOk result (list.new ≡ pair_added list.old outer.now inner.now) }
{
    match joined_kind(outer, inner)? {
        None => Ok(()),
        Some(kind) => {
            let Kind { modifier, medium } = kind;
            let features = joined_features(alloc, outer, inner)?;
            list.push(Query {
                modifier,
                medium,
                condition: Condition::And(features),
            })
        }
    }
}

fn push_inner(
    alloc: Global,
    list: &mut List<Query>,
    outer: &Query,
    inners: &[Query],
) -> Result<(), Memory>
    ensures { OnOk result (list.new ≡ inner_joined outer.now list.old inners.now) }
{
    'inners: for inner in inners {
        push_pair(alloc, list, outer, inner)?;
    }
    Ok(())
}

fn outer_joined(alloc: Global, inners: &[Query], outers: &[Query]) -> Result<List<Query>, Memory>
    ensures { IfOk result (λ list. list ≡ outer_joined inners.now [] outers.now) }
{
    let mut list = List::new(alloc);
    'outers: for outer in outers {
        push_inner(alloc, &mut list, outer, inners)?;
    }
    Ok(list)
}

fn media_meet(a: &str, b: &str) -> bool
    ensures { result ≡ media_meet a.now b.now }
{
    same_medium(a, b) || is_all(a) || is_all(b)
}

// Whether a pair isn't dropped.
#[tactic(auto, using(crate::proofs::Pairs::media_kept), unfolding(crate::specs::Joining::is_kept, crate::specs::Joining::joined_kind))]
fn is_kept(outer: &Query, inner: &Query) -> bool
    ensures { result ≡ is_kept outer.now inner.now }
{
    match &outer.medium {
        None => true,
        Some(a) => match &inner.medium {
            None => true,
            Some(b) => media_meet(a.as_str(), b.as_str()),
        },
    }
}

fn counted(count: usize, kept: bool) -> usize
    ensures { result ≡ counted count kept }
{
    if kept && count <= MOST_QUERIES {
        count + 1
    } else {
        count
    }
}

fn inner_counted(outer: &Query, count: usize, inners: &[Query]) -> usize
    ensures { result ≡ inner_counted outer.now count inners.now }
{
    let mut sum = count;
    'inners: for inner in inners {
        sum = counted(sum, is_kept(outer, inner));
    }
    sum
}

fn outer_counted(inners: &[Query], outers: &[Query]) -> usize
    ensures { result ≡ outer_counted inners.now 0 outers.now }
{
    let mut sum = 0;
    'outers: for outer in outers {
        sum = inner_counted(outer, sum, inners);
    }
    sum
}

// Whether more than 10,000 queries would come.
#[tactic(auto, unfolding(crate::specs::Joining::too_many))]
fn too_many(outers: &[Query], inners: &[Query]) -> bool
    ensures { result ≡ too_many outers.now inners.now }
{
    outer_counted(inners, outers) > MOST_QUERIES
}
