// Looking ahead over the tokens of a text.
ghost use Rattle.std.specs.Prelude.{◌≡◌, ◌+◌, ◌^◌, ◌<◌, ◌≤◌, length, MatchOption};
ghost use Rattle.sw_parse_lexemes.specs.Ahead.{sort_at, spaced_at, length_at, is_direct, name_direct, number_direct, next_sort, begins_word, in_insert, over_comment, over_word, to_sign, walk_step, walk_from, code_from, opens_block, behind_first};

use crate::class::{goes_on, is_name, is_number, is_reserved, same};
use crate::plain::Plain;
use crate::sort::Sort;
use crate::state::Walk;

#[tactic(auto, unfolding(crate::specs::Ahead::sort_at))]
pub(crate) fn sort_at(plains: &[Plain], at: usize) -> Sort
    ensures { result ≡ sort_at plains.now at }
{
    match plains.get(at) {
        None => Sort::Other,
        Some(plain) => plain.sort,
    }
}

#[tactic(auto, unfolding(crate::specs::Ahead::length_at))]
pub(crate) fn length_at(plains: &[Plain], at: usize) -> u32
    ensures { result ≡ length_at plains.now at }
{
    match plains.get(at) {
        None => 0,
        Some(plain) => plain.to.saturating_sub(plain.from),
    }
}

#[tactic(auto, unfolding(crate::specs::Ahead::spaced_at))]
pub(crate) fn spaced_at(plains: &[Plain], at: usize) -> bool
    ensures { result ≡ spaced_at plains.now at }
{
    match plains.get(at) {
        None => true,
        Some(plain) => plain.spaced,
    }
}

pub(crate) fn is_direct(plains: &[Plain], at: usize, sort: Sort) -> bool
    ensures { result ≡ is_direct plains.now at sort }
{
    !spaced_at(plains, at) && same(sort_at(plains, at), sort)
}

pub(crate) fn name_direct(plains: &[Plain], at: usize) -> bool
    ensures { result ≡ name_direct plains.now at }
{
    !spaced_at(plains, at) && is_name(sort_at(plains, at))
}

pub(crate) fn number_direct(plains: &[Plain], at: usize) -> bool
    ensures { result ≡ number_direct plains.now at }
{
    !spaced_at(plains, at) && is_number(sort_at(plains, at))
}

#[inline(always)]
fn over_comment(sort: Sort, count: usize) -> Option<usize>
    requires { count + 1 < 2 ^ 64 }
    ensures value { result ≡ over_comment sort count }
    ensures more { MatchOption result (Unit {0}) (λ more. more ≤ count + 1) }
{
    match sort {
        Sort::Comment => Some(count),
        Sort::CommentTemplate => Some(count + 1),
        Sort::CommentEnd => Some(count.saturating_sub(1)),
        _ => { if 0 < count { Some(count) } else { None } }
    }
}

#[inline(always)]
fn in_insert(sort: Sort, count: usize) -> usize
    requires { count + 1 < 2 ^ 64 }
    ensures value { result ≡ in_insert sort count }
    ensures more { result ≤ count + 1 }
{
    match sort {
        Sort::OpenInsert => count + 1,
        Sort::CloseInsert => count.saturating_sub(1),
        _ => count,
    }
}

#[inline(always)]
fn over_word(sort: Sort, spaced: bool, count: usize) -> Option<usize>
    requires { count + 1 < 2 ^ 64 }
    ensures value { result ≡ over_word sort spaced count }
    ensures more { MatchOption result (Unit {0}) (λ more. more ≤ count + 1) }
{
    if 0 < count {
        Some(in_insert(sort, count))
    } else if !spaced && goes_on(sort) {
        Some(in_insert(sort, 0))
    } else {
        None
    }
}

#[inline(always)]
fn to_sign(sort: Sort, count: usize) -> Option<usize>
    requires { count + 1 < 2 ^ 64 }
    ensures value { result ≡ to_sign sort count }
    ensures more { MatchOption result (Unit {0}) (λ more. more ≤ count + 1) }
{
    match sort {
        Sort::OpenParen | Sort::OpenBracket | Sort::OpenInsert => Some(count + 1),
        Sort::CloseParen | Sort::CloseBracket | Sort::CloseInsert => Some(count.saturating_sub(1)),
        Sort::OpenBrace | Sort::CloseBrace | Sort::Semicolon => {
            if count == 0 { None } else { Some(count) }
        }
        _ => Some(count),
    }
}

#[inline(always)]
fn walk_step(walk: Walk, sort: Sort, spaced: bool, count: usize) -> Option<usize>
    requires { count + 1 < 2 ^ 64 }
    ensures value { result ≡ walk_step walk sort spaced count }
    ensures more { MatchOption result (Unit {0}) (λ more. more ≤ count + 1) }
{
    match walk {
        Walk::Comments => over_comment(sort, count),
        Walk::Word => over_word(sort, spaced, count),
        Walk::Sign => to_sign(sort, count),
    }
}

// The loop of a walk.
#[tactic(auto, using(crate::proofs::Walks::walk_stops, crate::proofs::Walks::walk_ends), unfolding(crate::specs::Ahead::walk_from))]
#[inline(never)]
fn walk_on(walk: Walk, plains: &[Plain], count: usize, at: usize) -> usize
    requires one { count ≤ 1 }
    requires near { at ≤ length plains.now + 4 }
    ensures value { result ≡ walk_from walk plains.now count at }
    ensures near { at ≤ length plains.now → result ≤ length plains.now }
{
    let mut open = count;
    let mut place = at;
    'items: while place < plains.len() {
        let sort = sort_at(plains, place);
        let spaced = spaced_at(plains, place);
        match walk_step(walk, sort, spaced, open) {
            None => return place,
            Some(more) => open = more,
        }
        place += 1;
    }
    place
}

/// Where a walk from a place on ends. Most end where they begin, which needs no loop.
#[tactic(auto, using(crate::proofs::Walks::walk_none))]
#[inline(always)]
pub(crate) fn walk_from(walk: Walk, plains: &[Plain], count: usize, at: usize) -> usize
    requires one { count ≤ 1 }
    requires near { at ≤ length plains.now + 4 }
    ensures value { result ≡ walk_from walk plains.now count at }
    ensures near { at ≤ length plains.now → result ≤ length plains.now }
{
    match walk_step(walk, sort_at(plains, at), spaced_at(plains, at), count) {
        None => at,
        Some(_) => walk_on(walk, plains, count, at),
    }
}

/// The first place from one on that is no comment.
pub(crate) fn code_from(plains: &[Plain], at: usize) -> usize
    requires { at ≤ length plains.now + 4 }
    ensures value { result ≡ code_from plains.now at }
    ensures near { at ≤ length plains.now → result ≤ length plains.now }
{
    walk_from(Walk::Comments, plains, 0, at)
}

/// The sort of the next token that is no comment.
pub(crate) fn next_sort(plains: &[Plain], at: usize) -> Sort
    requires { at < length plains.now }
    ensures { result ≡ next_sort plains.now at }
{
    sort_at(plains, code_from(plains, at + 1))
}

/// Whether the first `;`, `{` or `}` from a place on, outside brackets, is a `{`.
pub(crate) fn opens_block(plains: &[Plain], at: usize) -> bool
    requires { at ≤ length plains.now + 4 }
    ensures { result ≡ opens_block plains.now at }
{
    same(
        sort_at(plains, walk_from(Walk::Sign, plains, 0, at)),
        Sort::OpenBrace,
    )
}

/// The place behind the word that begins at a place.
pub(crate) fn behind_first(plains: &[Plain], at: usize) -> usize
    requires { at < length plains.now }
    ensures value { result ≡ behind_first plains.now at }
    ensures near { result ≤ length plains.now }
{
    walk_from(
        Walk::Word,
        plains,
        in_insert(sort_at(plains, at), 0),
        at + 1,
    )
}

/// Whether a word begins at a place.
pub(crate) fn begins_word(plains: &[Plain], at: usize) -> bool
    requires { at ≤ length plains.now }
    ensures { result ≡ begins_word plains.now at }
{
    if is_name(sort_at(plains, at)) {
        !is_reserved(sort_at(plains, at)) || is_direct(plains, at + 1, Sort::OpenInsert)
    } else {
        same(sort_at(plains, at), Sort::OpenInsert)
            || (same(sort_at(plains, at), Sort::Minus)
                && is_direct(plains, at + 1, Sort::OpenInsert))
    }
}
