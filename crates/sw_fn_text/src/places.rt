// Places in a string, counted in characters from 1, or from its end where they are below zero.
ghost use Rattle.std.specs.Prelude.{◌≡◌, ◌-◌, min, Ok, Err, IfOk, MatchResult, chars, length as len};
ghost use Rattle.std.specs.String.{string_bytes};
ghost use Rattle.sw_fixed.specs.Arithmetic.{is_below_zero};
ghost use Rattle.sw_fn_call.specs.Answers.{IsAnswer};
ghost use Rattle.sw_fn_text.specs.Places.{whole_place, place_of as place_value, start_place, end_place, insert_place, place_in as place_of_part, two_texts as both_texts, piece as piece_of, inserted as inserted_text, inserted_at as inserted_value, sliced as sliced_value, length, index, insert, slice};

use std::alloc::{AllocError, Global};
use sw_fn_call::{
    Argument, FnFault, count, is_quoted, number_of, one, ordinal, text, text_of, three, two,
};
use sw_text::Name;
use sw_units::Number;
use sw_values::Value;

// How many characters a text has.
fn char_count(text: &str) -> usize
    ensures { result ≡ len (chars text.now) }
{
    text.chars().count()
}

pub(crate) fn length(args: &[Argument]) -> Result<Value, FnFault>
    ensures { IsAnswer result (length args.now) }
{
    let given = text_of(one(args)?)?;
    Ok(count(char_count(given.as_str())))
}

// How many characters stand before a part of a text.
#[tactic(auto, unfolding(crate::specs::Places::place_in))]
fn place_in(text: &str, part: &str) -> Option<usize>
    ensures { result ≡ place_of_part text.now part.now }
{
    match text.split_once(part) {
        Some(parts) => Some(char_count(parts.0)),
        None => None,
    }
}

// Both arguments, which are strings.
#[tactic(auto, unfolding(crate::specs::Places::two_texts))]
fn two_texts(args: &[Argument]) -> Result<(&Name, &Name), FnFault>
    ensures { MatchResult result (λ texts. both_texts args.now ≡ Ok (texts.0.now, texts.1.now))
        (λ fault. both_texts args.now ≡ Err fault) }
{
    let (text, part) = two(args)?;
    let text = text_of(text)?;
    let part = text_of(part)?;
    Ok((text, part))
}

pub(crate) fn index(args: &[Argument]) -> Result<Value, FnFault>
    ensures { IsAnswer result (index args.now) }
{
    let (given, part) = two_texts(args)?;
    Ok(ordinal(place_in(given.as_str(), part.as_str())))
}

// The whole number of a place.
fn whole_place(number: &Number) -> Result<i128, FnFault>
    ensures { result ≡ whole_place number.now }
{
    if !number.units.is_unitless() {
        return Err(FnFault::Index);
    }
    match number.value.whole() {
        Some(place) => Ok(place),
        None => Err(FnFault::Index),
    }
}

pub(crate) fn is_below_zero(number: i128) -> bool
    ensures { result ≡ is_below_zero number }
{
    number < 0
}

// An argument that is a place in a string.
fn place_of(value: &Value) -> Result<i128, FnFault>
    ensures { result ≡ place_value value.now }
{
    match number_of(value) {
        Ok(number) => whole_place(number),
        Err(fault) => Err(fault),
    }
}

// How many of so many characters stand before the one of a place.
fn start_place(place: i128, all: usize) -> usize
    ensures { result ≡ start_place place all }
{
    let size = place.unsigned_abs();
    if is_below_zero(place) {
        behind_end(all, size)
    } else {
        before(all, size.saturating_sub(1))
    }
}

// How many of so many characters stand up to the one of a place, with itself.
fn end_place(place: i128, all: usize) -> usize
    ensures { result ≡ end_place place all }
{
    let size = place.unsigned_abs();
    if is_below_zero(place) {
        behind_end(all, size.saturating_sub(1))
    } else {
        before(all, size)
    }
}

// How many of so many characters stand before what is inserted at a place.
fn insert_place(place: i128, all: usize) -> usize
    ensures { result ≡ insert_place place all }
{
    let size = place.unsigned_abs();
    if is_below_zero(place) {
        behind_end(all, size.saturating_sub(1))
    } else {
        before(all, size.saturating_sub(1))
    }
}

// So many of the first characters, or all.
pub(crate) fn before(all: usize, size: u128) -> usize
    ensures { result ≡ min size all }
{
    if size < all as u128 {
        size as usize
    } else {
        all
    }
}

// What is left of all before so many of the last ones.
fn behind_end(all: usize, size: u128) -> usize
    ensures { result ≡ all - size }
{
    if size < all as u128 {
        all - size as usize
    } else {
        0
    }
}

// The characters from one place to another.
fn piece(alloc: Global, text: &str, from: usize, to: usize) -> Result<String, AllocError>
    ensures { IfOk result (λ piece. string_bytes piece ≡ piece_of text.now from to) }
{
    text.chars()
        .skip(from)
        .take(to.saturating_sub(from))
        .collect(alloc)
}

// A text with another one behind so many characters.
fn inserted(alloc: Global, text: &str, part: &str, place: usize) -> Result<String, AllocError>
    ensures { IfOk result (λ whole. string_bytes whole ≡ inserted_text text.now part.now place) }
{
    text.chars()
        .take(place)
        .chain(part.chars())
        .chain(text.chars().skip(place))
        .collect(alloc)
}

fn inserted_at(
    alloc: Global,
    quoted: bool,
    given: &str,
    part: &str,
    place: i128,
) -> Result<Value, FnFault>
    ensures { IsAnswer result (inserted_value quoted given.now part.now place) }
{
    match inserted(alloc, given, part, insert_place(place, char_count(given))) {
        Ok(whole) => text(alloc, whole.as_str(), quoted),
        Err(_) => Err(FnFault::Memory),
    }
}

pub(crate) fn insert(alloc: Global, args: &[Argument]) -> Result<Value, FnFault>
    ensures { IsAnswer result (insert args.now) }
{
    let (first, second, third) = three(args)?;
    let given = text_of(first)?;
    let part = text_of(second)?;
    let place = place_of(third)?;
    inserted_at(
        alloc,
        is_quoted(first),
        given.as_str(),
        part.as_str(),
        place,
    )
}

fn sliced(alloc: Global, quoted: bool, given: &str, from: i128, to: i128) -> Result<Value, FnFault>
    ensures { IsAnswer result (sliced_value quoted given.now from to) }
{
    let all = char_count(given);
    match piece(alloc, given, start_place(from, all), end_place(to, all)) {
        Ok(piece) => text(alloc, piece.as_str(), quoted),
        Err(_) => Err(FnFault::Memory),
    }
}

pub(crate) fn slice(alloc: Global, args: &[Argument]) -> Result<Value, FnFault>
    ensures { IsAnswer result (slice args.now) }
{
    let (first, second, third) = three(args)?;
    let given = text_of(first)?;
    let from = place_of(second)?;
    let to = place_of(third)?;
    sliced(alloc, is_quoted(first), given.as_str(), from, to)
}
