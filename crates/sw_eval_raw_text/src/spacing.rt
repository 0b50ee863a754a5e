// White space in special text.
ghost use Rattle.std.specs.Prelude.{◌≡◌, ◌<◌, ◌≤◌, ◌++◌, drop, length, true, if◌then◌else◌, codes, [], IfOk, OnOk, string_bytes};
ghost use Rattle.sw_scope.specs.Bind.{is_empty};
ghost use Rattle.sw_eval_raw_text.specs.Spacing.{turned, is_inside, stepped, is_blank, shows_space, start, behind_value, behind, is_one, is_end, spaced, piece_spaced, behind_piece, spaced_texts};

use crate::imports::is_text;
use std::alloc::Global;
use sw_text::{List, Memory, Name};
use sw_text_scan::{byte_at, is_quote, is_white, signs};
use sw_tree::Piece;

/// How special text is read at a place.
#[derive(Clone, Copy, Debug)]
pub(crate) struct Reading {
    /// The quote of the string that is open there.
    pub quote: Option<u16>,
    /// The last byte before it that is no white space; the number of the end, where a value stands before it or
    /// nothing.
    pub before: u16,
    /// Something stands before it behind the first bracket.
    pub inside: bool,
}

/// The quote that is open behind a byte.
pub(crate) fn turned(quote: Option<u16>, byte: u16) -> Option<u16>
    ensures { result ≡ turned quote byte }
{
    match quote {
        None => { if is_quote(byte) { Some(byte) } else { None } }
        Some(open) => { if byte == open { None } else { Some(open) } }
    }
}

impl Reading {
    /// At the start of a text.
    pub(crate) fn start() -> Reading
        ensures { result ≡ start }
    {
        Reading {
            quote: None,
            before: signs::END,
            inside: false,
        }
    }

    /// Behind a value.
    fn behind_value(self) -> Reading
        ensures { result ≡ behind_value self }
    {
        Reading {
            quote: self.quote,
            before: signs::END,
            inside: true,
        }
    }

    fn is_inside(self) -> bool
        ensures { result ≡ is_inside self }
    {
        self.inside || self.before == signs::OPEN_PAREN
    }

    /// Behind a byte that stays as it is.
    fn stepped(self, byte: u16) -> Reading
        ensures { result ≡ stepped self byte }
    {
        if self.before == signs::BACKSLASH {
            return Reading {
                quote: self.quote,
                before: signs::END,
                inside: self.inside,
            };
        }
        Reading {
            quote: turned(self.quote, byte),
            before: byte,
            inside: self.is_inside(),
        }
    }

    // Whether a byte is white space that may be left out.
    fn is_blank(self, byte: u16) -> bool
        ensures test { result ≡ is_blank self byte }
        ensures ascii { result ≡ true → byte < 128 }
    {
        is_white(byte) && self.quote.is_none() && self.before != signs::BACKSLASH
    }

    // Whether white space before a byte, which is the last bracket or not, is a space.
    fn shows_space(self, is_end: bool, next: u16) -> bool
        ensures { result ≡ shows_space self is_end next }
    {
        self.inside && !is_end && !is_white(next)
    }
}

// How it is read behind a text.
#[tactic(auto, using(crate::proofs::Spaced::behind_kept, crate::proofs::Spaced::behind_blank, crate::proofs::Spaced::behind_end))]
fn behind(reading: Reading, text: &str) -> Reading
    ensures { result ≡ behind reading text.now }
{
    let mut now = reading;
    'bytes: for byte in text.as_bytes() {
        if now.is_blank(*byte as u16) {
            continue;
        }
        now = now.stepped(*byte as u16);
    }
    now
}

fn add_space(text: &mut String, is_shown: bool) -> Result<(), Memory>
    ensures { OnOk result (string_bytes text.new ≡ string_bytes text.old ++ (if is_shown then codes " " else [])) }
{
    if is_shown {
        text.push(' ')?;
    }
    Ok(())
}

fn is_one(bytes: &[u8]) -> bool
    ensures { result ≡ is_one bytes.now }
{
    match bytes {
        [] => false,
        [_] => true,
        [_, _, ..] => false,
    }
}

// Whether the last bracket alone is left from a place on, in the last text or another one.
fn is_end(is_last: bool, bytes: &[u8], from: usize) -> bool
    requires { from ≤ length bytes.now }
    ensures { result ≡ is_end is_last (drop from bytes.now) }
{
    is_last && is_one(&bytes[from..])
}

/// A text, the last one or not, in which white space outside of strings is one space each time, and none behind the
/// first bracket or before the last one.
#[tactic(auto, using(crate::proofs::Spaced::kept, crate::proofs::Spaced::spaced_end))]
pub(crate) fn spaced(
    alloc: Global,
    is_last: bool,
    reading: Reading,
    text: &str,
) -> Result<Name, Memory>
    ensures { IfOk result (λ name. name ≡ spaced is_last reading text.now) }
{
    let mut name = String::new(alloc);
    let mut now = reading;
    let mut from = 0;
    'bytes: for (at, byte) in text.as_bytes().iter().enumerate() {
        if !now.is_blank(*byte as u16) {
            now = now.stepped(*byte as u16);
            continue;
        }
        name.push_str(&text[from..at])?;
        let is_end = is_end(is_last, text.as_bytes(), at + 1);
        add_space(
            &mut name,
            now.shows_space(is_end, byte_at(text.as_bytes(), at + 1)),
        )?;
        from = at + 1;
    }
    name.push_str(&text[from..])?;
    Name::new(alloc, name.as_str())
}

// The text of a piece, the last one or not: that of a value is as it is.
fn piece_spaced(
    alloc: Global,
    is_last: bool,
    reading: Reading,
    one: &Piece,
    text: &Name,
) -> Result<Name, Memory>
    ensures { IfOk result (λ name. name ≡ piece_spaced is_last reading one.now text.now) }
{
    if is_text(one) {
        spaced(alloc, is_last, reading, text.as_str())
    } else {
        text.share()
    }
}

fn behind_piece(reading: Reading, one: &Piece, text: &Name) -> Reading
    ensures { result ≡ behind_piece reading one.now text.now }
{
    if is_text(one) {
        behind(reading, text.as_str())
    } else {
        reading.behind_value()
    }
}

fn is_none(pieces: &[Piece]) -> bool
    ensures { result ≡ is_empty pieces.now }
{
    match pieces {
        [] => true,
        [_, ..] => false,
    }
}

/// The texts of pieces, with white space in those of the sheet as special text has it.
#[tactic(auto, using(crate::proofs::Spaced::texts_next, crate::proofs::Spaced::texts_none, crate::proofs::Spaced::texts_end))]
pub(crate) fn spaced_texts(
    alloc: Global,
    all: &[Piece],
    texts: &[Name],
) -> Result<List<Name>, Memory>
    ensures { IfOk result (λ done. done ≡ spaced_texts start all.now texts.now) }
{
    let mut done = List::new(alloc);
    let mut reading = Reading::start();
    'all: for place in 0..all.len() {
        if place >= texts.len() {
            return Ok(done);
        }
        let is_last = is_none(&all[place + 1..]);
        let text = piece_spaced(alloc, is_last, reading, &all[place], &texts[place])?;
        done.push(text)?;
        reading = behind_piece(reading, &all[place], &texts[place]);
    }
    Ok(done)
}
