// Where the text behind `@import` is cut into parts.
ghost use Rattle.std.specs.Prelude.{◌≡◌, ◌<◌, ◌≤◌, ◌+◌, ◌^◌, ◌++◌, ◌∷◌, [], true, drop, if◌then◌else◌, length, IfOk, OnOk};
ghost use Rattle.sw_text_scan.specs.Brackets.{over};
ghost use Rattle.sw_text_scan.specs.Bytes.{is_white};
ghost use Rattle.sw_eval_raw_text.specs.Cutting.{is_opening, is_closing, nothing, is_nothing, deeper, stepped, begins_part, is_cut, kept_end, bare_part, parts_of};

use crate::spacing::turned;
use std::alloc::Global;
use sw_text::{List, Memory, Name};
use sw_text_scan::{
    Class, begins_url, byte_at, escape_end, is_quote, is_white, piece, run_end, signs,
};

/// What is open at a place of such a text.
#[derive(Clone, Copy, Debug)]
pub(crate) struct Open {
    /// The quote of the string that is open there.
    pub quote: Option<u16>,
    /// A `\` stands before it that isn't escaped itself.
    pub escaped: bool,
    /// How many brackets are open.
    pub depth: usize,
}

// Whether a byte is an opening bracket.
fn is_opening(byte: u16) -> bool
    ensures { result ≡ is_opening byte }
{
    byte == signs::OPEN_PAREN || byte == signs::OPEN_BRACKET || byte == signs::OPEN_BRACE
}

// Whether a byte is a closing bracket.
fn is_closing(byte: u16) -> bool
    ensures { result ≡ is_closing byte }
{
    byte == signs::CLOSE_PAREN || byte == signs::CLOSE_BRACKET || byte == signs::CLOSE_BRACE
}

// How many brackets are open behind a byte outside strings.
fn deeper(depth: usize, byte: u16) -> usize
    requires { depth < 2 ^ 63 }
    ensures depth { result ≡ deeper depth byte }
    ensures one { result ≤ depth + 1 }
{
    if is_opening(byte) {
        return depth + 1;
    }
    if is_closing(byte) {
        return depth.saturating_sub(1);
    }
    depth
}

impl Open {
    fn nothing() -> Open
        ensures { result ≡ nothing }
    {
        Open {
            quote: None,
            escaped: false,
            depth: 0,
        }
    }

    fn is_nothing(self) -> bool
        ensures { result ≡ is_nothing self }
    {
        self.quote.is_none() && !self.escaped && self.depth == 0
    }

    // What is open behind a byte.
    fn stepped(self, byte: u16) -> Open
        requires { self.depth < 2 ^ 63 }
        ensures state { result ≡ stepped self byte }
        ensures one { result.depth ≤ self.depth + 1 }
    {
        if self.escaped {
            return Open {
                quote: self.quote,
                escaped: false,
                depth: self.depth,
            };
        }
        let depth = if self.quote.is_none() {
            deeper(self.depth, byte)
        } else {
            self.depth
        };
        Open {
            quote: turned(self.quote, byte),
            escaped: byte == signs::BACKSLASH,
            depth,
        }
    }
}

// Whether white space stands there, and then a string or `url(`.
#[tactic(auto, using(crate::proofs::Cuts::white_next, crate::proofs::Cuts::begins_here, crate::proofs::Cuts::begins_end))]
fn begins_part(bytes: &[u8], from: usize) -> bool
    ensures { result ≡ begins_part (drop from bytes.now) }
{
    'bytes: for place in from..bytes.len() {
        let byte = byte_at(bytes, place);
        if !is_white(byte) {
            return is_quote(byte) || begins_url(bytes, place);
        }
    }
    false
}

// Whether a byte is a comma outside strings and brackets, and a part begins at the place behind it.
fn is_cut(here: Open, byte: u16, bytes: &[u8], behind: usize) -> bool
    ensures test { result ≡ is_cut here byte (drop behind bytes.now) }
    ensures ascii { result ≡ true → byte < 128 }
{
    here.is_nothing() && byte == signs::COMMA && begins_part(bytes, behind)
}

// The place behind one escape, or one byte.
#[tactic(auto, unfolding(sw_text_scan::specs::Brackets::over))]
fn over(bytes: &[u8], at: usize) -> usize
    requires { at < length bytes.now }
    ensures { result ≡ over bytes.now at }
{
    let end = escape_end(bytes, at);
    if at < end { end } else { at + 1 }
}

// The end before a byte, if that is white space, or else the one behind it.
fn behind(byte: u16, end: usize, next: usize) -> usize
    ensures { result ≡ (if is_white byte then end else next) }
{
    if is_white(byte) { end } else { next }
}

// Behind the last character from a place on that is no white space, or is an escape.
#[tactic(auto, using(crate::proofs::Cuts::kept_past))]
fn kept_end(bytes: &[u8], from: usize) -> usize
    ensures { result ≡ kept_end bytes.now from }
{
    let mut end = from;
    let mut at = from;
    // each step takes at least one byte
    'steps: for _step in 0..bytes.len() {
        if at >= bytes.len() {
            return end;
        }
        let next = over(bytes, at);
        end = behind(byte_at(bytes, at), end, next);
        at = next;
    }
    end
}

// A part without the white space around it.
#[tactic(auto, unfolding(crate::specs::Cutting::bare_part))]
fn bare_part(text: &str) -> &str
    ensures { result.now ≡ bare_part text.now }
{
    let bytes = text.as_bytes();
    let from = run_end(bytes, Class::White, 0);
    piece(text, from, kept_end(bytes, from))
}

fn add_part(alloc: Global, parts: &mut List<Name>, text: &str) -> Result<(), Memory>
    ensures { OnOk result (parts.new ≡ parts.old ++ bare_part text.now ∷ []) }
{
    let part = Name::new(alloc, bare_part(text))?;
    parts.push(part)
}

/// The parts of a text without the white space around them: it is cut at each comma, outside strings and brackets,
/// behind which a string or `url(` stands.
pub fn parts_of(alloc: Global, text: &str) -> Result<List<Name>, Memory>
    ensures { IfOk result (λ parts. parts ≡ parts_of text.now) }
{
    let mut parts = List::new(alloc);
    let mut here = Open::nothing();
    let mut from = 0;
    'bytes: for (at, byte) in text.as_bytes().iter().enumerate() {
        if !is_cut(here, *byte as u16, text.as_bytes(), at + 1) {
            here = here.stepped(*byte as u16);
            continue;
        }
        add_part(alloc, &mut parts, &text[from..at])?;
        from = at + 1;
        here = Open::nothing();
    }
    add_part(alloc, &mut parts, &text[from..])?;
    Ok(parts)
}
