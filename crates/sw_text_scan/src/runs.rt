// Escapes, names, strings, urls and other runs of characters.
ghost use Rattle.std.specs.Prelude.{◌≡◌, ◌+◌, ◌^◌, ◌≤◌, ◌<◌, length, max, IsTrue, if◌then◌else◌};
ghost use Rattle.sw_text_scan.specs.Runs.{hex_end, white_end, escape_end, text_next, is_word_byte, goes_in_unit, goes_in_url, goes_in_inner_url, next, run_end, starts_at, begins_name};

use crate::bytes::{
    byte_at, ends_loud, is_break, is_digit, is_hex_digit, is_letter, is_name_byte, is_range_byte,
    is_url_byte, is_white, opens_at, starts_plainly,
};
use crate::signs;

/// What a run is made of.
#[derive(Clone, Copy, Debug, PartialEq, Eq)]
pub enum Class {
    White,
    /// White space and commas.
    Commas,
    Digit,
    HexDigit,
    /// ASCII letters, digits and `-`.
    Word,
    Name,
    Unit,
    /// What a string with this quote holds.
    Text(u8),
    /// The same in a sheet, up to a `#{`.
    SheetText(u8),
    /// What stands in a `url(..)` of a sheet that isn't quoted, up to a `#{`.
    Url,
    /// The same inside `#{}`.
    UrlInside,
    /// What follows `u+`.
    Range,
    /// What isn't `\`.
    Plain,
    /// What stands in a line.
    Line,
    /// What a loud comment of a sheet holds up to its `*/` or a `#{`.
    Comment,
    /// What stands in a `url(..)` of plain CSS that isn't quoted.
    CssUrl,
    /// What a comment of plain CSS holds up to its `*/`.
    CssComment,
    /// What a line of a loud comment of a sheet holds up to a `*/` or a `#{`.
    CommentLine,
    /// Spaces and tabs.
    Blank,
    Space,
    Tab,
}

/// A hexadecimal escape has at most so many digits.
pub const MOST_HEX_DIGITS: usize = 6;

/// The place behind a number of hexadecimal digits.
#[tactic(auto, using(crate::proofs::Bounds::hex_step, crate::proofs::Bounds::hex_stop), unfolding(crate::specs::Runs::hex_end))]
fn hex_end(bytes: &[u8], at: usize) -> usize
    ensures { result ≡ hex_end bytes.now at }
{
    let mut place = at;
    let mut left = MOST_HEX_DIGITS;
    'digits: while left > 0 {
        if !is_hex_digit(byte_at(bytes, place)) {
            return place;
        }
        place += 1;
        left -= 1;
    }
    place
}

/// The place behind one white space, if one stands there.
pub fn white_end(bytes: &[u8], at: usize) -> usize
    ensures { result ≡ white_end bytes.now at }
{
    let byte = byte_at(bytes, at);
    if byte == signs::CARRIAGE_RETURN && byte_at(bytes, at + 1) == signs::LINE_FEED {
        return at + 2;
    }
    if is_white(byte) {
        return at + 1;
    }
    at
}

/// The place behind the escape that begins at a place, or that place where none does.
#[tactic(auto, unfolding(crate::specs::Runs::escape_end))]
pub fn escape_end(bytes: &[u8], at: usize) -> usize
    ensures { result ≡ escape_end bytes.now at }
{
    if byte_at(bytes, at) != signs::BACKSLASH {
        return at;
    }
    let next = byte_at(bytes, at + 1);
    if is_hex_digit(next) {
        return white_end(bytes, hex_end(bytes, at + 1));
    }
    if is_break(next) || next == signs::END {
        return at;
    }
    at + 2
}

#[tactic(auto, unfolding(crate::specs::Runs::text_next))]
fn text_next(bytes: &[u8], quote: u8, at: usize) -> usize
    ensures { result ≡ text_next bytes.now quote at }
{
    let byte = byte_at(bytes, at);
    if byte == quote as u16 || is_break(byte) || byte == signs::END {
        return at;
    }
    if byte != signs::BACKSLASH {
        return at + 1;
    }
    let next = byte_at(bytes, at + 1);
    if is_break(next) {
        return white_end(bytes, at + 1);
    }
    if next == signs::END {
        return at + 1;
    }
    escape_end(bytes, at)
}

fn is_word_byte(byte: u16) -> bool
    ensures { result ≡ is_word_byte byte }
{
    is_letter(byte) || is_digit(byte) || byte == signs::MINUS
}

fn goes_in_unit(bytes: &[u8], at: usize) -> bool
    ensures test { result ≡ goes_in_unit bytes.now at }
    ensures room { IsTrue result → at + 1 < 2 ^ 63 }
{
    let byte = byte_at(bytes, at);
    starts_plainly(byte)
        || is_digit(byte)
        || (byte == signs::MINUS && starts_plainly(byte_at(bytes, at + 1)))
}

fn goes_in_url(bytes: &[u8], at: usize) -> bool
    ensures test { result ≡ goes_in_url bytes.now at }
    ensures room { IsTrue result → at + 1 < 2 ^ 63 }
{
    is_url_byte(byte_at(bytes, at)) && !opens_at(bytes, at)
}

fn goes_in_inner_url(bytes: &[u8], at: usize) -> bool
    ensures test { result ≡ goes_in_inner_url bytes.now at }
    ensures room { IsTrue result → at + 1 < 2 ^ 63 }
{
    let byte = byte_at(bytes, at);
    is_url_byte(byte) && byte != signs::CLOSE_BRACE && !opens_at(bytes, at)
}

/// The place behind what a class takes, which takes this byte or an escape at the place.
fn past_escape(bytes: &[u8], passes: bool, at: usize) -> usize
    requires { IsTrue passes → at + 1 < 2 ^ 63 }
    ensures { result ≡ (if passes then at + 1 else escape_end bytes.now at) }
{
    if passes {
        at + 1
    } else {
        escape_end(bytes, at)
    }
}

/// The place behind one byte, if it passes.
fn past(passes: bool, at: usize) -> usize
    requires { IsTrue passes → at + 1 < 2 ^ 63 }
    ensures { result ≡ (if passes then at + 1 else at) }
{
    if passes { at + 1 } else { at }
}

fn comment_next(bytes: &[u8], at: usize) -> usize
    ensures { result ≡ next Class.Comment bytes.now at }
{
    if ends_loud(bytes, at) || opens_at(bytes, at) || byte_at(bytes, at) == signs::END {
        return at;
    }
    at + 1
}

fn css_comment_next(bytes: &[u8], at: usize) -> usize
    ensures { result ≡ next Class.CssComment bytes.now at }
{
    if ends_loud(bytes, at) || byte_at(bytes, at) == signs::END {
        return at;
    }
    at + 1
}

fn comment_line_next(bytes: &[u8], at: usize) -> usize
    ensures { result ≡ next Class.CommentLine bytes.now at }
{
    if is_break(byte_at(bytes, at)) {
        return at;
    }
    comment_next(bytes, at)
}

fn sheet_text_next(bytes: &[u8], quote: u8, at: usize) -> usize
    ensures { result ≡ next (Class.SheetText quote) bytes.now at }
{
    if opens_at(bytes, at) {
        return at;
    }
    text_next(bytes, quote, at)
}

/// The place behind what a class takes at a place, or that place where it takes nothing.
pub fn next_at(bytes: &[u8], class: Class, at: usize) -> usize
    ensures { result ≡ next class bytes.now at }
{
    let byte = byte_at(bytes, at);
    match class {
        Class::White => past(is_white(byte), at),
        Class::Commas => past(is_white(byte) || byte == signs::COMMA, at),
        Class::Digit => past(is_digit(byte), at),
        Class::HexDigit => past(is_hex_digit(byte), at),
        Class::Word => past(is_word_byte(byte), at),
        Class::Name => past_escape(bytes, is_name_byte(byte), at),
        Class::Unit => past_escape(bytes, goes_in_unit(bytes, at), at),
        Class::Text(quote) => text_next(bytes, quote, at),
        Class::SheetText(quote) => sheet_text_next(bytes, quote, at),
        Class::Url => past_escape(bytes, goes_in_url(bytes, at), at),
        Class::UrlInside => past_escape(bytes, goes_in_inner_url(bytes, at), at),
        Class::Range => past(is_range_byte(byte), at),
        Class::Plain => past(byte != signs::BACKSLASH && byte != signs::END, at),
        Class::Line => past(!(is_break(byte) || byte == signs::END), at),
        Class::Comment => comment_next(bytes, at),
        Class::CssUrl => past_escape(bytes, is_url_byte(byte), at),
        Class::CssComment => css_comment_next(bytes, at),
        Class::CommentLine => comment_line_next(bytes, at),
        Class::Blank => past(byte == signs::SPACE || byte == signs::TAB, at),
        Class::Space => past(byte == signs::SPACE, at),
        Class::Tab => past(byte == signs::TAB, at),
    }
}

/// The place behind the longest run from a place on.
#[tactic(auto, using(crate::proofs::Bounds::run_step, crate::proofs::Bounds::run_stop, crate::proofs::Bounds::next_from, crate::proofs::Bounds::next_below, crate::proofs::Bounds::run_below, crate::proofs::Bounds::run_forward))]
pub fn run_end(bytes: &[u8], class: Class, at: usize) -> usize
    ensures end { result ≡ run_end class bytes.now at }
    ensures forward { at ≤ result }
    ensures within { result ≤ max at (length bytes.now) }
{
    let mut place = at;
    let mut next = next_at(bytes, class, place);
    'run: while place < next {
        place = next;
        next = next_at(bytes, class, place);
    }
    place
}

fn starts_at(bytes: &[u8], at: usize) -> bool
    ensures { result ≡ starts_at bytes.now at }
{
    starts_plainly(byte_at(bytes, at)) || at < escape_end(bytes, at)
}

/// Whether a name begins at a place.
#[tactic(auto, unfolding(crate::specs::Runs::begins_name))]
pub fn begins_name(bytes: &[u8], at: usize) -> bool
    ensures { result ≡ begins_name bytes.now at }
{
    if starts_at(bytes, at) {
        return true;
    }
    if byte_at(bytes, at) != signs::MINUS {
        return false;
    }
    starts_at(bytes, at + 1) || byte_at(bytes, at + 1) == signs::MINUS
}
