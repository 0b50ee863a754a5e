// The bytes of a text, and the characters that matter to names, white space, strings and urls.
ghost use Rattle.std.specs.Prelude.{◌≡◌, ◌≢◌, ◌<◌, ◌≤◌, ◌+◌, ◌^◌, ◌&&◌, nat_le, length, IsTrue};
ghost use Rattle.sw_text_scan.specs.Bytes.{byte, is_break, is_white, is_digit, is_letter, is_hex_digit, is_wide, starts_plainly, is_name_byte, is_quote, is_late_sign, is_url_byte, is_range_byte, continues, opens_at, begins_silent, begins_loud, ends_loud};

use crate::signs;
use crate::signs::END;

/// The byte at a place, or the number of the end past it.
#[tactic(auto, unfolding(crate::specs::Bytes::byte))]
pub fn byte_at(bytes: &[u8], at: usize) -> u16
    ensures byte { result ≡ byte bytes.now at }
    ensures within { result ≢ END → at < length bytes.now }
    ensures room { result ≢ END → at + 1 < 2 ^ 63 }
{
    match bytes.get(at) {
        None => signs::END,
        Some(byte) => *byte as u16,
    }
}

/// A line feed, a carriage return or a form feed (CSS Syntax Level 3, "Preprocessing the input stream").
pub fn is_break(byte: u16) -> bool
    ensures { result ≡ is_break byte }
{
    byte == signs::LINE_FEED || byte == signs::CARRIAGE_RETURN || byte == signs::FORM_FEED
}

/// Space, tab and line breaks.
pub fn is_white(byte: u16) -> bool
    ensures { result ≡ is_white byte }
{
    byte == signs::SPACE || byte == signs::TAB || is_break(byte)
}

fn is_between(byte: u16, least: u8, most: u8) -> bool
    ensures { result ≡ (nat_le least byte && nat_le byte most) }
{
    least as u16 <= byte && byte <= most as u16
}

/// An ASCII digit, from `0` to `9`.
pub fn is_digit(byte: u16) -> bool
    ensures { result ≡ is_digit byte }
{
    is_between(byte, b'0', b'9')
}

/// An ASCII letter.
pub fn is_letter(byte: u16) -> bool
    ensures { result ≡ is_letter byte }
{
    is_between(byte, b'A', b'Z') || is_between(byte, b'a', b'z')
}

/// An ASCII digit, or a letter from `A` to `F` in either case.
pub fn is_hex_digit(byte: u16) -> bool
    ensures { result ≡ is_hex_digit byte }
{
    is_digit(byte) || is_between(byte, b'A', b'F') || is_between(byte, b'a', b'f')
}

/// A byte of a character from U+0080 on.
pub fn is_wide(byte: u16) -> bool
    ensures { result ≡ is_wide byte }
{
    signs::FIRST_WIDE <= byte && byte < signs::END
}

/// What a unit may begin with.
pub fn starts_plainly(byte: u16) -> bool
    ensures { result ≡ starts_plainly byte }
{
    is_letter(byte) || byte == signs::UNDERSCORE || is_wide(byte)
}

/// A name character that is no escape.
pub fn is_name_byte(byte: u16) -> bool
    ensures { result ≡ is_name_byte byte }
{
    starts_plainly(byte) || is_digit(byte) || byte == signs::MINUS
}

/// What a quoted string may begin with: `"` or `'`.
pub fn is_quote(byte: u16) -> bool
    ensures { result ≡ is_quote byte }
{
    byte == signs::QUOTE || byte == signs::APOSTROPHE
}

fn is_late_sign(byte: u16) -> bool
    ensures { result ≡ is_late_sign byte }
{
    is_between(byte, b'*', b'~') && byte != signs::BACKSLASH
}

/// What may stand in a `url(..)` that isn't quoted; `#{` and escapes apart.
pub fn is_url_byte(byte: u16) -> bool
    ensures { result ≡ is_url_byte byte }
{
    byte == signs::EXCLAMATION
        || byte == signs::HASH
        || byte == signs::PERCENT
        || byte == signs::AMPERSAND
        || is_late_sign(byte)
        || is_wide(byte)
}

/// What may follow `u+`.
pub fn is_range_byte(byte: u16) -> bool
    ensures { result ≡ is_range_byte byte }
{
    is_hex_digit(byte) || byte == signs::QUESTION || byte == signs::MINUS
}

/// A byte that goes on with a character.
pub fn continues(byte: u16) -> bool
    ensures { result ≡ continues byte }
{
    signs::FIRST_WIDE <= byte && byte < signs::FIRST_LEAD
}

/// Whether `#{` stands at a place.
pub fn opens_at(bytes: &[u8], at: usize) -> bool
    ensures test { result ≡ opens_at bytes.now at }
    ensures room { IsTrue result → at + 2 ≤ length bytes.now }
{
    byte_at(bytes, at) == signs::HASH && byte_at(bytes, at + 1) == signs::OPEN_BRACE
}

/// Whether `//` stands at a place.
pub fn begins_silent(bytes: &[u8], at: usize) -> bool
    ensures test { result ≡ begins_silent bytes.now at }
    ensures room { IsTrue result → at + 2 ≤ length bytes.now }
{
    byte_at(bytes, at) == signs::SLASH && byte_at(bytes, at + 1) == signs::SLASH
}

/// Whether `/*` stands at a place.
pub fn begins_loud(bytes: &[u8], at: usize) -> bool
    ensures test { result ≡ begins_loud bytes.now at }
    ensures room { IsTrue result → at + 2 ≤ length bytes.now }
{
    byte_at(bytes, at) == signs::SLASH && byte_at(bytes, at + 1) == signs::STAR
}

/// Whether `*/` stands at a place.
pub fn ends_loud(bytes: &[u8], at: usize) -> bool
    ensures test { result ≡ ends_loud bytes.now at }
    ensures room { IsTrue result → at + 2 ≤ length bytes.now }
{
    byte_at(bytes, at) == signs::STAR && byte_at(bytes, at + 1) == signs::SLASH
}
