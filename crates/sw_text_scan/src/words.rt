// Numbers with their units, unicode ranges and urls.
ghost use Rattle.std.specs.Prelude.{◌≡◌, ◌+◌, ◌≤◌, ◌<◌, length, IsTrue};
ghost use Rattle.sw_text_scan.specs.Words.{fraction_end, is_exponent, is_plus_or_minus, exponent_end, unit_end, begins_number, unit_start, is_u, is_r, is_l, begins_range, begins_url, url_text_end, url_close};

use crate::bytes::{byte_at, is_digit, is_range_byte, starts_plainly};
use crate::runs::{Class, run_end};
use crate::signs;

/// The place behind a `.` and digits, if they stand there.
fn fraction_end(bytes: &[u8], at: usize) -> usize
    requires { at ≤ length bytes.now }
    ensures end { result ≡ fraction_end bytes.now at }
    ensures within { result ≤ length bytes.now }
{
    if byte_at(bytes, at) == signs::DOT && is_digit(byte_at(bytes, at + 1)) {
        return run_end(bytes, Class::Digit, at + 1);
    }
    at
}

fn is_exponent(byte: u16) -> bool
    ensures { result ≡ is_exponent byte }
{
    byte == b'e' as u16 || byte == b'E' as u16
}

fn is_plus_or_minus(byte: u16) -> bool
    ensures { result ≡ is_plus_or_minus byte }
{
    byte == signs::PLUS || byte == signs::MINUS
}

/// The place behind an `e`, a sign and digits, if they stand there.
fn exponent_end(bytes: &[u8], at: usize) -> usize
    requires { at ≤ length bytes.now }
    ensures end { result ≡ exponent_end bytes.now at }
    ensures within { result ≤ length bytes.now }
{
    if !is_exponent(byte_at(bytes, at)) {
        return at;
    }
    let next = byte_at(bytes, at + 1);
    if is_digit(next) {
        return run_end(bytes, Class::Digit, at + 1);
    }
    if is_plus_or_minus(next) && is_digit(byte_at(bytes, at + 2)) {
        return run_end(bytes, Class::Digit, at + 2);
    }
    at
}

/// The place behind a unit, if one stands there.
pub fn unit_end(bytes: &[u8], at: usize) -> usize
    requires { at ≤ length bytes.now }
    ensures { result ≡ unit_end bytes.now at }
{
    let byte = byte_at(bytes, at);
    if byte == signs::PERCENT {
        return at + 1;
    }
    if starts_plainly(byte) {
        return run_end(bytes, Class::Unit, at);
    }
    at
}

/// Whether a number begins at a place.
pub fn begins_number(bytes: &[u8], at: usize) -> bool
    requires { at < length bytes.now }
    ensures { result ≡ begins_number bytes.now at }
{
    let byte = byte_at(bytes, at);
    is_digit(byte) || (byte == signs::DOT && is_digit(byte_at(bytes, at + 1)))
}

/// The place behind a number without its unit.
pub fn unit_start(bytes: &[u8], at: usize) -> usize
    requires { at ≤ length bytes.now }
    ensures start { result ≡ unit_start bytes.now at }
    ensures within { result ≤ length bytes.now }
{
    exponent_end(bytes, fraction_end(bytes, run_end(bytes, Class::Digit, at)))
}

fn is_u(byte: u16) -> bool
    ensures { result ≡ is_u byte }
{
    byte == b'u' as u16 || byte == b'U' as u16
}

fn is_r(byte: u16) -> bool
    ensures { result ≡ is_r byte }
{
    byte == b'r' as u16 || byte == b'R' as u16
}

fn is_l(byte: u16) -> bool
    ensures { result ≡ is_l byte }
{
    byte == b'l' as u16 || byte == b'L' as u16
}

/// Whether `u+` and what may follow it stand at a place.
pub fn begins_range(bytes: &[u8], at: usize) -> bool
    requires { at < length bytes.now }
    ensures test { result ≡ begins_range bytes.now at }
    ensures room { IsTrue result → at + 2 < length bytes.now }
{
    if !is_u(byte_at(bytes, at)) {
        return false;
    }
    byte_at(bytes, at + 1) == signs::PLUS && is_range_byte(byte_at(bytes, at + 2))
}

/// Whether `url(` stands at a place, in any case.
pub fn begins_url(bytes: &[u8], at: usize) -> bool
    requires { at < length bytes.now }
    ensures test { result ≡ begins_url bytes.now at }
    ensures room { IsTrue result → at + 4 ≤ length bytes.now }
{
    if !is_u(byte_at(bytes, at)) || !is_r(byte_at(bytes, at + 1)) {
        return false;
    }
    is_l(byte_at(bytes, at + 2)) && byte_at(bytes, at + 3) == signs::OPEN_PAREN
}

/// The place behind the first characters in a `url(`.
#[tactic(auto, unfolding(crate::specs::Words::url_text_end))]
pub fn url_text_end(bytes: &[u8], class: Class, at: usize) -> usize
    requires { at + 4 ≤ length bytes.now }
    ensures end { result ≡ url_text_end bytes.now class at }
    ensures within { result ≤ length bytes.now }
{
    run_end(bytes, class, run_end(bytes, Class::White, at + 4))
}

/// Where the `)` of a `url(` stands, if what is between is no expression and has no `#{`.
pub fn url_close(bytes: &[u8], class: Class, at: usize) -> usize
    requires { at + 4 ≤ length bytes.now }
    ensures { result ≡ url_close bytes.now class at }
{
    run_end(bytes, Class::White, url_text_end(bytes, class, at))
}
