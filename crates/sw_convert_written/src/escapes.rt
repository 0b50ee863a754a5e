// Escapes that are open at the end of a text.
ghost use Rattle.std.specs.Prelude.{◌≡◌, ◌≤◌, ◌++◌, length, drop, OnOk, None};
ghost use Rattle.sw_convert_written.specs.Escapes.{begun, behind, behind_text, takes_white, ends_unclosed, takes_any, ends_open, break_behind, apart, space_behind};

use sw_text::Memory;
use sw_text_scan::{MOST_HEX_DIGITS, is_hex_digit};

fn begun(byte: u8) -> Option<usize>
    ensures { result ≡ begun byte }
{
    if byte == b'\\' { Some(0) } else { None }
}

/// How many hexadecimal digits stand in the escape that is open behind a byte.
pub fn behind(escape: Option<usize>, byte: u8) -> Option<usize>
    ensures { result ≡ behind escape byte }
{
    match escape {
        None => begun(byte),
        Some(digits) => {
            if is_hex_digit(byte as u16) && digits < MOST_HEX_DIGITS {
                Some(digits + 1)
            } else if digits == 0 {
                None
            } else {
                begun(byte)
            }
        }
    }
}

/// Whether an escape takes a white space.
pub fn takes_white(escape: Option<usize>) -> bool
    ensures { result ≡ takes_white escape }
{
    match escape {
        None => false,
        Some(digits) => 0 < digits,
    }
}

// How many hexadecimal digits stand in the escape that is open behind a text.
fn behind_text(text: &[u8]) -> Option<usize>
    ensures { result ≡ behind_text None text.now }
{
    let mut escape = None;
    'bytes: for byte in text {
        escape = behind(escape, *byte);
    }
    escape
}

/// Whether a white space behind the text would belong to its last escape.
#[tactic(auto, unfolding(crate::specs::Escapes::ends_unclosed))]
pub fn ends_unclosed(text: &[u8]) -> bool
    ensures { result ≡ ends_unclosed text.now }
{
    takes_white(behind_text(text))
}

fn takes_any(escape: Option<usize>) -> bool
    ensures { result ≡ takes_any escape }
{
    match escape {
        None => false,
        Some(digits) => digits == 0,
    }
}

// Whether a `\` at the end of the text would escape what stands behind it.
#[tactic(auto, unfolding(crate::specs::Escapes::ends_open))]
fn ends_open(text: &[u8]) -> bool
    ensures { result ≡ ends_open text.now }
{
    takes_any(behind_text(text))
}

/// Puts the line break that keeps a `\` by itself, at the end of what was written from a place on.
pub fn put_break(out: &mut Vec<u8>, from: usize) -> Result<(), Memory>
    requires { from ≤ length out.old.items }
    ensures { OnOk result (out.new.items ≡ out.old.items ++ break_behind (drop from out.old.items)) }
{
    if ends_open(&out[from..]) {
        out.push(b'\n')?;
    }
    Ok(())
}

/// Puts an empty comment.
pub fn put_apart(out: &mut Vec<u8>) -> Result<(), Memory>
    ensures { OnOk result (out.new.items ≡ out.old.items ++ apart) }
{
    out.extend_from_slice(b"/**/")?;
    Ok(())
}

/// Puts the space behind what was written from a place on.
pub fn put_space(out: &mut Vec<u8>, from: usize) -> Result<(), Memory>
    requires { from ≤ length out.old.items }
    ensures { OnOk result (out.new.items ≡ out.old.items ++ space_behind (drop from out.old.items)) }
{
    if ends_unclosed(&out[from..]) {
        put_apart(out)?;
    }
    out.push(b' ')?;
    Ok(())
}
