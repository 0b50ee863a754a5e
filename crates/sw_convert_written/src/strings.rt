// Strings in quotes.
ghost use Rattle.std.specs.Prelude.{◌≡◌, ◌++◌, ◌<◌, OnOk};
ghost use Rattle.std.specs.Char.{digit_char};
ghost use Rattle.sw_convert_spelling.specs.Strings.{is_coded, hex_of, joins_escape, escape_close, begins_brace, is_escaped, escape, escaped};

use sw_text::Memory;
use sw_text_scan::is_hex_digit;

const DELETE: u8 = 127;

fn is_coded(byte: u8) -> bool
    ensures { result ≡ is_coded byte }
{
    (0 < byte && byte < b' ' && byte != b'\t') || byte == DELETE
}

fn hex_digit(number: u8) -> u8
    requires { number < 16 }
    ensures { result ≡ digit_char number }
{
    if number < 10 {
        b'0' + number
    } else {
        b'a' + (number - 10)
    }
}

fn put_hex(out: &mut Vec<u8>, byte: u8) -> Result<(), Memory>
    ensures { OnOk result (out.new.items ≡ out.old.items ++ hex_of byte) }
{
    if byte >= 16 {
        out.push(hex_digit(byte / 16))?;
    }
    out.push(hex_digit(byte % 16))?;
    Ok(())
}

fn joins_escape(rest: &[u8]) -> bool
    ensures { result ≡ joins_escape rest.now }
{
    match rest {
        [] => false,
        [byte, ..] => is_hex_digit(*byte as u16) || *byte == b' ' || *byte == b'\t',
    }
}

fn put_escape_close(out: &mut Vec<u8>, joins: bool) -> Result<(), Memory>
    ensures { OnOk result (out.new.items ≡ out.old.items ++ escape_close joins) }
{
    if joins {
        out.push(b' ')?;
    }
    Ok(())
}

fn begins_brace(rest: &[u8]) -> bool
    ensures { result ≡ begins_brace rest.now }
{
    match rest {
        [] => false,
        [byte, ..] => *byte == b'{',
    }
}

fn is_escaped(byte: u8, rest: &[u8]) -> bool
    ensures { result ≡ is_escaped byte rest.now }
{
    byte == b'"' || byte == b'\\' || (byte == b'#' && begins_brace(rest))
}

fn put_byte(out: &mut Vec<u8>, byte: u8, rest: &[u8]) -> Result<(), Memory>
    ensures { OnOk result (out.new.items ≡ out.old.items ++ escape byte rest.now) }
{
    if is_coded(byte) {
        out.push(b'\\')?;
        put_hex(out, byte)?;
        return put_escape_close(out, joins_escape(rest));
    }
    if is_escaped(byte, rest) {
        out.push(b'\\')?;
    }
    out.push(byte)?;
    Ok(())
}

/// Puts what a string in quotes holds.
pub fn put_escaped(out: &mut Vec<u8>, text: &[u8]) -> Result<(), Memory>
    ensures { OnOk result (out.new.items ≡ out.old.items ++ escaped text.now) }
{
    'bytes: for i in 0..text.len() {
        put_byte(out, text[i], &text[i + 1..])?;
    }
    Ok(())
}
