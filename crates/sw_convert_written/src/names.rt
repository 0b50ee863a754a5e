// Names of members and numbers.
ghost use Rattle.std.specs.Prelude.{◌≡◌, ◌++◌, OnOk};
ghost use Rattle.sw_text_scan.specs.Words.{is_exponent};
ghost use Rattle.sw_convert_spelling.specs.Numerals.{begins_exponent, value_text};
ghost use Rattle.sw_convert_written.specs.Names.{begins_no_name, name_text, dollar_name, number_text};

use sw_fixed::Fixed;
use sw_text::{Memory, Name};
use sw_text_scan::is_digit;
use sw_tree::Number;

fn begins_no_name(rest: &[u8]) -> bool
    ensures { result ≡ begins_no_name rest.now }
{
    match rest {
        [] => true,
        [byte, ..] => is_digit(*byte as u16),
    }
}

fn put_bytes(out: &mut Vec<u8>, name: &[u8]) -> Result<(), Memory>
    ensures { OnOk result (out.new.items ≡ out.old.items ++ name_text name.now) }
{
    match name {
        [] => Ok(()),
        [first, rest @ ..] => {
            let dash = *first == b'-' && begins_no_name(rest);
            out.push(if dash { b'_' } else { *first })?;
            out.extend_from_slice(rest)?;
            Ok(())
        }
    }
}

/// Puts a name that is kept with `-` for each `_`, so that it is a name.
pub fn put_name(out: &mut Vec<u8>, name: &Name) -> Result<(), Memory>
    ensures { OnOk result (out.new.items ≡ out.old.items ++ name_text name.now) }
{
    put_bytes(out, name.as_str().as_bytes())
}

/// Puts the name of a variable.
pub fn put_dollar_name(out: &mut Vec<u8>, name: &Name) -> Result<(), Memory>
    ensures { OnOk result (out.new.items ≡ out.old.items ++ dollar_name name.now) }
{
    out.push(b'$')?;
    put_name(out, name)
}

/// Puts a text as it is.
pub fn put_text(out: &mut Vec<u8>, text: &Name) -> Result<(), Memory>
    ensures { OnOk result (out.new.items ≡ out.old.items ++ text.now) }
{
    out.extend_from_slice(text.as_str().as_bytes())?;
    Ok(())
}

fn is_exponent(byte: u8) -> bool
    ensures { result ≡ is_exponent byte }
{
    byte == b'e' || byte == b'E'
}

fn begins_exponent(unit: &[u8]) -> bool
    ensures { result ≡ begins_exponent unit.now }
{
    match unit {
        [first, next, ..] => is_exponent(*first) && is_digit(*next as u16),
        _ => false,
    }
}

// A value beyond the bound of numbers is any number beyond it.
fn put_value(out: &mut Vec<u8>, value: Option<Fixed>, unit: &[u8]) -> Result<(), Memory>
    ensures { OnOk result (out.new.items ≡ out.old.items ++ value_text value unit.now) }
{
    match value {
        None => out.extend_from_slice(b"1e28")?,
        Some(value) => {
            value.write_into(out)?;
            if begins_exponent(unit) {
                out.extend_from_slice(b"e0")?;
            }
        }
    }
    Ok(())
}

/// Puts a number with its unit.
pub fn put_number(out: &mut Vec<u8>, number: &Number) -> Result<(), Memory>
    ensures { OnOk result (out.new.items ≡ out.old.items ++ number_text number.now) }
{
    let unit = number.unit.as_str().as_bytes();
    put_value(out, number.value, unit)?;
    out.extend_from_slice(unit)?;
    Ok(())
}
