// How values that hold no others are written in CSS.
ghost use Rattle.std.specs.Prelude.{◌≡◌, ◌++◌, IfOk, OnOk, None, codes, chars, encode_utf8_all};
ghost use Rattle.std.specs.Str.{IsAscii};
ghost use Rattle.std.specs.String.{string_bytes};
ghost use Rattle.sw_values.specs.Texts.{names_text, under_text, plain_text, number_text, one_at_most, plain_is_css, number_is_css, truth_text};
ghost use Rattle.sw_values.specs.Strings.{string_text, string_chars};
ghost use Rattle.sw_values.specs.Written.{appended};
ghost use Rattle.sw_colour.specs.Text.{css_text as colour_text};
ghost use Rattle.sw_fixed.specs.Text.{text_of as fixed_text};

use crate::strings::{folded, quoted};
use crate::written::Written;
use std::alloc::{AllocError, Global};
use std::str;
use sw_colour::Colour;
use sw_fixed::Fixed;
use sw_text::Memory;
use sw_units::{Number, Slash, UnitNames};

// ---- numbers

// Appends bytes of ASCII.
fn push_ascii(out: &mut String, bytes: &[u8]) -> Result<(), Memory>
    requires { IsAscii bytes.now }
    ensures { OnOk result (string_bytes out.new ≡ string_bytes out.old ++ bytes.now) }
{
    match str::from_utf8(bytes) {
        Ok(text) => {
            out.push_str(text)?;
            Ok(())
        }
        Err(_) => unreachable!(),
    }
}

fn write_fixed(alloc: Global, out: &mut String, value: Fixed) -> Result<(), Memory>
    ensures { OnOk result (string_bytes out.new ≡ string_bytes out.old ++ fixed_text value) }
{
    // It is in its range, so it has few digits.
    let _mantissa = value.mantissa();
    let mut text = Vec::new(alloc);
    value.write_into(&mut text)?;
    push_ascii(out, text.as_slice())
}

fn write_names(out: &mut String, names: &UnitNames) -> Result<(), Memory>
    ensures { OnOk result (string_bytes out.new ≡ string_bytes out.old ++ names_text names.now) }
{
    match names {
        UnitNames::Empty => Ok(()),
        UnitNames::One(first) => {
            out.push_str(first.as_str())?;
            Ok(())
        }
        UnitNames::Two(first, second) => {
            out.push_str(first.as_str())?;
            out.push_str("*")?;
            out.push_str(second.as_str())?;
            Ok(())
        }
    }
}

fn write_under(out: &mut String, names: &UnitNames) -> Result<(), Memory>
    ensures { OnOk result (string_bytes out.new ≡ string_bytes out.old ++ under_text names.now) }
{
    match names {
        UnitNames::Empty => Ok(()),
        UnitNames::One(_) => {
            out.push_str("/")?;
            write_names(out, names)
        }
        UnitNames::Two(_, _) => {
            out.push_str("/")?;
            write_names(out, names)
        }
    }
}

fn write_plain(alloc: Global, out: &mut String, number: &Number) -> Result<(), Memory>
    ensures { OnOk result (string_bytes out.new ≡ string_bytes out.old ++ plain_text number.now) }
{
    write_fixed(alloc, out, number.value)?;
    write_names(out, &number.units.over)?;
    write_under(out, &number.units.under)
}

fn push_plain(alloc: Global, out: &mut Written, number: &Number) -> Result<(), Memory>
    ensures { OnOk result (out.new ≡ appended out.old (plain_text number.now)) }
{
    let mut text = String::new(alloc);
    write_plain(alloc, &mut text, number)?;
    out.push(text.as_str())
}

#[cycle(numbers)]
#[tactic(auto, using(crate::proofs::Appending::stays_long), unfolding(crate::specs::Texts::number_text))]
pub(crate) fn write_number(
    alloc: Global,
    out: &mut Written,
    levels: u16,
    number: &Number,
) -> Result<(), Memory>
    ensures { OnOk result (out.new ≡ appended out.old (number_text levels number.now)) }
{
    if out.is_long() {
        return Ok(());
    }
    if levels == 0 {
        return push_plain(alloc, out, number);
    }
    match &number.slash {
        Slash::Plain => push_plain(alloc, out, number),
        Slash::Sides(sides) => write_sides(alloc, out, levels - 1, sides.get()),
    }
}

#[cycle(numbers)]
#[tactic(auto, using(crate::proofs::Appending::joined_three))]
fn write_sides(
    alloc: Global,
    out: &mut Written,
    levels: u16,
    sides: &(Number, Number),
) -> Result<(), Memory>
    ensures { OnOk result (out.new
        ≡ appended out.old (number_text levels sides.now.0 ++ codes "/" ++ number_text levels sides.now.1)) }
{
    write_number(alloc, out, levels, &sides.0)?;
    out.push("/")?;
    write_number(alloc, out, levels, &sides.1)
}

fn one_at_most(names: &UnitNames) -> bool
    ensures { result ≡ one_at_most names.now }
{
    match names {
        UnitNames::Empty => true,
        UnitNames::One(_) => true,
        UnitNames::Two(_, _) => false,
    }
}

fn plain_is_css(number: &Number) -> bool
    ensures { result ≡ plain_is_css number.now }
{
    one_at_most(&number.units.over) && number.units.under.is_empty()
}

#[tactic(auto, unfolding(crate::specs::Texts::number_is_css))]
pub(crate) fn number_is_css(levels: u16, number: &Number) -> bool
    ensures { result ≡ number_is_css levels number.now }
{
    if levels == 0 {
        return plain_is_css(number);
    }
    match &number.slash {
        Slash::Plain => plain_is_css(number),
        Slash::Sides(sides) => {
            let sides = sides.get();
            number_is_css(levels - 1, &sides.0) && number_is_css(levels - 1, &sides.1)
        }
    }
}

// ---- strings and colours

// A string as CSS writes it.
#[tactic(auto, unfolding(crate::specs::Strings::string_text))]
fn string_text(alloc: Global, text: &str, is_quoted: bool) -> Result<String, AllocError>
    ensures { IfOk result (λ out. string_bytes out ≡ string_text text.now is_quoted) }
{
    let chars = chars_of(alloc, text)?;
    let out = string_chars(alloc, chars.as_slice(), is_quoted)?;
    text_of(alloc, out.as_slice())
}

// The characters of a text.
fn chars_of(alloc: Global, text: &str) -> Result<Vec<char>, AllocError>
    ensures { IfOk result (λ out. out.items ≡ chars text.now) }
{
    text.chars().collect(alloc)
}

fn string_chars(alloc: Global, chars: &[char], is_quoted: bool) -> Result<Vec<char>, AllocError>
    ensures { IfOk result (λ out. out.items ≡ string_chars chars.now is_quoted) }
{
    if is_quoted {
        quoted(alloc, chars)
    } else {
        folded(alloc, chars)
    }
}

// The text of these characters.
fn text_of(alloc: Global, chars: &[char]) -> Result<String, AllocError>
    ensures { IfOk result (λ out. string_bytes out ≡ encode_utf8_all chars.now) }
{
    let mut out = String::new(alloc);
    for c in chars {
        out.push(*c)?;
    }
    Ok(out)
}

pub(crate) fn write_string(
    alloc: Global,
    out: &mut Written,
    text: &str,
    is_quoted: bool,
) -> Result<(), Memory>
    ensures { OnOk result (out.new ≡ appended out.old (string_text text.now is_quoted)) }
{
    let written = string_text(alloc, text, is_quoted)?;
    out.push(written.as_str())
}

// Appends the text of a colour that isn't spelt.
fn push_computed(alloc: Global, out: &mut String, colour: &Colour) -> Result<(), Memory>
    requires { colour.now.spelt ≡ None }
    ensures { OnOk result (string_bytes out.new ≡ string_bytes out.old ++ colour_text colour.now) }
{
    // Each is in its range, so it has few digits.
    let _red = colour.red();
    let _green = colour.green();
    let _blue = colour.blue();
    let _alpha = colour.alpha().mantissa();
    let mut text = Vec::new(alloc);
    colour.write_into(&mut text)?;
    push_ascii(out, text.as_slice())
}

fn colour_text(alloc: Global, colour: &Colour) -> Result<String, Memory>
    ensures { IfOk result (λ out. string_bytes out ≡ colour_text colour.now) }
{
    let mut out = String::new(alloc);
    match colour.spelt() {
        Some(text) => out.push_str(text.as_str())?,
        None => push_computed(alloc, &mut out, colour)?,
    }
    Ok(out)
}

pub(crate) fn write_colour(alloc: Global, out: &mut Written, colour: &Colour) -> Result<(), Memory>
    ensures { OnOk result (out.new ≡ appended out.old (colour_text colour.now)) }
{
    let text = colour_text(alloc, colour)?;
    out.push(text.as_str())
}

fn truth_text(truth: bool) -> &'static str
    ensures { result.now ≡ truth_text truth }
{
    if truth { "true" } else { "false" }
}

pub(crate) fn write_truth(out: &mut Written, truth: bool) -> Result<(), Memory>
    ensures { OnOk result (out.new ≡ appended out.old (truth_text truth)) }
{
    out.push(truth_text(truth))
}
