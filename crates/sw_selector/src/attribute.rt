// Where attribute selectors and namespace prefixes end.
ghost use Rattle.std.specs.Prelude.{◌≡◌, ◌<◌, length};
ghost use Rattle.sw_selector.specs.Attributes.{word_end, prefix_end, is_operator_sign, operator_end, value_end, bracket_end, modifier_end, matched_end, named_end, attribute_end};
ghost use Rattle.sw_text_locality.specs.Names.{white, name_end};

use sw_text_scan::{Class, begins_name, byte_at, is_letter, is_quote, run_end, signs, string_end};

/// The place behind white space.
pub fn white(bytes: &[u8], at: usize) -> usize
    ensures { result ≡ white bytes.now at }
{
    run_end(bytes, Class::White, at)
}

/// The place behind a name.
pub fn name_end(bytes: &[u8], at: usize) -> usize
    ensures { result ≡ name_end bytes.now at }
{
    run_end(bytes, Class::Name, at)
}

fn word_end(bytes: &[u8], at: usize) -> usize
    ensures { result ≡ word_end bytes.now at }
{
    if byte_at(bytes, at) == signs::STAR {
        return at + 1;
    }
    if begins_name(bytes, at) {
        return name_end(bytes, at);
    }
    at
}

/// The place behind a namespace prefix, or the same place where none stands there.
#[tactic(auto, unfolding(crate::specs::Attributes::prefix_end))]
pub fn prefix_end(bytes: &[u8], at: usize) -> usize
    ensures { result ≡ prefix_end bytes.now at }
{
    let bar = word_end(bytes, at);
    if byte_at(bytes, bar) == signs::BAR && byte_at(bytes, bar + 1) != signs::EQUALS {
        return bar + 1;
    }
    at
}

fn is_operator_sign(byte: u16) -> bool
    ensures { result ≡ is_operator_sign byte }
{
    byte == signs::TILDE
        || byte == signs::BAR
        || byte == signs::CARET
        || byte == signs::DOLLAR
        || byte == signs::STAR
}

#[tactic(auto, unfolding(crate::specs::Attributes::operator_end))]
fn operator_end(bytes: &[u8], at: usize) -> Option<usize>
    ensures { result ≡ operator_end bytes.now at }
{
    let byte = byte_at(bytes, at);
    if byte == signs::EQUALS {
        return Some(at + 1);
    }
    if is_operator_sign(byte) && byte_at(bytes, at + 1) == signs::EQUALS {
        return Some(at + 2);
    }
    None
}

#[tactic(auto, unfolding(crate::specs::Attributes::value_end))]
fn value_end(bytes: &[u8], at: usize) -> Option<usize>
    ensures { result ≡ value_end bytes.now at }
{
    let byte = byte_at(bytes, at);
    if is_quote(byte) {
        return string_end(bytes, byte as u8, at);
    }
    if begins_name(bytes, at) {
        return Some(name_end(bytes, at));
    }
    None
}

fn bracket_end(bytes: &[u8], at: usize) -> Option<usize>
    ensures { result ≡ bracket_end bytes.now at }
{
    if byte_at(bytes, at) == signs::CLOSE_BRACKET {
        return Some(at + 1);
    }
    None
}

#[tactic(auto, unfolding(crate::specs::Attributes::modifier_end))]
fn modifier_end(bytes: &[u8], at: usize) -> Option<usize>
    ensures { result ≡ modifier_end bytes.now at }
{
    if is_letter(byte_at(bytes, at)) {
        return bracket_end(bytes, white(bytes, at + 1));
    }
    bracket_end(bytes, at)
}

#[tactic(auto, unfolding(crate::specs::Attributes::matched_end))]
fn matched_end(bytes: &[u8], at: usize) -> Option<usize>
    ensures { result ≡ matched_end bytes.now at }
{
    if byte_at(bytes, at) == signs::CLOSE_BRACKET {
        return Some(at + 1);
    }
    let operator = operator_end(bytes, at)?;
    let value = value_end(bytes, white(bytes, operator))?;
    modifier_end(bytes, white(bytes, value))
}

fn named_end(bytes: &[u8], at: usize) -> Option<usize>
    ensures { result ≡ named_end bytes.now at }
{
    if begins_name(bytes, at) {
        return matched_end(bytes, white(bytes, name_end(bytes, at)));
    }
    None
}

/// The place behind the attribute selector that begins with the bracket at a place, if it is one.
#[tactic(auto, unfolding(crate::specs::Attributes::attribute_end))]
pub fn attribute_end(bytes: &[u8], at: usize) -> Option<usize>
    requires { at < length bytes.now }
    ensures { result ≡ attribute_end bytes.now at }
{
    named_end(bytes, prefix_end(bytes, white(bytes, at + 1)))
}
