// Arguments that are for CSS, and what is written for channels.
ghost use Rattle.std.specs.Prelude.{◌≡◌, ◌++◌, ◌∷◌, ◌||◌, [], nat_eq, IfOk, OnOk};
ghost use Rattle.std.specs.List.{list_any, starts_with as begins_with};
ghost use Rattle.sw_values.specs.declared.plain.Plain.TheVariants as P;
ghost use Rattle.sw_units.specs.declared.number.Slash.{out-Slash};
ghost use Rattle.sw_fn_call.specs.Answers.{count as count_of};
ghost use Rattle.sw_builtins.specs.Written.{sides_by, begins_special as begins_special_text, special_behind_slash as special_in, has_slash as has_slash_in, is_special as is_special_value, is_special_item as is_special_of_list, has_special as has_special_text, is_slashed as is_slashed_text, is_spaced as is_spaced_list, last_parts, item_parts, channel_parts as channel_parts_of, colour_parts as colour_parts_of};

use std::alloc::Global;
use sw_fn_call::count;
use sw_text::{List, Memory};
use sw_units::{Number, Slash};
use sw_values::{Node, Separator, Value};

const SLASH: u8 = b'/';

// ---- special text

fn starts_with(text: &[u8], beginning: &[u8]) -> bool
    ensures { result ≡ begins_with nat_eq text.now beginning.now }
{
    text.starts_with(beginning)
}

fn begins_special(text: &[u8]) -> bool
    ensures { result ≡ begins_special_text text.now }
{
    starts_with(text, b"var(")
        || starts_with(text, b"calc(")
        || starts_with(text, b"env(")
        || starts_with(text, b"min(")
        || starts_with(text, b"max(")
        || starts_with(text, b"clamp(")
}

fn special_behind_slash(text: &[u8]) -> bool
    ensures { result ≡ special_in text.now }
{
    match text {
        [] => false,
        [byte, rest @ ..] => {
            if *byte == SLASH && begins_special(rest) {
                return true;
            }
            special_behind_slash(rest)
        }
    }
}

fn has_slash(text: &[u8]) -> bool
    ensures { result ≡ has_slash_in text.now }
{
    text.contains(&SLASH)
}

/// Whether a value is an unquoted string of special text.
#[tactic(auto, unfolding(crate::specs::Written::is_special))]
pub(crate) fn is_special(value: &Value) -> bool
    ensures { result ≡ is_special_value value.now }
{
    match value.node() {
        Node::Number(_) => false,
        Node::Text { text, quoted } => !*quoted && begins_special(text.as_str().as_bytes()),
        Node::Colour(_) => false,
        Node::List { .. } => false,
        Node::Map(_) => false,
        Node::Bool(_) => false,
        Node::Null => false,
        Node::Args { .. } => false,
    }
}

fn is_special_part(text: &[u8]) -> bool
    ensures { result ≡ (begins_special_text text.now || special_in text.now) }
{
    begins_special(text) || special_behind_slash(text)
}

#[tactic(auto, unfolding(crate::specs::Written::is_special_item))]
fn is_special_item(value: &Value) -> bool
    ensures { result ≡ is_special_of_list value.now }
{
    match value.node() {
        Node::Number(_) => false,
        Node::Text { text, quoted } => !*quoted && is_special_part(text.as_str().as_bytes()),
        Node::Colour(_) => false,
        Node::List { .. } => false,
        Node::Map(_) => false,
        Node::Bool(_) => false,
        Node::Null => false,
        Node::Args { .. } => false,
    }
}

fn has_special_item(items: &[Value]) -> bool
    ensures { result ≡ list_any is_special_of_list items.now }
{
    'items: for at in 0..items.len() {
        if is_special_item(&items[at]) {
            return true;
        }
    }
    false
}

/// Whether a value is such text, or a list with an item of it.
#[tactic(auto, unfolding(crate::specs::Written::has_special))]
pub(crate) fn has_special(value: &Value) -> bool
    ensures { result ≡ has_special_text value.now }
{
    match value.node() {
        Node::Number(_) => false,
        Node::Text { text, quoted } => !*quoted && begins_special(text.as_str().as_bytes()),
        Node::Colour(_) => false,
        Node::List { items, .. } => has_special_item(items.get().as_slice()),
        Node::Map(_) => false,
        Node::Bool(_) => false,
        Node::Null => false,
        Node::Args { .. } => false,
    }
}

// ---- what is written for channels

#[tactic(auto, unfolding(crate::specs::Written::is_slashed))]
fn is_slashed(value: &Value) -> bool
    ensures { result ≡ is_slashed_text value.now }
{
    match value.node() {
        Node::Number(_) => false,
        Node::Text { text, quoted } => !*quoted && has_slash(text.as_str().as_bytes()),
        Node::Colour(_) => false,
        Node::List { .. } => false,
        Node::Map(_) => false,
        Node::Bool(_) => false,
        Node::Null => false,
        Node::Args { .. } => false,
    }
}

/// The list of one value.
pub(crate) fn alone(alloc: Global, value: &Value) -> Result<List<Value>, Memory>
    ensures { IfOk result (λ parts. parts ≡ value.now ∷ []) }
{
    let mut parts = List::new(alloc);
    parts.push(value.share()?)?;
    Ok(parts)
}

/// Puts one more owner of a value behind others.
pub(crate) fn push_shared(parts: &mut List<Value>, value: &Value) -> Result<(), Memory>
    ensures { OnOk result (parts.new ≡ parts.old ++ value.now ∷ []) }
{
    parts.push(value.share()?)
}

fn number_value(number: &Number) -> Result<Value, Memory>
    ensures { IfOk result (λ value. value ≡ P.Number number.now) }
{
    match Value::of(Node::Number(number.share()?)) {
        Ok(value) => Ok(value),
        Err(_) => Err(Memory),
    }
}

fn push_number(parts: &mut List<Value>, number: &Number) -> Result<(), Memory>
    ensures { OnOk result (parts.new ≡ parts.old ++ P.Number number.now ∷ []) }
{
    match number_value(number) {
        Ok(value) => parts.push(value),
        Err(_) => Err(Memory),
    }
}

// The two sides of a quotient that keeps them, or the number itself.
fn push_sides(parts: &mut List<Value>, number: &Number) -> Result<(), Memory>
    ensures { OnOk result (parts.new ≡ parts.old ++ sides_by number.now (out-Slash number.now.slash)) }
{
    match &number.slash {
        Slash::Plain => push_number(parts, number),
        Slash::Sides(sides) => {
            let sides = sides.get();
            push_number(parts, &sides.0)?;
            push_number(parts, &sides.1)
        }
    }
}

#[tactic(auto, unfolding(crate::specs::Written::last_parts))]
fn push_last(parts: &mut List<Value>, value: &Value) -> Result<(), Memory>
    ensures { OnOk result (parts.new ≡ parts.old ++ last_parts value.now) }
{
    match value.node() {
        Node::Number(number) => push_sides(parts, number),
        Node::Text { .. } => push_shared(parts, value),
        Node::Colour(_) => push_shared(parts, value),
        Node::List { .. } => push_shared(parts, value),
        Node::Map(_) => push_shared(parts, value),
        Node::Bool(_) => push_shared(parts, value),
        Node::Null => push_shared(parts, value),
        Node::Args { .. } => push_shared(parts, value),
    }
}

fn three_parts(
    alloc: Global,
    first: &Value,
    second: &Value,
    third: &Value,
) -> Result<List<Value>, Memory>
    ensures { IfOk result (λ parts. parts ≡ first.now ∷ second.now ∷ last_parts third.now) }
{
    let mut parts = List::new(alloc);
    push_shared(&mut parts, first)?;
    push_shared(&mut parts, second)?;
    push_last(&mut parts, third)?;
    Ok(parts)
}

fn item_parts(alloc: Global, whole: &Value, items: &[Value]) -> Result<List<Value>, Memory>
    ensures { IfOk result (λ parts. parts ≡ item_parts whole.now items.now) }
{
    match items {
        [first, second, third] => {
            if is_slashed(third) {
                return alone(alloc, whole);
            }
            three_parts(alloc, first, second, third)
        }
        _ => alone(alloc, whole),
    }
}

fn is_spaced(separator: Separator) -> bool
    ensures { result ≡ is_spaced_list separator }
{
    match separator {
        Separator::Undecided => false,
        Separator::Space => true,
        Separator::Comma => false,
        Separator::Slash => false,
    }
}

/// The items of a space list of three without brackets, with the sides of the last one; else the value itself.
#[tactic(auto, unfolding(crate::specs::Written::channel_parts))]
pub(crate) fn channel_parts(alloc: Global, value: &Value) -> Result<List<Value>, Memory>
    ensures { IfOk result (λ parts. parts ≡ channel_parts_of value.now) }
{
    match value.node() {
        Node::List {
            items,
            separator,
            bracketed,
        } => {
            if is_spaced(*separator) && !*bracketed {
                return item_parts(alloc, value, items.get().as_slice());
            }
            alone(alloc, value)
        }
        Node::Number(_) => alone(alloc, value),
        Node::Text { .. } => alone(alloc, value),
        Node::Colour(_) => alone(alloc, value),
        Node::Map(_) => alone(alloc, value),
        Node::Bool(_) => alone(alloc, value),
        Node::Null => alone(alloc, value),
        Node::Args { .. } => alone(alloc, value),
    }
}

fn three_counts(alloc: Global, red: u8, green: u8, blue: u8) -> Result<List<Value>, Memory>
    ensures { IfOk result (λ parts. parts ≡ count_of red ∷ count_of green ∷ count_of blue ∷ []) }
{
    let mut parts = List::new(alloc);
    parts.push(count(red as usize))?;
    parts.push(count(green as usize))?;
    parts.push(count(blue as usize))?;
    Ok(parts)
}

/// The channels of a colour, or the value itself.
#[tactic(auto, unfolding(crate::specs::Written::colour_parts))]
pub(crate) fn colour_parts(alloc: Global, value: &Value) -> Result<List<Value>, Memory>
    ensures { IfOk result (λ parts. parts ≡ colour_parts_of value.now) }
{
    match value.node() {
        Node::Colour(colour) => { three_counts(alloc, colour.red(), colour.green(), colour.blue()) }
        Node::Number(_) => alone(alloc, value),
        Node::Text { .. } => alone(alloc, value),
        Node::List { .. } => alone(alloc, value),
        Node::Map(_) => alone(alloc, value),
        Node::Bool(_) => alone(alloc, value),
        Node::Null => alone(alloc, value),
        Node::Args { .. } => alone(alloc, value),
    }
}
