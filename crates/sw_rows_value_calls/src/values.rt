// Calls on values: `css 1/2`, `plain_css "a"`, `inspect (a: b)`, `equal 1in ; 96px`, `same a ; "a"`, `truth null`,
// `weight (a b)`, `nesting (a b)`, `items (a: b)`, `get (a: b) ; a`, `put (a: b) ; a ; c`, and on a list or map itself
// `push (a, b) ; c`, `set (a: b) ; a ; c`.
use crate::reader::values_of;
use std::alloc::Global;
use std::fmt::{Debug, Display};
use sw_rows_files::{Refusal, TextWriter, answer_of};
use sw_values::{Node, Pairs, Separator, Value};

/// How many brackets of a row stand in one another at most.
pub const DEPTH: u32 = 100;

/// What a call on one, two or three values gives; a fault by name. `NoCall` for another name or number of values, or
/// values that can't be read; `Memory` exactly where none was found.
pub fn answer(alloc: Global, name: &str, text: &str) -> Result<String, Refusal> {
    match values_of(alloc, text)?.as_slice() {
        [one] => one_call(alloc, name, one),
        [one, other] => two_call(alloc, name, one, other),
        [map, key, value] => three_call(alloc, name, map, key, value),
        _ => Err(Refusal::NoCall),
    }
}

fn three_call(
    alloc: Global,
    name: &str,
    map: &Value,
    key: &Value,
    value: &Value,
) -> Result<String, Refusal> {
    match name {
        "put" => put(alloc, map, key, value),
        "set" => set(alloc, map, key, value),
        _ => Err(Refusal::NoCall),
    }
}

fn put(alloc: Global, map: &Value, key: &Value, value: &Value) -> Result<String, Refusal> {
    let pairs = pairs_of(map)?.with_value(alloc, key, value)?;
    told(alloc, Value::of(Node::Map(pairs)))
}

// The map itself with a value for a key.
fn set(alloc: Global, map: &Value, key: &Value, value: &Value) -> Result<String, Refusal> {
    match map.node() {
        Node::Map(_) => told(alloc, map.share()?.set_key(alloc, key, value)),
        _ => Err(Refusal::NoCall),
    }
}

// The list itself with one item more, joined by a comma.
fn push(alloc: Global, list: &Value, item: &Value) -> Result<String, Refusal> {
    match list.node() {
        Node::List { .. } => {
            let item = item.share()?;
            told(
                alloc,
                list.share()?.push_item(alloc, item, Separator::Comma),
            )
        }
        _ => Err(Refusal::NoCall),
    }
}

// The items with ` | ` between two.
fn items(alloc: Global, value: &Value) -> Result<String, Refusal> {
    let items = value.items(alloc)?;
    if items.is_empty() {
        return Ok(String::from_str(alloc, "nothing")?);
    }
    let mut writer = TextWriter::new(alloc);
    let mut between = "";
    for item in items.as_slice() {
        writer.text(between);
        writer.add(inspected(alloc, item));
        between = " | ";
    }
    writer.written()
}

fn one_call(alloc: Global, name: &str, value: &Value) -> Result<String, Refusal> {
    match name {
        "css" => css(alloc, value, true),
        "plain_css" => css(alloc, value, false),
        "inspect" => inspected(alloc, value),
        "items" => items(alloc, value),
        "truth" => shown(alloc, &value.truth()),
        "weight" => shown(alloc, &value.weight()),
        "nesting" => shown(alloc, &value.nesting()),
        _ => Err(Refusal::NoCall),
    }
}

fn two_call(alloc: Global, name: &str, one: &Value, other: &Value) -> Result<String, Refusal> {
    match name {
        "equal" => shown(alloc, &one.equals(other)),
        "same" => shown(alloc, &one.same(other)),
        "push" => push(alloc, one, other),
        "get" => get(alloc, one, other),
        _ => Err(Refusal::NoCall),
    }
}

fn get(alloc: Global, map: &Value, key: &Value) -> Result<String, Refusal> {
    match pairs_of(map)?.get(&key.canon(alloc)?) {
        Some(value) => inspected(alloc, value),
        None => Ok(String::from_str(alloc, "none")?),
    }
}

// A truth or a count.
fn shown(alloc: Global, plain: &impl Display) -> Result<String, Refusal> {
    Ok(format!(in alloc; "{plain}")?)
}

fn pairs_of(value: &Value) -> Result<&Pairs, Refusal> {
    match value.node() {
        Node::Map(pairs) => Ok(pairs),
        _ => Err(Refusal::NoCall),
    }
}

fn css(alloc: Global, value: &Value, quotes: bool) -> Result<String, Refusal> {
    let text = answer_of(alloc, value.css_text(alloc, quotes))?;
    Ok(String::from_str(alloc, text.as_str())?)
}

/// A value of these parts.
pub fn value_of(alloc: Global, node: Node) -> Result<Value, Refusal> {
    answer_of(alloc, Value::of(node))
}

/// The text for a reader of the value that a library answers.
pub fn told<F: Debug + Drop>(alloc: Global, answer: Result<Value, F>) -> Result<String, Refusal> {
    inspected(alloc, &answer_of(alloc, answer)?)
}

/// A value's text for a reader.
pub fn inspected(alloc: Global, value: &Value) -> Result<String, Refusal> {
    let text = answer_of(alloc, value.inspect(alloc))?;
    Ok(String::from_str(alloc, text.as_str())?)
}
