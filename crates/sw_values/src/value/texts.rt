// How values are written in CSS.
ghost use Rattle.std.specs.Prelude.{◌≡◌, ◌<◌, IfOk, IfErr, OnOk, length, true, map, List, ◌∷◌, [], ℕ, Some, ◌&&◌, not};
ghost use Rattle.sw_values.specs.Texts.{Shown, shown, pieces, all_blank, all_css, glue_of, in_brackets, IsTextFault, list_blank, list_css};
ghost use Rattle.sw_values.specs.Canon.{is_empty};
ghost use Rattle.sw_values.specs.Weight.{most};
ghost use Rattle.sw_values.specs.Written.{appended, IsNamed};
ghost use Rattle.sw_values.specs.declared.fault.ValueFault.TheVariants as F;

use super::plain_texts::{number_is_css, write_colour, write_number, write_string, write_truth};
use super::{Node, Value};
use crate::limits::LEVELS;
use crate::written::Written;
use crate::{Separator, ValueFault};
use std::alloc::Global;
use sw_text::{Memory, Name};

impl Value {
    /// Whether a list leaves the value out of its text: null, the empty unquoted string, and a list without brackets of
    /// one or more such. Takes no memory.
    pub fn is_blank(&self) -> bool
        ensures { result ≡ (shown true self.now).blank }
    {
        is_blank(true, self)
    }

    /// Whether the value can be written in CSS, with quotes or without them. Takes no memory.
    pub fn is_css(&self, quotes: bool) -> bool
        ensures { result ≡ (shown quotes self.now).css }
    {
        is_css(quotes, self)
    }

    /// The value's text in CSS. Without `quotes` no string in it is quoted.
    pub fn css_text(&self, alloc: Global, quotes: bool) -> Result<Name, ValueFault>
        ensures text { IfOk result (λ text. text ≡ (shown quotes self.now).text) }
        ensures css { IfOk result (λ text. (shown quotes self.now).css ≡ true) }
        ensures light { IfOk result (λ text. length text < most) }
        ensures err { IfErr result (λ fault. IsTextFault (shown quotes self.now) fault) }
    {
        if !self.is_css(quotes) {
            return Err(ValueFault::NotCss);
        }
        match written(alloc, quotes, self) {
            Ok(written) => named(alloc, written),
            Err(_) => Err(ValueFault::Memory),
        }
    }
}

fn written(alloc: Global, quotes: bool, value: &Value) -> Result<Written, Memory>
    ensures { IfOk result (λ written. written ≡ appended (Some []) (shown quotes value.now).text) }
{
    let mut out = Written::new(alloc);
    write_value(alloc, &mut out, quotes, value)?;
    Ok(out)
}

/// The name of a text, unless it is too long.
pub(crate) fn named(alloc: Global, written: Written) -> Result<Name, ValueFault>
    ensures { (text : List ℕ) → written ≡ appended (Some []) text → IsNamed text result }
{
    match written.finish() {
        None => Err(ValueFault::TooLarge),
        Some(text) => name_of(alloc, text.as_str()),
    }
}

fn name_of(alloc: Global, text: &str) -> Result<Name, ValueFault>
    ensures ok { IfOk result (λ name. name ≡ text.now) }
    ensures err { IfErr result (λ fault. fault ≡ F.Memory) }
{
    match Name::new(alloc, text) {
        Ok(name) => Ok(name),
        Err(_) => Err(ValueFault::Memory),
    }
}

fn both(one: bool, other: bool) -> bool
    ensures { result ≡ (one && other) }
{
    one && other
}

fn is_blank_text(text: &str, quoted: bool) -> bool
    ensures { result ≡ (not quoted && is_empty text.now) }
{
    if quoted {
        return false;
    }
    match text.as_bytes() {
        [] => true,
        [_, ..] => false,
    }
}

// Whether a list leaves the value out.
#[cycle(blank)]
fn is_blank(quotes: bool, value: &Value) -> bool
    ensures { result ≡ (shown quotes value.now).blank }
{
    match &value.node {
        Node::Number(_) => false,
        Node::Text { text, quoted } => is_blank_text(text.as_str(), *quoted),
        Node::Colour(_) => false,
        Node::List {
            items,
            bracketed,
            ..
        } => list_is_blank(quotes, *bracketed, items.get().as_slice()),
        Node::Map(_) => false,
        Node::Bool(_) => false,
        Node::Null => true,
        Node::Args { items, .. } => list_is_blank(quotes, false, items.get().as_slice()),
    }
}

#[cycle(blank)]
fn list_is_blank(quotes: bool, bracketed: bool, items: &[Value]) -> bool
    ensures { result ≡ list_blank bracketed (map (shown quotes) items.now) }
{
    match items {
        [] => false,
        [_, ..] => !bracketed && are_blank(quotes, items),
    }
}

#[cycle(blank)]
fn are_blank(quotes: bool, items: &[Value]) -> bool
    ensures { result ≡ all_blank (map (shown quotes) items.now) }
{
    'items: for i in 0..items.len() {
        if !is_blank(quotes, &items[i]) {
            return false;
        }
    }
    true
}

#[cycle(css)]
fn is_css(quotes: bool, value: &Value) -> bool
    ensures { result ≡ (shown quotes value.now).css }
{
    match &value.node {
        Node::Number(number) => number_is_css(LEVELS, number),
        Node::Text { .. } => true,
        Node::Colour(_) => true,
        Node::List {
            items,
            bracketed,
            ..
        } => list_is_css(quotes, *bracketed, items.get().as_slice()),
        Node::Map(_) => false,
        Node::Bool(_) => true,
        Node::Null => true,
        Node::Args { items, .. } => list_is_css(quotes, false, items.get().as_slice()),
    }
}

#[cycle(css)]
fn list_is_css(quotes: bool, bracketed: bool, items: &[Value]) -> bool
    ensures { result ≡ list_css bracketed (map (shown quotes) items.now) }
{
    match items {
        [] => bracketed,
        [_, ..] => are_css(quotes, items),
    }
}

#[cycle(css)]
fn are_css(quotes: bool, items: &[Value]) -> bool
    ensures { result ≡ all_css (map (shown quotes) items.now) }
{
    let mut all = true;
    'items: for i in 0..items.len() {
        all = all && is_css(quotes, &items[i]);
    }
    all
}

#[cycle(writing)]
#[tactic(auto, using(crate::proofs::Appending::stays_long))]
fn write_value(alloc: Global, out: &mut Written, quotes: bool, value: &Value) -> Result<(), Memory>
    ensures { OnOk result (out.new ≡ appended out.old ((shown quotes value.now).text)) }
{
    if out.is_long() {
        return Ok(());
    }
    match &value.node {
        Node::Number(number) => write_number(alloc, out, LEVELS, number),
        Node::Text { text, quoted } => {
            write_string(alloc, out, text.as_str(), both(quotes, *quoted))
        }
        Node::Colour(colour) => write_colour(alloc, out, colour),
        Node::List {
            items,
            separator,
            bracketed,
        } => write_list(
            alloc,
            out,
            quotes,
            *separator,
            *bracketed,
            items.get().as_slice(),
        ),
        Node::Map(_) => out.push(""),
        Node::Bool(truth) => write_truth(out, *truth),
        Node::Null => out.push(""),
        Node::Args { items, .. } => write_list(
            alloc,
            out,
            quotes,
            Separator::Comma,
            false,
            items.get().as_slice(),
        ),
    }
}

pub(crate) fn glue_of(separator: Separator) -> &'static str
    ensures { result.now ≡ glue_of separator }
{
    match separator {
        Separator::Undecided => " ",
        Separator::Space => " ",
        Separator::Comma => ", ",
        Separator::Slash => " / ",
    }
}

#[cycle(writing)]
#[tactic(auto, using(crate::proofs::Appending::joined_three))]
fn write_list(
    alloc: Global,
    out: &mut Written,
    quotes: bool,
    separator: Separator,
    bracketed: bool,
    items: &[Value],
) -> Result<(), Memory>
    ensures { OnOk result (out.new
        ≡ appended out.old (in_brackets bracketed (pieces (glue_of separator) true (map (shown quotes) items.now)))) }
{
    if bracketed {
        out.push("[")?;
        write_items(alloc, out, quotes, glue_of(separator), items)?;
        out.push("]")
    } else {
        write_items(alloc, out, quotes, glue_of(separator), items)
    }
}

#[cycle(writing)]
fn write_items(
    alloc: Global,
    out: &mut Written,
    quotes: bool,
    glue: &str,
    items: &[Value],
) -> Result<(), Memory>
    ensures { OnOk result (out.new ≡ appended out.old (pieces glue.now true (map (shown quotes) items.now))) }
{
    let mut first = true;
    'items: for i in 0..items.len() {
        first = write_item(alloc, out, quotes, glue, first, &items[i])?;
    }
    out.push("")
}

// Writes an item; whether the next one that is written is the first.
#[cycle(writing)]
#[tactic(auto, using(crate::proofs::Appending::joined, crate::proofs::Appending::joined_three))]
fn write_item(
    alloc: Global,
    out: &mut Written,
    quotes: bool,
    glue: &str,
    first: bool,
    item: &Value,
) -> Result<bool, Memory>
    ensures { IfOk result (λ after. (rest : List Shown)
        → appended out.new (pieces glue.now after rest)
        ≡ appended out.old (pieces glue.now first (shown quotes item.now ∷ rest))) }
{
    if is_blank(quotes, item) {
        return Ok(first);
    }
    if first {
        write_value(alloc, out, quotes, item)?;
        return Ok(false);
    }
    out.push(glue)?;
    write_value(alloc, out, quotes, item)?;
    Ok(false)
}
