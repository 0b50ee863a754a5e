// The texts of values.
ghost use Rattle.std.specs.Prelude.{◌≡◌, ◌<◌, ◌++◌, length, IfOk};
ghost use Rattle.std.specs.String.{string_bytes};
ghost use Rattle.sw_values.specs.Inspected.{said};
ghost use Rattle.sw_values.specs.Weight.{most};
ghost use Rattle.sw_values.specs.Shape.{node_of};
ghost use Rattle.sw_eval_literals.specs.Answers.{Returns};
ghost use Rattle.sw_eval_literals.specs.Texts.{short, css_text, inserted, message, all_pieces, joined, all_blank, blank_list, void_by, is_written, declaration_text};

use crate::refused::{Refused, fails};
use std::alloc::Global;
use sw_text::{FaultCode, Memory, Name, Span};
use sw_values::{Node, Value, ValueFault};

// The greatest weight of a value, which a text is always below.
const MOST_WEIGHT: usize = 1_048_576;

/// A value's text in CSS, with quotes or without them, as it stands in selectors, names and raw texts: `NotCss` where
/// it has none, and `TooLarge` where it is too long for a string.
pub fn css_text(alloc: Global, quotes: bool, value: &Value, span: &Span) -> Result<Name, Refused>
    ensures { Returns result (css_text quotes value.now span.now) }
{
    match value.css_text(alloc, quotes) {
        Ok(text) => Ok(text),
        Err(ValueFault::NotCss) => fails(FaultCode::NotCss, span),
        Err(ValueFault::TooLarge) => fails(FaultCode::TooLarge, span),
        Err(ValueFault::DuplicateKey(_)) => unreachable!(),
        Err(ValueFault::Memory) => Err(Refused::Memory),
    }
}

/// The text of a value in a quoted string, a word or a url of an expression: a string's own text, else its text in CSS
/// without quotes.
#[tactic(auto, unfolding(crate::specs::Texts::inserted))]
pub fn inserted(alloc: Global, value: &Value, span: &Span) -> Result<Name, Refused>
    ensures { Returns result (inserted value.now span.now) }
{
    match value.node() {
        Node::Text { text, .. } => Ok(text.share()?),
        Node::Number(_) => css_text(alloc, false, value, span),
        Node::Colour(_) => css_text(alloc, false, value, span),
        Node::List { .. } => css_text(alloc, false, value, span),
        Node::Map(_) => css_text(alloc, false, value, span),
        Node::Bool(_) => css_text(alloc, false, value, span),
        Node::Null => css_text(alloc, false, value, span),
        Node::Args { .. } => css_text(alloc, false, value, span),
    }
}

// A value's text for a reader of messages.
fn inspected(alloc: Global, value: &Value, span: &Span) -> Result<Name, Refused>
    ensures { Returns result (short (said value.now).text span.now) }
{
    match value.inspect(alloc) {
        Ok(text) => Ok(text),
        Err(ValueFault::TooLarge) => fails(FaultCode::TooLarge, span),
        Err(ValueFault::NotCss) => unreachable!(),
        Err(ValueFault::DuplicateKey(_)) => unreachable!(),
        Err(ValueFault::Memory) => Err(Refused::Memory),
    }
}

/// The text of a value in a message: a string's own text, else that for a reader of messages; `TooLarge` where it is
/// too long for a string.
#[tactic(auto, unfolding(crate::specs::Texts::message))]
pub fn message(alloc: Global, value: &Value, span: &Span) -> Result<Name, Refused>
    ensures { Returns result (message value.now span.now) }
{
    match value.node() {
        Node::Text { text, .. } => Ok(text.share()?),
        Node::Number(_) => inspected(alloc, value, span),
        Node::Colour(_) => inspected(alloc, value, span),
        Node::List { .. } => inspected(alloc, value, span),
        Node::Map(_) => inspected(alloc, value, span),
        Node::Bool(_) => inspected(alloc, value, span),
        Node::Null => inspected(alloc, value, span),
        Node::Args { .. } => inspected(alloc, value, span),
    }
}

/// The text of these pieces behind one another; `TooLarge` where it is too long for a string.
#[tactic(auto, unfolding(crate::specs::Texts::joined))]
pub fn joined(alloc: Global, pieces: &[Name], span: &Span) -> Result<Name, Refused>
    ensures { Returns result (joined pieces.now span.now) }
{
    let mut text = String::new(alloc);
    'pieces: for piece in pieces {
        let piece = piece.as_str();
        if piece.len() >= MOST_WEIGHT - text.len() {
            return fails(FaultCode::TooLarge, span);
        }
        text.push_str(piece)?;
    }
    Ok(Name::new(alloc, text.as_str())?)
}

/// The text of these pieces behind one another, however long it is.
pub fn whole_text(alloc: Global, pieces: &[Name]) -> Result<Name, Memory>
    ensures { IfOk result (λ text. text ≡ all_pieces pieces.now) }
{
    let mut text = String::new(alloc);
    'pieces: for piece in pieces {
        text.push_str(piece.as_str())?;
    }
    Name::new(alloc, text.as_str())
}

// Whether all items are left out of the text of a list.
fn all_blank(items: &[Value]) -> bool
    ensures { result ≡ all_blank items.now }
{
    'items: for item in items {
        if !item.is_blank() {
            return false;
        }
    }
    true
}

fn blank_list(bracketed: bool, items: &[Value]) -> bool
    ensures { result ≡ blank_list bracketed items.now }
{
    match items {
        [] => false,
        [_, ..] => !bracketed && all_blank(items),
    }
}

// Whether a declaration of this value is left out.
fn is_void(value: &Value) -> bool
    ensures { result ≡ void_by value.now (node_of value.now) }
{
    match value.node() {
        Node::List {
            items,
            bracketed,
            ..
        } => blank_list(*bracketed, items.get().as_slice()),
        Node::Args { items, .. } => blank_list(false, items.get().as_slice()),
        Node::Number(_) => value.is_blank(),
        Node::Text { .. } => value.is_blank(),
        Node::Colour(_) => value.is_blank(),
        Node::Map(_) => value.is_blank(),
        Node::Bool(_) => value.is_blank(),
        Node::Null => value.is_blank(),
    }
}

/// Whether a declaration of this value is written: not where it is null, an empty string without quotes, or a list
/// without brackets of one or more such.
#[tactic(auto, unfolding(crate::specs::Texts::is_written))]
pub fn is_written(value: &Value) -> bool
    ensures { result ≡ is_written value.now }
{
    !is_void(value)
}

/// What a declaration of this value writes; none where it isn't written.
#[tactic(auto, unfolding(crate::specs::Texts::declaration_text))]
pub fn declaration_text(alloc: Global, value: &Value, span: &Span) -> Result<Option<Name>, Refused>
    ensures { Returns result (declaration_text value.now span.now) }
{
    if !is_written(value) {
        return Ok(None);
    }
    match css_text(alloc, true, value, span) {
        Ok(text) => Ok(Some(text)),
        Err(refused) => Err(refused),
    }
}
