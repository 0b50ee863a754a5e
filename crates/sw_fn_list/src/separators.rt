// Separators and brackets.
ghost use Rattle.std.specs.Prelude.{◌≡◌, Ok, Err};
ghost use Rattle.sw_fn_call.specs.Answers.{IsAnswer};
ghost use Rattle.sw_values.specs.Shape.{node_of};
ghost use Rattle.sw_fn_list.specs.Separators.{is_bracketed, separator_name, separator, separator_named, separator_chosen as separator_given, is_auto_by, brackets_chosen as brackets_given, or_else as either, separator_of_both as separator_in_both, separator_of_one as separator_in_one};

use crate::items::{brackets_of, decided, separator_of};
use std::alloc::Global;
use sw_fn_call::{Argument, FnFault, one, text, text_of};
use sw_values::{Node, Separator, Value};

pub(crate) fn is_bracketed(args: &[Argument]) -> Result<Value, FnFault>
    ensures { IsAnswer result (is_bracketed args.now) }
{
    let given = one(args)?;
    Ok(Value::of_truth(brackets_of(given)))
}

fn separator_name(separator: Separator) -> &'static str
    ensures { result.now ≡ separator_name separator }
{
    match separator {
        Separator::Undecided => "space",
        Separator::Space => "space",
        Separator::Comma => "comma",
        Separator::Slash => "slash",
    }
}

pub(crate) fn separator(alloc: Global, args: &[Argument]) -> Result<Value, FnFault>
    ensures { IsAnswer result (separator args.now) }
{
    let given = one(args)?;
    text(alloc, separator_name(separator_of(given)), false)
}

// ---- what a caller chooses

fn separator_named(name: &str) -> Result<Option<Separator>, FnFault>
    ensures { result ≡ separator_named name.now }
{
    match name {
        "auto" => Ok(None),
        "space" => Ok(Some(Separator::Space)),
        "comma" => Ok(Some(Separator::Comma)),
        "slash" => Ok(Some(Separator::Slash)),
        _ => Err(FnFault::ArgumentFault),
    }
}

/// The separator that a value names; none for `auto`.
pub(crate) fn separator_chosen(value: &Value) -> Result<Option<Separator>, FnFault>
    ensures { result ≡ separator_given value.now }
{
    match text_of(value) {
        Ok(name) => separator_named(name.as_str()),
        Err(fault) => Err(fault),
    }
}

fn is_auto(value: &Value) -> bool
    ensures { result ≡ is_auto_by (node_of value.now) }
{
    match value.node() {
        Node::Number(_) => false,
        Node::Text { text, .. } => text.as_str() == "auto",
        Node::Colour(_) => false,
        Node::List { .. } => false,
        Node::Map(_) => false,
        Node::Bool(_) => false,
        Node::Null => false,
        Node::Args { .. } => false,
    }
}

/// Whether a list is to stand in brackets: as another one does, or else by whether a value counts as true.
pub(crate) fn brackets_chosen(given: &Value, value: &Value) -> bool
    ensures { result ≡ brackets_given given.now value.now }
{
    if is_auto(value) {
        brackets_of(given)
    } else {
        value.truth()
    }
}

pub(crate) fn or_else(separator: Option<Separator>, other: Separator) -> Separator
    ensures { result ≡ either separator other }
{
    match separator {
        Some(separator) => separator,
        None => other,
    }
}

/// The separator of the first list that has decided on one, else a space.
pub(crate) fn separator_of_both(first: &Value, second: &Value) -> Separator
    ensures { result ≡ separator_in_both first.now second.now }
{
    or_else(decided(first), or_else(decided(second), Separator::Space))
}

pub(crate) fn separator_of_one(given: &Value) -> Separator
    ensures { result ≡ separator_in_one given.now }
{
    or_else(decided(given), Separator::Space)
}
