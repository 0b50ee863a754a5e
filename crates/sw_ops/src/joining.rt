// Texts that operators make of the texts of their sides.
ghost use Rattle.std.specs.Prelude.{◌≡◌, ◌++◌, [], ◌&&◌, IfOk, true, false};
ghost use Rattle.std.specs.String.{string_bytes};
ghost use Rattle.sw_values.specs.declared.plain.Plain.TheVariants as P;
ghost use Rattle.sw_values.specs.Texts.{shown};
ghost use Rattle.sw_ops.specs.Answers.{IsAnswer};
ghost use Rattle.sw_ops.specs.Sides.{within};
ghost use Rattle.sw_ops.specs.Joined.{bare, joined, IsText};
ghost use Rattle.sw_ops.specs.Operators.{headed, sign_between};

use crate::OpFault;
use std::alloc::{AllocError, Global};
use sw_text::Name;
use sw_values::{Node, Value, ValueFault};

/// The operators that join the texts of sides that they can't compute.
#[derive(Clone, Copy, Debug, PartialEq, Eq)]
pub(crate) enum Sign {
    Plus,
    Minus,
    Slash,
}

/// What stands between two texts.
pub(crate) fn sign_between(sign: Sign) -> &'static str
    ensures { result.now ≡ sign_between sign }
{
    match sign {
        Sign::Plus => "",
        Sign::Minus => "-",
        Sign::Slash => "/",
    }
}

fn both(one: bool, other: bool) -> bool
    ensures { result ≡ (one && other) }
{
    one && other
}

// The text of a string, unless it is too heavy.
fn within(text: Name, quoted: bool) -> Result<Value, OpFault>
    ensures { IsAnswer result (within (P.Text text quoted)) }
{
    match Value::of(Node::Text { text, quoted }) {
        Ok(value) => Ok(value),
        Err(ValueFault::TooLarge) => Err(OpFault::TooLarge),
        Err(ValueFault::NotCss) => unreachable!(),
        Err(ValueFault::DuplicateKey(_)) => unreachable!(),
        Err(ValueFault::Memory) => unreachable!(),
    }
}

// A side's text in CSS.
fn css_text(alloc: Global, value: &Value, quotes: bool) -> Result<Name, OpFault>
    requires { (shown quotes value.now).css ≡ true }
    ensures { IsText result (shown quotes value.now).text }
{
    match value.css_text(alloc, quotes) {
        Ok(text) => Ok(text),
        Err(ValueFault::TooLarge) => Err(OpFault::TooLarge),
        Err(ValueFault::NotCss) => unreachable!(),
        Err(ValueFault::DuplicateKey(_)) => unreachable!(),
        Err(ValueFault::Memory) => Err(OpFault::Memory),
    }
}

fn is_bare(value: &Value) -> bool
    ensures { result ≡ (bare value.now).css }
{
    match value.node() {
        Node::Text { .. } => true,
        Node::Number(_) => value.is_css(false),
        Node::Colour(_) => value.is_css(false),
        Node::List { .. } => value.is_css(false),
        Node::Map(_) => value.is_css(false),
        Node::Bool(_) => value.is_css(false),
        Node::Null => value.is_css(false),
        Node::Args { .. } => value.is_css(false),
    }
}

// A string's own text, and any other value's text in CSS without quotes.
fn bare(alloc: Global, value: &Value) -> Result<Name, OpFault>
    requires { (bare value.now).css ≡ true }
    ensures { IsText result (bare value.now).text }
{
    match value.node() {
        Node::Text { text, .. } => Ok(text.share()?),
        Node::Number(_) => css_text(alloc, value, false),
        Node::Colour(_) => css_text(alloc, value, false),
        Node::List { .. } => css_text(alloc, value, false),
        Node::Map(_) => css_text(alloc, value, false),
        Node::Bool(_) => css_text(alloc, value, false),
        Node::Null => css_text(alloc, value, false),
        Node::Args { .. } => css_text(alloc, value, false),
    }
}

fn text_of(alloc: Global, left: &str, sign: &str, right: &str) -> Result<String, AllocError>
    ensures { IfOk result (λ text. string_bytes text ≡ left.now ++ sign.now ++ right.now) }
{
    let mut text = String::new(alloc);
    text.push_str(left)?;
    text.push_str(sign)?;
    text.push_str(right)?;
    Ok(text)
}

// Both texts with a sign between them.
fn joined(
    alloc: Global,
    quoted: bool,
    left: &str,
    sign: &str,
    right: &str,
) -> Result<Value, OpFault>
    ensures { IsAnswer result (within (P.Text (left.now ++ sign.now ++ right.now) quoted)) }
{
    let text = match text_of(alloc, left, sign, right) {
        Ok(text) => text,
        Err(_) => return Err(OpFault::Memory),
    };
    within(Name::new(alloc, text.as_str())?, quoted)
}

/// Both texts without quotes, as a string that is quoted or not.
pub(crate) fn bare_joined(
    alloc: Global,
    quoted: bool,
    a: &Value,
    b: &Value,
) -> Result<Value, OpFault>
    ensures { IsAnswer result (joined quoted [] (bare a.now) (bare b.now)) }
{
    if !both(is_bare(a), is_bare(b)) {
        return Err(OpFault::NotCss);
    }
    match bare(alloc, a) {
        Err(fault) => Err(fault),
        Ok(left) => match bare(alloc, b) {
            Err(fault) => Err(fault),
            Ok(right) => joined(alloc, quoted, left.as_str(), "", right.as_str()),
        },
    }
}

/// Both texts in CSS with a sign between them, as a string without quotes.
pub(crate) fn css_joined(alloc: Global, a: &Value, sign: &str, b: &Value) -> Result<Value, OpFault>
    ensures { IsAnswer result (joined false sign.now (shown true a.now) (shown true b.now)) }
{
    if !both(a.is_css(true), b.is_css(true)) {
        return Err(OpFault::NotCss);
    }
    match css_text(alloc, a, true) {
        Err(fault) => Err(fault),
        Ok(left) => match css_text(alloc, b, true) {
            Err(fault) => Err(fault),
            Ok(right) => joined(alloc, false, left.as_str(), sign, right.as_str()),
        },
    }
}

/// A value's text in CSS behind a sign, as a string without quotes.
pub(crate) fn headed(alloc: Global, sign: &str, a: &Value) -> Result<Value, OpFault>
    ensures { IsAnswer result (headed sign.now a.now) }
{
    if !a.is_css(true) {
        return Err(OpFault::NotCss);
    }
    match css_text(alloc, a, true) {
        Err(fault) => Err(fault),
        Ok(text) => joined(alloc, false, sign, "", text.as_str()),
    }
}
