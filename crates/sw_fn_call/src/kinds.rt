// What built-in functions see of a value.
ghost use Rattle.std.specs.Prelude.{◌≡◌, Ok, Err, MatchResult};
ghost use Rattle.sw_fn_call.specs.Kinds.{number_of as number_in, text_of as text_in, is_quoted};

use crate::FnFault;
use sw_text::Name;
use sw_units::Number;
use sw_values::{Node, Value};

/// The number that a value is, else `TypeFault`.
#[tactic(auto, unfolding(crate::specs::Kinds::number_of))]
pub fn number_of(value: &Value) -> Result<&Number, FnFault>
    ensures { MatchResult result (λ number. number_in value.now ≡ Ok number.now)
        (λ fault. number_in value.now ≡ Err fault) }
{
    match value.node() {
        Node::Number(number) => Ok(number),
        Node::Text { .. } => Err(FnFault::TypeFault),
        Node::Colour(_) => Err(FnFault::TypeFault),
        Node::List { .. } => Err(FnFault::TypeFault),
        Node::Map(_) => Err(FnFault::TypeFault),
        Node::Bool(_) => Err(FnFault::TypeFault),
        Node::Null => Err(FnFault::TypeFault),
        Node::Args { .. } => Err(FnFault::TypeFault),
    }
}

/// The text of a string, else `TypeFault`.
#[tactic(auto, unfolding(crate::specs::Kinds::text_of))]
pub fn text_of(value: &Value) -> Result<&Name, FnFault>
    ensures { MatchResult result (λ text. text_in value.now ≡ Ok text.now) (λ fault. text_in value.now ≡ Err fault) }
{
    match value.node() {
        Node::Number(_) => Err(FnFault::TypeFault),
        Node::Text { text, .. } => Ok(text),
        Node::Colour(_) => Err(FnFault::TypeFault),
        Node::List { .. } => Err(FnFault::TypeFault),
        Node::Map(_) => Err(FnFault::TypeFault),
        Node::Bool(_) => Err(FnFault::TypeFault),
        Node::Null => Err(FnFault::TypeFault),
        Node::Args { .. } => Err(FnFault::TypeFault),
    }
}

/// Whether the value is a quoted string.
pub fn is_quoted(value: &Value) -> bool
    ensures { result ≡ is_quoted value.now }
{
    match value.node() {
        Node::Number(_) => false,
        Node::Text { quoted, .. } => *quoted,
        Node::Colour(_) => false,
        Node::List { .. } => false,
        Node::Map(_) => false,
        Node::Bool(_) => false,
        Node::Null => false,
        Node::Args { .. } => false,
    }
}
