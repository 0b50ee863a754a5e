// The separator of a list that grows.
ghost use Rattle.std.specs.Prelude.{◌≡◌, Ok, Err, true};
ghost use Rattle.sw_fn_list.specs.Separators.{separator_named, separator_chosen as separator_given, or_else as either, separator_of_one as separator_in_one};
ghost use Rattle.sw_values.specs.Growing.{is_list};

use sw_fn_call::{FnFault, text_of};
use sw_values::{Node, Separator, Value};

fn separator_named(name: &str) -> Result<Option<Separator>, FnFault>
    ensures { result ≡ separator_named name.now }
{
    match name {
        "auto" => Ok(None),
        "space" => Ok(Some(Separator::Space)),
        "comma" => Ok(Some(Separator::Comma)),
        "slash" => Ok(Some(Separator::Slash)),
        _ => Err(FnFault::ArgumentFault),
    }
}

/// The separator that a value names; none for `auto`.
pub(crate) fn separator_chosen(value: &Value) -> Result<Option<Separator>, FnFault>
    ensures { result ≡ separator_given value.now }
{
    match text_of(value) {
        Ok(name) => separator_named(name.as_str()),
        Err(fault) => Err(fault),
    }
}

/// The separator with which a list is written, or would be if it had two items.
#[tactic(auto, using(crate::proofs::Lists::decided_or_space), unfolding(sw_fn_list::specs::Items::separator_of))]
pub(crate) fn separator_of(given: &Value) -> Separator
    requires { is_list given.now ≡ true }
    ensures { result ≡ separator_in_one given.now }
{
    match given.node() {
        Node::List { separator, .. } => match separator {
            Separator::Comma => Separator::Comma,
            Separator::Slash => Separator::Slash,
            Separator::Space => Separator::Space,
            Separator::Undecided => Separator::Space,
        },
        Node::Number(_) => unreachable!(),
        Node::Text { .. } => unreachable!(),
        Node::Colour(_) => unreachable!(),
        Node::Map(_) => unreachable!(),
        Node::Bool(_) => unreachable!(),
        Node::Null => unreachable!(),
        Node::Args { .. } => unreachable!(),
    }
}

pub(crate) fn or_else(separator: Option<Separator>, other: Separator) -> Separator
    ensures { result ≡ either separator other }
{
    match separator {
        Some(separator) => separator,
        None => other,
    }
}
