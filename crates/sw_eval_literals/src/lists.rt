// Lists.
ghost use Rattle.std.specs.Prelude.{◌≡◌};
ghost use Rattle.sw_eval_literals.specs.Answers.{Returns};
ghost use Rattle.sw_eval_literals.specs.Lists.{separator_of, is_bracketed, list_value};

use crate::making::within;
use crate::refused::Refused;
use std::alloc::Global;
use sw_text::{List, Shared, Span};
use sw_tree::{Around, Separator};
use sw_values::{Node, Separator as Between, Value};

fn separator_of(separator: Separator) -> Between
    ensures { result ≡ separator_of separator }
{
    match separator {
        Separator::Undecided => Between::Undecided,
        Separator::Space => Between::Space,
        Separator::Comma => Between::Comma,
    }
}

fn is_bracketed(around: Around) -> bool
    ensures { result ≡ is_bracketed around }
{
    match around {
        Around::Nothing => false,
        Around::Parens => false,
        Around::Brackets => true,
    }
}

/// The list of these items, which stands here; `TooLarge` where it is too heavy or too deep.
#[tactic(auto, unfolding(crate::specs::Lists::list_value))]
#[inline(always)]
pub fn list_value(
    alloc: Global,
    items: List<Value>,
    separator: Separator,
    around: Around,
    span: &Span,
) -> Result<Value, Refused>
    ensures { Returns result (list_value items separator around span.now) }
{
    let items = Shared::new(alloc, items)?;
    let node = Node::List {
        items,
        separator: separator_of(separator),
        bracketed: is_bracketed(around),
    };
    within(node, span)
}
