// Colours among arguments and values.
ghost use Rattle.std.specs.Prelude.{◌≡◌, Ok, Err, MatchResult};
ghost use Rattle.sw_fn_call.specs.Answers.{IsAnswer};
ghost use Rattle.sw_fn_colour.specs.Colours.{colour_of as colour_in, one_colour as one_colour_of, coloured};

use sw_colour::Colour;
use sw_fn_call::{Argument, FnFault, one, within};
use sw_values::{Node, Value};

/// The colour that a value is, else `TypeFault`.
#[tactic(auto, unfolding(crate::specs::Colours::colour_of))]
pub(crate) fn colour_of(value: &Value) -> Result<&Colour, FnFault>
    ensures { MatchResult result (λ colour. colour_in value.now ≡ Ok colour.now)
        (λ fault. colour_in value.now ≡ Err fault) }
{
    match value.node() {
        Node::Number(_) => Err(FnFault::TypeFault),
        Node::Text { .. } => Err(FnFault::TypeFault),
        Node::Colour(colour) => Ok(colour),
        Node::List { .. } => Err(FnFault::TypeFault),
        Node::Map(_) => Err(FnFault::TypeFault),
        Node::Bool(_) => Err(FnFault::TypeFault),
        Node::Null => Err(FnFault::TypeFault),
        Node::Args { .. } => Err(FnFault::TypeFault),
    }
}

/// The one argument, a colour.
#[tactic(auto, unfolding(crate::specs::Colours::one_colour))]
pub(crate) fn one_colour(args: &[Argument]) -> Result<&Colour, FnFault>
    ensures { MatchResult result (λ colour. one_colour_of args.now ≡ Ok colour.now)
        (λ fault. one_colour_of args.now ≡ Err fault) }
{
    colour_of(one(args)?)
}

/// The value of a colour.
pub(crate) fn coloured(colour: Colour) -> Result<Value, FnFault>
    ensures { IsAnswer result (coloured colour) }
{
    within(Node::Colour(colour))
}
