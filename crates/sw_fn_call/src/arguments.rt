// The arguments of a built-in function.
ghost use Rattle.std.specs.Prelude.{◌≡◌, Ok, Err, MatchResult};
ghost use Rattle.sw_fn_call.specs.Arguments.{one as one_of, two as two_of, three as three_of, four as four_of, rest as rest_of};

use crate::FnFault;
use sw_text::Name;
use sw_values::{Node, Value};

/// A parameter's name with the value that fills it.
pub type Argument = (Name, Value);

/// The argument of a function with one parameter, else `ArgumentFault`.
#[tactic(auto, unfolding(crate::specs::Arguments::one))]
pub fn one(args: &[Argument]) -> Result<&Value, FnFault>
    ensures { MatchResult result (λ value. one_of args.now ≡ Ok value.now) (λ fault. one_of args.now ≡ Err fault) }
{
    match args {
        [value] => Ok(&value.1),
        _ => Err(FnFault::ArgumentFault),
    }
}

/// The arguments of a function with two parameters, else `ArgumentFault`.
#[tactic(auto, unfolding(crate::specs::Arguments::two))]
pub fn two(args: &[Argument]) -> Result<(&Value, &Value), FnFault>
    ensures { MatchResult result (λ values. two_of args.now ≡ Ok (values.0.now, values.1.now))
        (λ fault. two_of args.now ≡ Err fault) }
{
    match args {
        [first, second] => Ok((&first.1, &second.1)),
        _ => Err(FnFault::ArgumentFault),
    }
}

/// The arguments of a function with three parameters, else `ArgumentFault`.
#[tactic(auto, unfolding(crate::specs::Arguments::three))]
pub fn three(args: &[Argument]) -> Result<(&Value, &Value, &Value), FnFault>
    ensures { MatchResult result (λ values. three_of args.now ≡ Ok (values.0.now, values.1.now, values.2.now))
        (λ fault. three_of args.now ≡ Err fault) }
{
    match args {
        [first, second, third] => Ok((&first.1, &second.1, &third.1)),
        _ => Err(FnFault::ArgumentFault),
    }
}

/// The arguments of a function with four parameters, else `ArgumentFault`.
#[tactic(auto, unfolding(crate::specs::Arguments::four))]
pub fn four(args: &[Argument]) -> Result<(&Value, &Value, &Value, &Value), FnFault>
    ensures { MatchResult result
        (λ values. four_of args.now ≡ Ok (values.0.now, values.1.now, values.2.now, values.3.now))
        (λ fault. four_of args.now ≡ Err fault) }
{
    match args {
        [first, second, third, fourth] => Ok((&first.1, &second.1, &third.1, &fourth.1)),
        _ => Err(FnFault::ArgumentFault),
    }
}

/// The values that a parameter with `...` takes; `ArgumentFault` where an argument has a name that no other parameter
/// has.
#[tactic(auto, unfolding(crate::specs::Arguments::rest))]
pub fn rest(value: &Value) -> Result<&[Value], FnFault>
    ensures { MatchResult result (λ items. rest_of value.now ≡ Ok items.now) (λ fault. rest_of value.now ≡ Err fault) }
{
    match value.node() {
        Node::Number(_) => Err(FnFault::TypeFault),
        Node::Text { .. } => Err(FnFault::TypeFault),
        Node::Colour(_) => Err(FnFault::TypeFault),
        Node::List { .. } => Err(FnFault::TypeFault),
        Node::Map(_) => Err(FnFault::TypeFault),
        Node::Bool(_) => Err(FnFault::TypeFault),
        Node::Null => Err(FnFault::TypeFault),
        Node::Args { items, named } => match named.get().as_slice() {
            [] => Ok(items.get().as_slice()),
            [_, ..] => Err(FnFault::ArgumentFault),
        },
    }
}
