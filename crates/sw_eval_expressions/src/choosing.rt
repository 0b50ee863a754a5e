// Which arguments `if()` chooses between.
ghost use Rattle.std.specs.Prelude.{◌≡◌};
ghost use Rattle.std.specs.Option.{option_copied, option_map};
ghost use Rattle.sw_eval_expressions.specs.Choosing.{has_spread, is_in_order, is_named, by_name, argument_of, choice_of, three_of, choice, one_by};

use sw_text::Name;
use sw_tree::{Argument, Expr};

// Whether a value is written with `...`.
pub(crate) fn has_spread(arguments: &[Argument]) -> bool
    ensures { result ≡ has_spread arguments.now }
{
    'arguments: for one in arguments {
        if one.spread {
            return true;
        }
    }
    false
}

// No argument is written without its name behind one that is written with it.
fn is_in_order(arguments: &[Argument]) -> bool
    ensures { result ≡ is_in_order arguments.now }
{
    let mut named = false;
    'arguments: for one in arguments {
        if one.name.is_some() {
            named = true;
        } else if named {
            return false;
        }
    }
    true
}

fn is_named(own: &Option<Name>, name: &str) -> bool
    ensures { result ≡ is_named own.now name.now }
{
    match own {
        Some(own) => own.as_str() == name,
        None => false,
    }
}

// The argument that is written with this name.
fn by_name<'a>(arguments: &'a [Argument], name: &str) -> Option<&'a Expr>
    ensures { option_copied result ≡ by_name name.now arguments.now }
{
    'arguments: for one in arguments {
        if is_named(&one.name, name) {
            return Some(&one.value);
        }
    }
    None
}

// The argument of the parameter at this place and of this name.
fn argument_of<'a>(arguments: &'a [Argument], place: usize, name: &str) -> Option<&'a Expr>
    ensures { option_copied result ≡ argument_of arguments.now place name.now }
{
    match arguments.get(place) {
        Some(one) => match &one.name {
            None => Some(&one.value),
            Some(_) => by_name(arguments, name),
        },
        None => by_name(arguments, name),
    }
}

/// The condition of `if()`, and what it chooses between.
#[derive(Drop)]
pub(crate) struct Chosen<'a> {
    pub condition: &'a Expr,
    pub if_true: &'a Expr,
    pub if_false: &'a Expr,
}

// What a condition chooses, which holds or not.
pub(crate) fn one_by<'a>(choice: &Chosen<'a>, holds: bool) -> &'a Expr
    ensures { result.now ≡ one_by (choice_of choice.now) holds }
{
    if holds {
        choice.if_true
    } else {
        choice.if_false
    }
}

fn three_of(arguments: &[Argument]) -> Option<Chosen<'_>>
    ensures { option_map choice_of result ≡ three_of arguments.now }
{
    let condition = argument_of(arguments, 0, "condition")?;
    let if_true = argument_of(arguments, 1, "if-true")?;
    let if_false = argument_of(arguments, 2, "if-false")?;
    Some(Chosen {
        condition,
        if_true,
        if_false,
    })
}

// The condition and what it chooses between; none where the arguments don't fit.
pub(crate) fn choice(arguments: &[Argument]) -> Option<Chosen<'_>>
    ensures { option_map choice_of result ≡ choice arguments.now }
{
    if arguments.len() == 3 && is_in_order(arguments) {
        three_of(arguments)
    } else {
        None
    }
}
