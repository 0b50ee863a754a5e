// Calls that are written out as functions of CSS.
ghost use Rattle.std.specs.Prelude.{◌≡◌, [], ◌++◌, IfOk, OnOk};
ghost use Rattle.sw_eval_literals.specs.Answers.{Returns};
ghost use Rattle.sw_eval_calls.specs.CssCalls.{names_any, comma_behind, argument_texts, whole_call, written_call, css_call};

use crate::placing::{all_passed, at_argument};
use std::alloc::Global;
use sw_eval_literals::{Refused, css_text, joined, string_value};
use sw_scope::Passed;
use sw_text::{List, Memory, Name, Span};
use sw_tree::Argument;
use sw_values::Value;

/// Whether an argument was passed by its name, or none takes the arguments.
pub fn names_any(passed: &Passed) -> bool
    ensures { result ≡ names_any passed.now }
{
    passed.faulty || !passed.named.is_empty()
}

/// A comma behind texts, where there are any.
pub fn add_comma(alloc: Global, done: &mut List<Name>) -> Result<(), Memory>
    ensures { OnOk result (done.new ≡ done.old ++ comma_behind done.old) }
{
    if done.is_empty() {
        return Ok(());
    }
    let comma = Name::new(alloc, ", ")?;
    done.push(comma)
}

// The texts of arguments, with a comma between two.
fn argument_texts(alloc: Global, values: &[Value], span: &Span) -> Result<List<Name>, Refused>
    ensures { Returns result (argument_texts [] values.now span.now) }
{
    let mut done = List::new(alloc);
    'values: for value in values {
        let text = css_text(alloc, true, value, span)?;
        add_comma(alloc, &mut done)?;
        done.push(text)?;
    }
    Ok(done)
}

// The pieces of a call.
#[tactic(auto, using(crate::proofs::Written::item_next, crate::proofs::Written::items_end))]
fn whole_call(alloc: Global, name: Name, arguments: &[Name]) -> Result<List<Name>, Memory>
    ensures { IfOk result (λ pieces. pieces ≡ whole_call name arguments.now) }
{
    let mut pieces = List::new(alloc);
    pieces.push(name)?;
    pieces.push(Name::new(alloc, "(")?)?;
    'arguments: for text in arguments {
        pieces.push(text.share()?)?;
    }
    pieces.push(Name::new(alloc, ")")?)?;
    Ok(pieces)
}

// The call of a function of CSS with these values, as an unquoted string.
#[tactic(auto, unfolding(crate::specs::CssCalls::written_call))]
fn written_call(alloc: Global, name: Name, values: &[Value], span: &Span) -> Result<Value, Refused>
    ensures { Returns result (written_call name values.now span.now) }
{
    let arguments = argument_texts(alloc, values, span)?;
    let pieces = whole_call(alloc, name, arguments.as_slice())?;
    let text = joined(alloc, pieces.as_slice(), span)?;
    string_value(text, false, span)
}

/// The call of a function of CSS with these arguments and their values, as an unquoted string. What can't be written is
/// a fault at its argument.
pub fn css_call(
    alloc: Global,
    name: Name,
    arguments: &[Argument],
    values: &[Value],
    span: &Span,
) -> Result<Value, Refused>
    ensures { Returns result (css_call name arguments.now values.now span.now) }
{
    let passed = all_passed(alloc, arguments, values)?;
    let written = written_call(alloc, name, passed.items.as_slice(), span);
    at_argument(alloc, true, arguments, values, written)
}
