// Calls that are written out as CSS.
ghost use Rattle.std.specs.Prelude.{◌≡◌, ◌++◌, codes, true, false, IfOk};
ghost use Rattle.std.specs.String.{string_bytes};
ghost use Rattle.sw_values.specs.declared.plain.Plain.TheVariants as P;
ghost use Rattle.sw_values.specs.Texts.{shown};
ghost use Rattle.sw_fn_call.specs.Answers.{IsAnswer, within};
ghost use Rattle.sw_builtins.specs.Written.{IsCssText, css_of as css_text_of, further as further_texts, joined as joined_texts, written as written_call};

use std::alloc::{AllocError, Global};
use sw_fn_call::{FnFault, string};
use sw_text::{Memory, Name};
use sw_values::{Value, ValueFault};

// A value's text in CSS.
fn css_text(alloc: Global, value: &Value) -> Result<Name, FnFault>
    ensures { IsCssText result (shown true value.now) }
{
    match value.css_text(alloc, true) {
        Ok(text) => Ok(text),
        Err(ValueFault::TooLarge) => Err(FnFault::TooLarge),
        Err(ValueFault::NotCss) => Err(FnFault::NotCss),
        Err(ValueFault::DuplicateKey(_)) => unreachable!(),
        Err(ValueFault::Memory) => Err(FnFault::Memory),
    }
}

fn css_of(alloc: Global, value: &Value) -> Result<Name, FnFault>
    ensures { IsAnswer result (css_text_of value.now) }
{
    css_text(alloc, value)
}

fn spliced(alloc: Global, first: &str, second: &str, third: &str) -> Result<String, AllocError>
    ensures { IfOk result (λ text. string_bytes text ≡ first.now ++ second.now ++ third.now) }
{
    let mut text = String::new(alloc);
    text.push_str(first)?;
    text.push_str(second)?;
    text.push_str(third)?;
    Ok(text)
}

fn both(alloc: Global, first: &str, second: &str) -> Result<String, AllocError>
    ensures { IfOk result (λ text. string_bytes text ≡ first.now ++ second.now) }
{
    let mut text = String::new(alloc);
    text.push_str(first)?;
    text.push_str(second)?;
    Ok(text)
}

fn both_name(alloc: Global, first: &str, second: &str) -> Result<Name, Memory>
    ensures { IfOk result (λ text. text ≡ first.now ++ second.now) }
{
    match both(alloc, first, second) {
        Ok(text) => Name::new(alloc, text.as_str()),
        Err(_) => Err(Memory),
    }
}

fn behind_comma(alloc: Global, text: &str, others: &str) -> Result<Name, Memory>
    ensures { IfOk result (λ all. all ≡ codes ", " ++ text.now ++ others.now) }
{
    match spliced(alloc, ", ", text, others) {
        Ok(all) => Name::new(alloc, all.as_str()),
        Err(_) => Err(Memory),
    }
}

// The texts behind a first one.
#[tactic(auto, unfolding(crate::specs::Written::further))]
fn further(alloc: Global, values: &[Value]) -> Result<Name, FnFault>
    ensures { IsAnswer result (further_texts values.now) }
{
    match values {
        [] => Ok(Name::new(alloc, "")?),
        [value, others @ ..] => {
            let text = css_of(alloc, value)?;
            let others = further(alloc, others)?;
            Ok(behind_comma(alloc, text.as_str(), others.as_str())?)
        }
    }
}

// The texts with commas between them.
#[tactic(auto, unfolding(crate::specs::Written::joined))]
fn joined(alloc: Global, values: &[Value]) -> Result<Name, FnFault>
    ensures { IsAnswer result (joined_texts values.now) }
{
    match values {
        [] => Ok(Name::new(alloc, "")?),
        [value, others @ ..] => {
            let text = css_of(alloc, value)?;
            let others = further(alloc, others)?;
            Ok(both_name(alloc, text.as_str(), others.as_str())?)
        }
    }
}

fn call_text(alloc: Global, name: &str, arguments: &str) -> Result<Name, Memory>
    ensures { IfOk result (λ text. text ≡ name.now ++ codes "(" ++ arguments.now ++ codes ")") }
{
    match spliced(alloc, name, "(", arguments) {
        Ok(opened) => both_name(alloc, opened.as_str(), ")"),
        Err(_) => Err(Memory),
    }
}

fn call_of(alloc: Global, name: &str, arguments: &str) -> Result<Value, FnFault>
    ensures { IsAnswer result (within (P.Text (name.now ++ codes "(" ++ arguments.now ++ codes ")") false)) }
{
    match call_text(alloc, name, arguments) {
        Ok(written) => string(written, false),
        Err(_) => Err(FnFault::Memory),
    }
}

/// A call of CSS with these arguments, as an unquoted string.
pub(crate) fn written(alloc: Global, name: &str, values: &[Value]) -> Result<Value, FnFault>
    ensures { IsAnswer result (written_call name.now values.now) }
{
    match joined(alloc, values) {
        Ok(arguments) => call_of(alloc, name, arguments.as_str()),
        Err(fault) => Err(fault),
    }
}
