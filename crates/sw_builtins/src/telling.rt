// What values are.
ghost use Rattle.std.specs.Prelude.{◌≡◌, ◌++◌, false, map, Ok, Err, IfOk, MatchResult};
ghost use Rattle.sw_values.specs.declared.plain.Plain.TheVariants as P;
ghost use Rattle.sw_values.specs.Inspected.{said};
ghost use Rattle.sw_fn_call.specs.Answers.{IsAnswer};
ghost use Rattle.sw_builtins.specs.Telling.{IsInspectedText, kind_name as kind_name_of, type_of, inspected as inspected_value, inspect, named_of as named_in, keyed as keyed_of, keywords};

use std::alloc::Global;
use sw_fn_call::{Argument, FnFault, one, string, text};
use sw_fn_map::map_value;
use sw_text::{List, Memory, Name};
use sw_values::{Node, Value, ValueFault};

#[tactic(auto, unfolding(crate::specs::Telling::kind_name))]
fn kind_name(value: &Value) -> &'static str
    ensures { result.now ≡ kind_name_of value.now }
{
    match value.node() {
        Node::Number(_) => "number",
        Node::Text { .. } => "string",
        Node::Colour(_) => "color",
        Node::List { .. } => "list",
        Node::Map(_) => "map",
        Node::Bool(_) => "bool",
        Node::Null => "null",
        Node::Args { .. } => "arglist",
    }
}

pub(crate) fn type_of(alloc: Global, args: &[Argument]) -> Result<Value, FnFault>
    ensures { IsAnswer result (type_of args.now) }
{
    let value = one(args)?;
    text(alloc, kind_name(value), false)
}

fn inspected_text(alloc: Global, value: &Value) -> Result<Name, FnFault>
    ensures { IsInspectedText result (said value.now).text }
{
    match value.inspect(alloc) {
        Ok(text) => Ok(text),
        Err(ValueFault::TooLarge) => Err(FnFault::TooLarge),
        Err(ValueFault::NotCss) => unreachable!(),
        Err(ValueFault::DuplicateKey(_)) => unreachable!(),
        Err(ValueFault::Memory) => Err(FnFault::Memory),
    }
}

fn inspected(alloc: Global, value: &Value) -> Result<Value, FnFault>
    ensures { IsAnswer result (inspected_value value.now) }
{
    match inspected_text(alloc, value) {
        Ok(text) => string(text, false),
        Err(fault) => Err(fault),
    }
}

pub(crate) fn inspect(alloc: Global, args: &[Argument]) -> Result<Value, FnFault>
    ensures { IsAnswer result (inspect args.now) }
{
    let value = one(args)?;
    inspected(alloc, value)
}

// ---- keywords

// The arguments with names of an argument list, else `TypeFault`.
#[tactic(auto, unfolding(crate::specs::Telling::named_of))]
fn named_of(value: &Value) -> Result<&[Argument], FnFault>
    ensures { MatchResult result (λ named. named_in value.now ≡ Ok named.now)
        (λ fault. named_in value.now ≡ Err fault) }
{
    match value.node() {
        Node::Number(_) => Err(FnFault::TypeFault),
        Node::Text { .. } => Err(FnFault::TypeFault),
        Node::Colour(_) => Err(FnFault::TypeFault),
        Node::List { .. } => Err(FnFault::TypeFault),
        Node::Map(_) => Err(FnFault::TypeFault),
        Node::Bool(_) => Err(FnFault::TypeFault),
        Node::Null => Err(FnFault::TypeFault),
        Node::Args { named, .. } => Ok(named.get().as_slice()),
    }
}

// A name as a key. It weighs no more than in its argument list: were it too heavy, that would be want of memory.
fn key_of(name: &Name) -> Result<Value, Memory>
    ensures { IfOk result (λ key. key ≡ P.Text name.now false) }
{
    match Value::of(Node::Text {
        text: name.share()?,
        quoted: false,
    }) {
        Ok(key) => Ok(key),
        Err(_) => Err(Memory),
    }
}

fn keyed(argument: &Argument) -> Result<(Value, Value), Memory>
    ensures { IfOk result (λ pair. pair ≡ keyed_of argument.now) }
{
    let value = argument.1.share()?;
    match key_of(&argument.0) {
        Ok(key) => Ok((key, value)),
        Err(_) => Err(Memory),
    }
}

fn keyed_pairs(alloc: Global, named: &[Argument]) -> Result<List<(Value, Value)>, Memory>
    ensures { IfOk result (λ pairs. pairs ≡ map keyed_of named.now) }
{
    let mut pairs = List::new(alloc);
    'named: for at in 0..named.len() {
        pairs.push(keyed(&named[at])?)?;
    }
    Ok(pairs)
}

pub(crate) fn keywords(alloc: Global, args: &[Argument]) -> Result<Value, FnFault>
    ensures { IsAnswer result (keywords args.now) }
{
    let value = one(args)?;
    let named = named_of(value)?;
    let pairs = keyed_pairs(alloc, named)?;
    map_value(alloc, pairs.as_slice())
}
