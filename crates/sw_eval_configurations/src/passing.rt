// The configuration of a module, and what a forward passes on of it.
ghost use Rattle.std.specs.Prelude.{◌≡◌, ◌∷◌, ◌++◌, [], nat_eq, bytes_eq, filter, map, IfOk, OnOk};
ghost use Rattle.std.specs.Option.{option_copied, is_some};
ghost use Rattle.sw_eval_configurations.specs.Loads.{seen, prefix_of};
ghost use Rattle.sw_eval_configurations.specs.Passing.{value_in, has_name, is_null, inner_name, has_variable, lets_through, passed_one, passed_on, passed, value_of, value_passed, has_entry, is_passed, passes, taken_through, taken_by_entries, names_taken, taken_by, and_given};

use crate::loads::{Load, prefix_of};
use std::alloc::Global;
use sw_text::{List, Memory, Name};
use sw_tree::{Filter, Forward, Given as Entry, Member};
use sw_values::{Node, Value};
use sw_world::{Answer, Given};

/// The value that a configuration has for a name.
pub fn value_in<'a>(config: &'a [(Name, Value)], name: &Name) -> Option<&'a Value>
    ensures { option_copied result ≡ value_in config.now name.now }
{
    'config: for one in config {
        if name.same(&one.0) {
            return Some(&one.1);
        }
    }
    None
}

/// Whether a name is among these.
pub fn has_name(names: &[Name], name: &Name) -> bool
    ensures { result ≡ has_name names.now name.now }
{
    names.iter().any(|one| name.same(one))
}

/// Whether a value is null.
pub fn is_null(value: &Value) -> bool
    ensures { result ≡ is_null value.now }
{
    matches!(value.node(), Node::Null)
}

// ---- what a forward passes on

// A name without the prefix that it has.
fn inner_name(alloc: Global, prefix: &Name, name: &Name) -> Result<Option<Name>, Memory>
    ensures { IfOk result (λ inner. inner ≡ inner_name prefix.now name.now) }
{
    if prefix.as_str() == "" {
        return Ok(Some(name.share()?));
    }
    match name.as_str().strip_prefix(prefix.as_str()) {
        Some(rest) => Ok(Some(Name::new(alloc, rest)?)),
        None => Ok(None),
    }
}

fn has_variable(members: &[Member], name: &Name) -> bool
    ensures { result ≡ has_variable members.now name.now }
{
    members
        .iter()
        .any(|one| one.variable && one.name.same(name))
}

fn lets_through(filter: &Filter, name: &Name) -> bool
    ensures { result ≡ lets_through filter.now name.now }
{
    match filter {
        Filter::All => true,
        Filter::Show(members) => has_variable(members.as_slice(), name),
        Filter::Hide(members) => !has_variable(members.as_slice(), name),
    }
}

// A value of the configuration, as it is passed on.
fn passed_one(
    alloc: Global,
    forward: &Forward,
    prefix: &Name,
    one: &(Name, Value),
) -> Result<Option<Given>, Memory>
    requires { prefix.now ≡ prefix_of forward.now }
    ensures { IfOk result (λ given. given ≡ passed_one forward.now one.now) }
{
    if !lets_through(&forward.filter, &one.0) {
        return Ok(None);
    }
    match inner_name(alloc, prefix, &one.0)? {
        None => Ok(None),
        Some(name) => Ok(Some(Given {
            name,
            value: one.1.share()?,
            span: forward.url.span.share()?,
            explicit: false,
        })),
    }
}

fn push_given(passed: &mut List<Given>, one: Option<Given>) -> Result<(), Memory>
    ensures { OnOk result (passed.new ≡ and_given passed.old one) }
{
    match one {
        Some(given) => passed.push(given),
        None => Ok(()),
    }
}

// The values of a configuration that a forward passes on.
fn passed_on(
    alloc: Global,
    config: &[(Name, Value)],
    forward: &Forward,
) -> Result<List<Given>, Memory>
    ensures { IfOk result (λ passed. passed ≡ passed_on config.now forward.now) }
{
    let prefix = prefix_of(alloc, forward)?;
    let mut passed = List::new(alloc);
    'config: for one in config {
        let given = passed_one(alloc, forward, &prefix, one)?;
        push_given(&mut passed, given)?;
    }
    Ok(passed)
}

/// What a load passes on of its module's configuration.
pub fn passed(
    alloc: Global,
    config: &[(Name, Value)],
    load: Load<'_>,
) -> Result<List<Given>, Memory>
    ensures { IfOk result (λ all. all ≡ passed config.now (seen load.entry)) }
{
    match load {
        Load::Use(_) => Ok(List::new(alloc)),
        Load::Forward(forward) => passed_on(alloc, config, forward),
    }
}

// ---- entries with a default

// The value of a name, but for null.
fn value_of<'a>(passed: &'a [Given], name: &Name) -> Option<&'a Value>
    ensures { option_copied result ≡ value_of passed.now name.now }
{
    'passed: for one in passed {
        if name.same(&one.name) {
            if is_null(&one.value) {
                return None;
            }
            return Some(&one.value);
        }
    }
    None
}

/// The value other than null that is passed on for an entry with a default, and goes on in the entry's place.
pub fn value_passed<'a>(passed: &'a [Given], entry: &Entry) -> Option<&'a Value>
    ensures { option_copied result ≡ value_passed passed.now entry.now }
{
    if entry.default {
        value_of(passed, &entry.name)
    } else {
        None
    }
}

// ---- what counts as taken of the forward's own configuration

fn has_entry(entries: &[Entry], name: &Name) -> bool
    ensures { result ≡ has_entry entries.now name.now }
{
    entries.iter().any(|one| one.name.same(name))
}

fn is_passed(passed: &[Given], name: &Name) -> bool
    ensures { result ≡ is_passed passed.now name.now }
{
    passed.iter().any(|one| one.name.same(name))
}

// Whether a value of this name is passed on, and no entry stands for it.
fn passes(passed: &[Given], entries: &[Entry], name: &Name) -> bool
    ensures { result ≡ passes passed.now entries.now name.now }
{
    is_passed(passed, name) && !has_entry(entries, name)
}

fn push_with(
    alloc: Global,
    names: &mut List<Name>,
    prefix: &Name,
    name: &Name,
) -> Result<(), Memory>
    ensures { OnOk result (names.new ≡ names.old ++ (prefix.now ++ name.now) ∷ []) }
{
    if prefix.as_str() == "" {
        return names.push(name.share()?);
    }
    let mut text = String::new(alloc);
    if text.push_str(prefix.as_str()).is_err() || text.push_str(name.as_str()).is_err() {
        return Err(Memory);
    }
    names.push(Name::new(alloc, text.as_str())?)
}

// Puts behind names those that the forwarded module took of what was passed on.
fn push_through(
    alloc: Global,
    names: &mut List<Name>,
    passed: &[Given],
    forward: &Forward,
    taken: &[Name],
) -> Result<(), Memory>
    ensures { OnOk result (names.new ≡ names.old ++ taken_through passed.now forward.now taken.now) }
{
    let prefix = prefix_of(alloc, forward)?;
    'taken: for name in taken {
        if passes(passed, forward.configuration.as_slice(), name) {
            push_with(alloc, names, &prefix, name)?;
        }
    }
    Ok(())
}

// Puts behind names those of entries in whose place another value went on.
fn push_entries(
    alloc: Global,
    names: &mut List<Name>,
    passed: &[Given],
    forward: &Forward,
) -> Result<(), Memory>
    ensures { OnOk result (names.new ≡ names.old ++ taken_by_entries passed.now forward.now) }
{
    let prefix = prefix_of(alloc, forward)?;
    let entries = forward.configuration.as_slice();
    'entries: for entry in entries {
        if value_passed(passed, entry).is_some() {
            push_with(alloc, names, &prefix, &entry.name)?;
        }
    }
    Ok(())
}

fn names_taken(
    alloc: Global,
    passed: &[Given],
    forward: &Forward,
    taken: &[Name],
) -> Result<List<Name>, Memory>
    ensures { IfOk result (λ names. names ≡ names_taken passed.now forward.now taken.now) }
{
    let mut names = List::new(alloc);
    push_through(alloc, &mut names, passed, forward, taken)?;
    push_entries(alloc, &mut names, passed, forward)?;
    Ok(names)
}

/// The names that a load takes of its module's configuration, by its answer.
pub fn taken_by(
    alloc: Global,
    config: &[(Name, Value)],
    load: Load<'_>,
    answer: &Answer,
) -> Result<List<Name>, Memory>
    ensures { IfOk result (λ names. names ≡ taken_by config.now (seen load.entry) answer.now) }
{
    match (load, answer) {
        (Load::Forward(forward), Answer::Loaded { taken, .. }) => {
            let passed = passed_on(alloc, config, forward)?;
            names_taken(alloc, passed.as_slice(), forward, taken.get().as_slice())
        }
        _ => Ok(List::new(alloc)),
    }
}
