// The parts of a load.
ghost use Rattle.std.specs.Prelude.{◌≡◌, ◌<◌, ◌&&◌, ◌∷◌, [], not, length, bytes_eq, IfOk, OnOk, OnErr, None, Some};
ghost use Rattle.std.specs.List.{list_any};
ghost use Rattle.std.specs.Map.{lookup};
ghost use Rattle.std.specs.Option.{option_copied, option_map};
ghost use Rattle.sw_modules.specs.State.{below, changed_at, path_in, uses_in, with_use};
ghost use Rattle.sw_modules.specs.Uses.{is_taken, no_uses, with_one, uses_counts, first_uses};
ghost use Rattle.sw_modules.specs.Loads.{refused, is_open, config_of, is_explicit, first_explicit, first_untaken};

use crate::uses::Source;
use crate::{Counts, Entry, Opened, UsesCounts};
use std::alloc::Global;
use sw_text::{Fault, FaultCode, List, Memory, Name, Shared, Span};
use sw_world::{Answer, Config, Given, How, Table};

/// The answer that a load is refused at a place.
pub(crate) fn refused(code: FaultCode, span: &Span) -> Result<Answer, Memory>
    ensures { IfOk result (λ answer. answer ≡ refused code span.now) }
{
    Ok(Answer::Refused(Fault {
        code,
        span: span.share()?,
    }))
}

pub(crate) fn is_open(opened: &[Opened], path: &Name) -> bool
    ensures { result ≡ is_open opened.now path.now }
{
    opened.iter().any(|load| load.path.same(path))
}

pub(crate) fn is_innermost(opened: &[Opened], path: &Name) -> bool
    ensures { result ≡ bytes_eq path.now (path_in opened.now) }
{
    match opened.last() {
        Some(load) => path.same(&load.path),
        None => path.as_str() == "",
    }
}

/// Whether a use brings the innermost open load a namespace that stands for a module already, or a member that another
/// forward brought from elsewhere.
pub(crate) fn takes(opened: &[Opened], how: &How, brought: &[Entry]) -> bool
    ensures { result ≡ is_taken how.now brought.now (uses_in opened.now) }
{
    match opened.last() {
        Some(load) => load.uses.takes(how, brought),
        None => none_takes(how, brought),
    }
}

fn none_takes(how: &How, brought: &[Entry]) -> bool
    ensures { result ≡ is_taken how.now brought.now no_uses }
{
    let _how = how;
    let _brought = brought;
    false
}

/// The innermost open load uses a module too. After `Memory` the uses are as before.
pub(crate) fn add_use(opened: &mut [Opened], how: &How, source: Source) -> Result<(), Memory>
    ensures ok { OnOk result (opened.new ≡ with_use how.now source.path source.brought opened.old) }
    ensures err { OnErr result (opened.new ≡ opened.old) }
    ensures same_count { length opened.new ≡ length opened.old }
{
    let count = opened.len();
    if count > 0 {
        let load = &mut opened[count - 1];
        load.uses.add(how, source)?;
    }
    Ok(())
}

/// How many uses the innermost open load has.
pub(crate) fn counts(opened: &[Opened]) -> UsesCounts
    ensures { result ≡ uses_counts (uses_in opened.now) }
{
    match opened.last() {
        Some(load) => load.uses.counts(),
        None => no_counts(),
    }
}

fn no_counts() -> UsesCounts
    ensures { result ≡ uses_counts no_uses }
{
    UsesCounts {
        named: 0,
        stars: 0,
        forwarded: Counts {
            variables: 0,
            functions: 0,
            mixins: 0,
        },
    }
}

/// The open loads without the innermost one.
pub(crate) fn below(opened: &[Opened]) -> &[Opened]
    ensures { result.now ≡ below opened.now }
{
    &opened[..opened.len().saturating_sub(1)]
}

/// The open load at a place uses a module too. After `Memory` the uses are as before.
pub(crate) fn use_at(
    opened: &mut Vec<Opened>,
    at: usize,
    how: &How,
    source: Source,
) -> Result<(), Memory>
    requires { at < length opened.old.items }
    ensures ok { OnOk result (opened.new.items
        ≡ changed_at at (with_one how.now source.path source.brought) opened.old.items) }
    ensures err { OnErr result (opened.new.items ≡ opened.old.items) }
    ensures same_count { length opened.new.items ≡ length opened.old.items }
{
    let load = &mut opened[at];
    load.uses.add(how, source)
}

/// The open load at a place keeps the first uses of each kind.
pub(crate) fn truncate_at(opened: &mut Vec<Opened>, at: usize, counts: UsesCounts)
    requires { at < length opened.old.items }
    ensures after { opened.new.items ≡ changed_at at (first_uses counts) opened.old.items }
    ensures same_count { length opened.new.items ≡ length opened.old.items }
{
    let load = &mut opened[at];
    load.uses.truncate(counts);
}

pub(crate) fn is_explicit(config: &[Given]) -> bool
    ensures { result ≡ is_explicit config.now }
{
    config.iter().any(|given| given.explicit)
}

/// The first value that a `with` gives.
pub(crate) fn first_explicit(config: &[Given]) -> Option<&Given>
    ensures { option_copied result ≡ first_explicit config.now }
{
    'given: for one in config {
        if one.explicit {
            return Some(one);
        }
    }
    None
}

/// The names and values of a configuration.
pub(crate) fn config_of(alloc: Global, given: &[Given]) -> Result<Config, Memory>
    ensures { IfOk result (λ config. config ≡ config_of given.now) }
{
    let mut table = Table::new(alloc);
    for one in given {
        table.add(one.name.share()?, one.value.share()?)?;
    }
    Shared::new(alloc, table.into_list(alloc)?)
}

/// The first name that a `with` gives and that isn't taken.
pub(crate) fn first_untaken<'g>(given: &'g [Given], taken: &[Name]) -> Option<&'g Given>
    ensures { option_copied result ≡ first_untaken given.now taken.now }
{
    for one in given {
        if one.explicit && !has_name(taken, &one.name) {
            return Some(one);
        }
    }
    None
}

fn has_name(names: &[Name], name: &Name) -> bool
    ensures { result ≡ list_any (bytes_eq name.now) names.now }
{
    names.iter().any(|other| name.same(other))
}

/// The same names, shared.
pub fn share_names(alloc: Global, names: &[Name]) -> Result<Shared<List<Name>>, Memory>
    ensures { IfOk result (λ all. all ≡ names.now) }
{
    let mut all = List::new(alloc);
    for name in names {
        all.push(name.share()?)?;
    }
    Shared::new(alloc, all)
}
