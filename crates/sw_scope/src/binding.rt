// Binding the arguments of a call to parameters.
ghost use Rattle.std.specs.Prelude.{◌≡◌, [], ◌++◌, drop, true, false, IfOk, MatchOption, MatchResult};
ghost use Rattle.sw_values.specs.declared.plain.Plain.TheVariants as P;
ghost use Rattle.sw_values.specs.declared.value.Node.TheVariants as N;
ghost use Rattle.sw_values.specs.Shape.{plain_of};
ghost use Rattle.sw_values.specs.Weight.{is_within};
ghost use Rattle.sw_scope.specs.Bind.{are_apart, names_after, named_left, left_named, takes_left, accepts, rest_value, rest_slot, IsBound, IsBindFault, IsRestFault, IsRestWithin, IsSlotFault};

use crate::fault::BindFault;
use crate::passed::{Passed, pass_items};
use crate::slots::{Slot, Slots, are_filled, filled_slots};
use crate::table::Table;
use indexmap::IndexSet;
use std::alloc::Global;
use sw_text::{List, Memory, Name, Shared};
use sw_tree::{Param, Params};
use sw_values::{Node, Value};

/// Which argument fills which parameter. Names are looked up in tables, so it takes a time in proportion to the
/// parameters and the arguments.
pub fn bind(alloc: Global, params: &Params, passed: &Passed) -> Result<Slots, BindFault>
    ensures { MatchResult result (IsBound params.now passed.now) (IsBindFault params.now passed.now) }
{
    let Some(named) = named_table(alloc, passed.named.as_slice())? else {
        return Err(BindFault::ArgumentFault);
    };
    let left = left_named(alloc, params.items.as_slice(), passed.named.as_slice())?;
    if !accepts(params, passed, &named, &left) {
        return Err(BindFault::ArgumentFault);
    }
    let slots = filled_slots(
        alloc,
        params.items.as_slice(),
        passed.items.as_slice(),
        &named,
    )?;
    with_rest(alloc, params, passed, left, slots)
}

// The named arguments by their names; none where a name is there twice.
fn named_table(alloc: Global, named: &[(Name, Value)]) -> Result<Option<Table>, Memory>
    ensures { IfOk result (λ known. MatchOption known (are_apart [] named.now ≡ false)
        (λ table. (are_apart [] named.now ≡ true) × (table ≡ named.now))) }
{
    let mut table = Table::new(alloc);
    'named: for at in 0..named.len() {
        let variable = &named[at];
        if table.has(&variable.0) {
            return Ok(None);
        }
        table.add(variable.0.share()?, variable.1.share()?)?;
    }
    Ok(Some(table))
}

// The named arguments that are no parameter's.
fn left_named(
    alloc: Global,
    params: &[Param],
    named: &[(Name, Value)],
) -> Result<List<(Name, Value)>, Memory>
    ensures { IfOk result (λ left. left ≡ named_left (names_after [] params.now) named.now) }
{
    if named.is_empty() {
        return Ok(List::new(alloc));
    }
    let names = names_of(alloc, params)?;
    named_left(alloc, &names, named)
}

// The names of parameters.
fn names_of(alloc: Global, params: &[Param]) -> Result<IndexSet<Name>, Memory>
    ensures { IfOk result (λ names. names.keys ≡ names_after [] params.now) }
{
    let mut names = IndexSet::new(alloc);
    'params: for param in params {
        names.insert(param.name.share()?)?;
    }
    Ok(names)
}

fn named_left(
    alloc: Global,
    names: &IndexSet<Name>,
    named: &[(Name, Value)],
) -> Result<List<(Name, Value)>, Memory>
    ensures { IfOk result (λ left. left ≡ named_left names.now.keys named.now) }
{
    let mut left = List::new(alloc);
    'named: for at in 0..named.len() {
        let variable = &named[at];
        if !names.contains(&variable.0) {
            left.push((variable.0.share()?, variable.1.share()?))?;
        }
    }
    Ok(left)
}

// Whether the parameters take the arguments, of which no name is there twice.
#[tactic(auto, unfolding(crate::specs::Bind::accepts))]
fn accepts(params: &Params, passed: &Passed, named: &Table, left: &List<(Name, Value)>) -> bool
    requires named { named.now ≡ passed.now.named }
    requires apart { are_apart [] passed.now.named ≡ true }
    requires left { left.now ≡ left_named params.now passed.now }
    ensures { result ≡ accepts params.now passed.now }
{
    !passed.faulty
        && are_filled(params.items.as_slice(), passed.items.len(), named)
        && takes_left(params, passed, left)
}

// Whether the parameter of the rest takes what is left, or nothing is.
fn takes_left(params: &Params, passed: &Passed, left: &List<(Name, Value)>) -> bool
    requires { left.now ≡ left_named params.now passed.now }
    ensures { result ≡ takes_left params.now passed.now }
{
    params.rest.is_some() || (passed.items.len() <= params.items.len() && left.is_empty())
}

// The slots, and behind them that of the rest.
fn with_rest(
    alloc: Global,
    params: &Params,
    passed: &Passed,
    left: List<(Name, Value)>,
    mut slots: Slots,
) -> Result<Slots, BindFault>
    requires { left ≡ left_named params.now passed.now }
    ensures { let rest = rest_value params.now passed.now in
        MatchResult result (λ all. (all ≡ slots ++ rest_slot params.now.rest rest) × IsRestWithin params.now.rest rest)
        (IsSlotFault params.now passed.now) }
{
    let Some(name) = &params.rest else {
        return Ok(slots);
    };
    let value = rest_value(alloc, params.items.len(), passed.items.as_slice(), left)?;
    slots.push((name.share()?, Slot::Filled(value)))?;
    Ok(slots)
}

// The argument list of the rest.
fn rest_value(
    alloc: Global,
    count: usize,
    items: &[Value],
    left: List<(Name, Value)>,
) -> Result<Value, BindFault>
    ensures { let rest = P.Args (drop count items.now) left in
        MatchResult result (λ value. (value ≡ rest) × (is_within rest ≡ true)) (IsRestFault rest) }
{
    match rest_node(alloc, count, items, left) {
        Ok(node) => kept(node),
        Err(_) => Err(BindFault::Memory),
    }
}

fn rest_node(
    alloc: Global,
    count: usize,
    items: &[Value],
    left: List<(Name, Value)>,
) -> Result<Node, Memory>
    ensures { IfOk result (λ node. node ≡ N.Args (drop count items.now) left) }
{
    let items = Shared::new(alloc, items_behind(alloc, count, items)?)?;
    let named = Shared::new(alloc, left)?;
    Ok(Node::Args { items, named })
}

fn items_behind(alloc: Global, count: usize, items: &[Value]) -> Result<List<Value>, Memory>
    ensures { IfOk result (λ list. list ≡ drop count items.now) }
{
    let mut list = List::new(alloc);
    if count < items.len() {
        pass_items(&mut list, &items[count..])?;
    }
    Ok(list)
}

// The value of a node, which may be too large.
fn kept(node: Node) -> Result<Value, BindFault>
    ensures { let rest = plain_of node in
        MatchResult result (λ value. (value ≡ rest) × (is_within rest ≡ true)) (IsRestFault rest) }
{
    match Value::of(node) {
        Ok(value) => Ok(value),
        Err(_) => Err(BindFault::TooLarge),
    }
}
