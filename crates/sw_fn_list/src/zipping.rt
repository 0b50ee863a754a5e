// The items of lists at the same places.
ghost use Rattle.std.specs.Prelude.{◌≡◌, ◌++◌, ◌∷◌, [], map, slice_get, option_to_list, IfOk, OnOk};
ghost use Rattle.std.specs.List.{filter_map};
ghost use Rattle.sw_fn_call.specs.Answers.{IsAnswer};
ghost use Rattle.sw_fn_list.specs.Items.{items_of};
ghost use Rattle.sw_fn_list.specs.Joining.{shortest_from, shortest, row as row_of, rows_from, zipped as zipped_list, zip};

use crate::items::items;
use std::alloc::Global;
use sw_fn_call::{Argument, FnFault, list, one, rest};
use sw_text::{List, Memory};
use sw_values::{Separator, Value};

// The items of each list.
fn columns(alloc: Global, lists: &[Value]) -> Result<List<List<Value>>, Memory>
    ensures { IfOk result (λ columns. columns ≡ map items_of lists.now) }
{
    let mut all = List::new(alloc);
    'lists: for at in 0..lists.len() {
        all.push(items(alloc, &lists[at])?)?;
    }
    Ok(all)
}

fn shortest_from(length: usize, columns: &[List<Value>]) -> usize
    ensures { result ≡ shortest_from length columns.now }
{
    let mut least = length;
    'columns: for at in 0..columns.len() {
        least = least.min(columns[at].len());
    }
    least
}

// How many items the shortest of some lists has.
fn shortest(columns: &[List<Value>]) -> usize
    ensures { result ≡ shortest columns.now }
{
    match columns {
        [] => 0,
        [first, others @ ..] => shortest_from(first.len(), others),
    }
}

fn push_at(all: &mut List<Value>, column: &List<Value>, at: usize) -> Result<(), Memory>
    ensures { OnOk result (all.new ≡ all.old ++ option_to_list (slice_get column.now at)) }
{
    match column.get(at) {
        Some(item) => all.push(item.share()?),
        None => Ok(()),
    }
}

fn row_items(alloc: Global, columns: &[List<Value>], at: usize) -> Result<List<Value>, Memory>
    ensures { IfOk result (λ items. items ≡ filter_map (λ column. slice_get column at) columns.now) }
{
    let mut all = List::new(alloc);
    'columns: for number in 0..columns.len() {
        push_at(&mut all, &columns[number], at)?;
    }
    Ok(all)
}

// The items at a place, with a space between. They are no heavier and no deeper than the argument list of all lists, so
// their list is never too large.
fn row(alloc: Global, columns: &[List<Value>], at: usize) -> Result<Value, Memory>
    ensures { IfOk result (λ row. row ≡ row_of columns.now at) }
{
    let all = row_items(alloc, columns, at)?;
    match list(alloc, all, Separator::Space, false) {
        Ok(row) => Ok(row),
        Err(_) => Err(Memory),
    }
}

fn rows(alloc: Global, columns: &[List<Value>], count: usize) -> Result<List<Value>, Memory>
    ensures { IfOk result (λ rows. rows ≡ rows_from columns.now 0 count) }
{
    let mut all = List::new(alloc);
    'rows: for at in 0..count {
        all.push(row(alloc, columns, at)?)?;
    }
    Ok(all)
}

fn zipped(alloc: Global, lists: &[Value]) -> Result<Value, FnFault>
    ensures { IsAnswer result (zipped_list lists.now) }
{
    let columns = columns(alloc, lists)?;
    let all = rows(alloc, columns.as_slice(), shortest(columns.as_slice()))?;
    list(alloc, all, Separator::Comma, false)
}

pub(crate) fn zip(alloc: Global, args: &[Argument]) -> Result<Value, FnFault>
    ensures { IsAnswer result (zip args.now) }
{
    let value = one(args)?;
    let lists = rest(value)?;
    zipped(alloc, lists)
}
