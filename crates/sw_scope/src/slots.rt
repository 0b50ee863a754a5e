// Which argument fills which parameter.
ghost use Rattle.std.specs.Prelude.{◌≡◌, length, IfOk};
ghost use Rattle.std.specs.Option.{is_some, option_copied};
ghost use Rattle.sw_scope.specs.Bind.{argument, slot_of, slots_from, is_filled, are_filled, named_value};

use crate::table::Table;
use std::alloc::Global;
use sw_text::{List, Memory, Name};
use sw_tree::Param;
use sw_values::Value;

/// What fills a parameter.
#[derive(Drop)]
pub enum Slot {
    /// This argument.
    Filled(Value),
    /// The default of the parameter at this place, counted from 0.
    Default(usize),
}

/// The parameters in their order, each with what fills it. The one of the rest is the last.
pub type Slots = List<(Name, Slot)>;

pub(crate) fn filled_slots(
    alloc: Global,
    params: &[Param],
    items: &[Value],
    named: &Table,
) -> Result<Slots, Memory>
    ensures { IfOk result (λ slots. slots ≡ slots_from 0 params.now items.now named.now) }
{
    let mut slots = List::new(alloc);
    'params: for at in 0..params.len() {
        let param = &params[at];
        let slot = slot_of(at, argument(at, &param.name, items, named))?;
        slots.push((param.name.share()?, slot))?;
    }
    Ok(slots)
}

// The argument at the place of a parameter, else that of its name.
fn argument<'a>(at: usize, name: &Name, items: &'a [Value], named: &'a Table) -> Option<&'a Value>
    ensures { option_copied result ≡ argument at name.now items.now named.now }
{
    match items.get(at) {
        Some(value) => Some(value),
        None => named.get(name),
    }
}

fn slot_of(at: usize, value: Option<&Value>) -> Result<Slot, Memory>
    ensures { IfOk result (λ slot. slot ≡ slot_of at (option_copied value.entry)) }
{
    match value {
        Some(value) => Ok(Slot::Filled(value.share()?)),
        None => Ok(Slot::Default(at)),
    }
}

// Whether one argument fills each parameter, or it has a default.
pub(crate) fn are_filled(params: &[Param], count: usize, named: &Table) -> bool
    ensures { result ≡ are_filled 0 params.now count named.now }
{
    'params: for at in 0..params.len() {
        let param = &params[at];
        if !is_filled(at < count, named.has(&param.name), param.default.is_some()) {
            return false;
        }
    }
    true
}

fn is_filled(by_place: bool, by_name: bool, default: bool) -> bool
    ensures { result ≡ is_filled by_place by_name default }
{
    if by_place {
        !by_name
    } else {
        by_name || default
    }
}
