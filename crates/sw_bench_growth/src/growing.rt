// Lists and maps of whole numbers.
ghost use Rattle.std.specs.Prelude.{◌≡◌, IfOk, true};
ghost use Rattle.sw_values.specs.Growing.{is_list, is_map};

use std::alloc::Global;
use sw_fn_call::count;
use sw_values::{Separator, Value, ValueFault, list_of, map_of};

/// The list of the whole numbers below `number`, put in one by one.
pub fn grown_list(alloc: Global, number: u32) -> Result<Value, ValueFault>
    ensures { IfOk result (λ value. is_list value ≡ true) }
{
    let mut list = list_of(alloc, &[], Separator::Comma, false)?;
    'items: for at in 0..number {
        list = list.push_item(alloc, count(at as usize), Separator::Comma)?;
    }
    Ok(list)
}

/// The map whose keys are the whole numbers below `number`, each set by itself.
pub fn grown_map(alloc: Global, number: u32) -> Result<Value, ValueFault>
    ensures { IfOk result (λ value. is_map value ≡ true) }
{
    let mut map = map_of(alloc, &[])?;
    'keys: for at in 0..number {
        let key = count(at as usize);
        map = map.set_key(alloc, &key, &key)?;
    }
    Ok(map)
}
