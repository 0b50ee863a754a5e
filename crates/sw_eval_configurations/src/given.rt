// The values that a load gives.
ghost use Rattle.std.specs.Prelude.{◌≡◌, IfOk};
ghost use Rattle.sw_eval_configurations.specs.Passing.{given_of};

use std::alloc::Global;
use sw_text::{List, Memory};
use sw_tree::Given as Entry;
use sw_values::Value;
use sw_world::Given;

/// The same values, each part with one more owner.
pub fn share_given(alloc: Global, all: &[Given]) -> Result<List<Given>, Memory>
    ensures { IfOk result (λ copy. copy ≡ all.now) }
{
    let mut copy = List::new(alloc);
    for one in all {
        let given = Given {
            name: one.name.share()?,
            value: one.value.share()?,
            span: one.span.share()?,
            explicit: one.explicit,
        };
        copy.push(given)?;
    }
    Ok(copy)
}

/// What an entry of a `with` gives, which has this value.
pub fn given_of(entry: &Entry, value: Value) -> Result<Given, Memory>
    ensures { IfOk result (λ given. given ≡ given_of entry.now value) }
{
    Ok(Given {
        name: entry.name.share()?,
        value,
        span: entry.name_span.share()?,
        explicit: true,
    })
}
