// The outcome of a compile without kept runs.
ghost use Rattle.std.specs.Prelude.{◌≡◌, ◌++◌, ◌∷◌, [], map, take, IfOk};
ghost use Rattle.sw_css_print.specs.Parts.{print_one};
ghost use Rattle.sw_modules.specs.Loads.{left_by};
ghost use Rattle.sw_step_bodies.specs.Compiled.{outcome_of};

use std::alloc::Global;
use sw_css_print::{Printed, join, print_one};
use sw_modules::Live;
use sw_record::Outcome;
use sw_text::{List, Memory, Shared};
use sw_world::{End, Finish};

/// The outcome of a compile in this state, whose entry ended so.
pub(crate) fn outcome_of(alloc: Global, live: &Live<'_>, end: End) -> Result<Outcome, Memory>
    ensures { IfOk result (λ outcome. outcome ≡ outcome_of end (left_by end live.now).outputs) }
{
    match end {
        End::Done(finish) => {
            let mut parts = parts_of(alloc, live.ended())?;
            let printed = print_one(alloc, finish.get().css.get())?;
            parts.push(Shared::new(alloc, printed)?)?;
            let bytes = join(alloc, parts.as_slice())?;
            Ok(Outcome::Css(List::from_vec(bytes)))
        }
        End::Fault(fault) => Ok(Outcome::Error(fault)),
    }
}

/// The printed outputs of bodies that ended.
fn parts_of(alloc: Global, ended: &[Shared<Finish>]) -> Result<Vec<Shared<Printed>>, Memory>
    ensures { IfOk result (λ parts. parts.items ≡ map (λ finish. print_one finish.css) ended.now) }
{
    let mut parts = Vec::new(alloc);
    for finish in ended {
        let printed = print_one(alloc, finish.get().css.get())?;
        parts.push(Shared::new(alloc, printed)?)?;
    }
    Ok(parts)
}
