// The texts of compounds and combinators.
ghost use Rattle.std.specs.Prelude.{◌≡◌, ◌∷◌, ◌++◌, [], IfOk, OnOk};
ghost use Rattle.std.specs.String.{string_bytes};
ghost use Rattle.sw_selector.specs.Writing.{closed, signed, unit_step, units_of, all_units};

use crate::write::write_part;
use crate::{Combinator, Complex, Part, Selectors};
use std::alloc::Global;
use sw_text::{List, Memory, Name};

impl Selectors {
    /// The texts of the compounds and combinators of each complex selector in order. White space between compounds has
    /// none.
    pub fn parts(&self, alloc: Global) -> Result<List<List<Name>>, Memory>
        ensures { IfOk result (λ texts. texts ≡ all_units [] self.now) }
    {
        all_units(alloc, self.as_slice())
    }
}

fn all_units(alloc: Global, list: &[Complex]) -> Result<List<List<Name>>, Memory>
    ensures { IfOk result (λ texts. texts ≡ all_units [] list.now) }
{
    let mut out = List::new(alloc);
    'list: for complex in list {
        let units = units_of(alloc, complex.as_slice())?;
        out.push(units)?;
    }
    Ok(out)
}

#[tactic(auto, unfolding(crate::specs::Writing::units_of))]
fn units_of(alloc: Global, complex: &[Part]) -> Result<List<Name>, Memory>
    ensures { IfOk result (λ units. units ≡ units_of complex.now) }
{
    let mut list = List::new(alloc);
    let mut compound = String::new(alloc);
    'parts: for part in complex {
        push_unit(alloc, &mut list, &mut compound, part)?;
    }
    close(alloc, &mut list, &compound)?;
    Ok(list)
}

// Ends the compound at hand, if there is one.
fn close(alloc: Global, list: &mut List<Name>, compound: &String) -> Result<(), Memory>
    ensures { OnOk result (list.new ≡ closed list.old (string_bytes compound.now)) }
{
    if compound.is_empty() {
        return Ok(());
    }
    let name = Name::new(alloc, compound.as_str())?;
    list.push(name)
}

fn push_sign(alloc: Global, list: &mut List<Name>, combinator: Combinator) -> Result<(), Memory>
    ensures { OnOk result (list.new ≡ signed list.old combinator) }
{
    match combinator {
        Combinator::Descendant => Ok(()),
        Combinator::Child => push_text(alloc, list, ">"),
        Combinator::Next => push_text(alloc, list, "+"),
        Combinator::Subsequent => push_text(alloc, list, "~"),
    }
}

fn push_text(alloc: Global, list: &mut List<Name>, text: &str) -> Result<(), Memory>
    ensures { OnOk result (list.new ≡ list.old ++ text.now ∷ []) }
{
    let name = Name::new(alloc, text)?;
    list.push(name)
}

#[tactic(auto, unfolding(crate::specs::Writing::unit_step))]
fn push_unit(
    alloc: Global,
    list: &mut List<Name>,
    compound: &mut String,
    part: &Part,
) -> Result<(), Memory>
    ensures { OnOk result (record { list = list.new; compound = string_bytes compound.new }
        ≡ unit_step list.old (string_bytes compound.old) part.now) }
{
    match part {
        Part::Combinator(combinator) => {
            close(alloc, list, compound)?;
            push_sign(alloc, list, *combinator)?;
            compound.clear();
            Ok(())
        }
        _ => write_part(alloc, compound, false, part),
    }
}
