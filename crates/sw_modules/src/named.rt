// Kept variables that are named and valued so still, told of all of a module at once.
ghost use Rattle.std.specs.Prelude.{◌≡◌, ℕ, List, false, Some, bytes_eq, slice_get, IfSome};
ghost use Rattle.std.specs.Bool.{OnTrue};
ghost use Rattle.std.specs.List.{All};
ghost use Rattle.std.specs.Map.{lookup};
ghost use Rattle.sw_text.specs.Names.{is_private};
ghost use Rattle.sw_tree.specs.declared.callable.Kind.TheVariants.{Variable};
ghost use Rattle.sw_values.specs.declared.plain.Plain.{Plain};
ghost use Rattle.sw_world.specs.Body.{Pair};
ghost use Rattle.sw_world.specs.Named.{IsNamed};
ghost use Rattle.sw_modules.specs.Names.{found, public_of};
ghost use Rattle.sw_modules.specs.Outside.{IsAnswer, IsPublic};

use crate::built_ins::is_sass;
use crate::live::Recent;
use crate::loads::is_innermost;
use crate::{Live, Uses, Variables};
use sw_values::Value;
use sw_world::{NamedVariables, Table};

impl<'a> Live<'a> {
    /// True only where all questions that these variables stand for are answered so. No answer is made, so what is
    /// false may be answered so all the same. Takes no memory.
    pub fn confirms_named(&mut self, named: &NamedVariables) -> bool
        ensures answers { OnTrue result ((pair : Pair) → IsNamed named.now pair → IsAnswer self.old pair.0 pair.1) }
        ensures same { self.new ≡ self.old }
    {
        match self.place_named(named) {
            None => false,
            Some(recent) => {
                self.recent = recent;
                true
            }
        }
    }

    // Where the variables are found, if they are.
    fn place_named(&self, named: &NamedVariables) -> Option<Recent>
        ensures { IfSome result (λ _. (pair : Pair) → IsNamed named.now pair → IsAnswer self.now pair.0 pair.1) }
    {
        if is_sass(named.path.as_str()) {
            return None;
        }
        let Some(near) = self.place_behind(named) else {
            return None;
        };
        let Some((module, held)) = self.loaded().find(&named.path, near.module) else {
            return None;
        };
        let first = first_place(&held.variables, &named.values, near.variable);
        if holds_all(&held.variables, &named.values, first) {
            Some(Recent {
                space: near.space,
                module,
                variable: first,
            })
        } else {
            None
        }
    }

    // Where the namespace stands for the module, in the module that names the variables.
    #[tactic(auto, using(crate::proofs::Confirming::behind_innermost, crate::proofs::Confirming::behind_loaded))]
    fn place_behind(&self, named: &NamedVariables) -> Option<Recent>
        ensures { IfSome result (λ _. (name : List ℕ) → found self.now named.now.site (Some named.now.space) Variable name
            ≡ public_of self.now Variable name named.now.path) }
    {
        if is_innermost(self.opened(), &named.site) {
            return match self.opened().last() {
                None => None,
                Some(load) => self.place_among(&load.uses, named),
            };
        }
        match self.loaded().find(&named.site, self.recent.module) {
            None => None,
            Some((_, held)) => self.place_among(&held.uses, named),
        }
    }

    fn place_among(&self, uses: &Uses, named: &NamedVariables) -> Option<Recent>
        ensures { IfSome result (λ _. lookup (bytes_eq named.now.space) uses.now.named ≡ Some named.now.path) }
    {
        match uses.named.find(&named.space, self.recent.space) {
            None => None,
            Some((space, used)) => {
                if used.path().same(&named.path) {
                    Some(Recent {
                        space,
                        module: used.near,
                        variable: self.recent.variable,
                    })
                } else {
                    None
                }
            }
        }
    }
}

// The place of the first of these variables, which is a guess: where that of the module before it was.
fn first_place(variables: &Variables, values: &Table<Value>, near: usize) -> usize {
    match values.at(0) {
        None => near,
        Some((name, _)) => match variables.find(name, near) {
            None => near,
            Some((place, _)) => place,
        },
    }
}

// Whether all of these are public variables with these values. The first is looked for near a place.
fn holds_all(variables: &Variables, values: &Table<Value>, first: usize) -> bool
    ensures { OnTrue result (All (IsPublic variables.now) values.now) }
{
    let mut near = first;
    for place in 0..values.len() {
        match holds_at(variables, values, place, near) {
            None => return false,
            Some(next) => near = next,
        }
    }
    true
}

// The place behind that of a public variable, where it has the value of the entry at a place.
fn holds_at(
    variables: &Variables,
    values: &Table<Value>,
    place: usize,
    near: usize,
) -> Option<usize>
    ensures { IfSome result (λ _. (variable : List ℕ × Plain) → slice_get values.now place ≡ Some variable
        → IsPublic variables.now variable) }
{
    let Some((name, value)) = values.at(place) else {
        return None;
    };
    if name.is_private() {
        return None;
    }
    let Some((found, there)) = variables.find(name, near) else {
        return None;
    };
    if there.same(value) {
        Some(found.saturating_add(1))
    } else {
        None
    }
}
