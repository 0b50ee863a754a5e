// Kept answers that are given still, told without making an answer.
ghost use Rattle.std.specs.Prelude.{◌≡◌, ℕ, List, [], true, false, Some, IfSome};
ghost use Rattle.std.specs.Bool.{OnTrue};
ghost use Rattle.std.specs.Option.{option_copied};
ghost use Rattle.sw_modules.specs.Names.{found, value_of, is_member, built_in_member, own_member, loaded_member, member_of, public_of, used_member};
ghost use Rattle.sw_modules.specs.Outside.{IsAnswer};

use crate::built_ins::is_sass;
use crate::live::Recent;
use crate::loads::is_innermost;
use crate::names::has_own;
use crate::{Live, Module, Uses};
use sw_builtins::{Found as Meaning, find};
use sw_text::{Name, Shared};
use sw_tree::{Callable, Kind};
use sw_values::Value;
use sw_world::{Answer, Question};

/// A name of a kind, and what was answered of it.
#[derive(Clone, Copy, Drop)]
struct Named<'n> {
    kind: Kind,
    name: &'n Name,
    kept: &'n Answer,
}

impl<'a> Live<'a> {
    /// True only where the question is one for a name or for a value, and is answered so. The answer isn't made, so
    /// what is false may be answered so all the same. Takes no memory.
    pub fn confirms(&mut self, op: &Question, kept: &Answer) -> bool
        ensures answer { OnTrue result (IsAnswer self.old op.now kept.now) }
        ensures same { self.new ≡ self.old }
    {
        match self.place_of(op, kept) {
            None => false,
            Some(recent) => {
                self.recent = recent;
                true
            }
        }
    }

    // Where a kept answer is found, if it is.
    #[inline(always)]
    fn place_of(&self, op: &Question, kept: &Answer) -> Option<Recent>
        ensures { IfSome result (λ _. IsAnswer self.now op.now kept.now) }
    {
        match (op, kept) {
            (
                Question::Find {
                    site,
                    space,
                    kind,
                    name,
                },
                _,
            ) => {
                let named = Named {
                    kind: *kind,
                    name,
                    kept,
                };
                self.place_found(site, space, named)
            }
            (Question::Get { owner, name }, Answer::Value(value)) => self.place_held(
                owner, name, value,
            ),
            _ => None,
        }
    }

    // Where the variable of a module has this value.
    #[inline(always)]
    fn place_held(&self, owner: &Name, name: &Name, value: &Value) -> Option<Recent>
        ensures { IfSome result (λ _. value_of self.now owner.now name.now ≡ value.now) }
    {
        match self.loaded().find(owner, self.recent.module) {
            None => None,
            Some((module, held)) => match held.variables.find(name, self.recent.variable) {
                None => None,
                Some((variable, there)) => {
                    if !there.same(value) {
                        return None;
                    }
                    Some(Recent {
                        space: self.recent.space,
                        module,
                        variable,
                    })
                }
            },
        }
    }

    #[inline(always)]
    fn place_found(&self, site: &Name, space: &Option<Name>, named: Named<'_>) -> Option<Recent>
        ensures { IfSome result (λ _.
            found self.now site.now space.now named.entry.kind named.entry.name.now ≡ named.entry.kept.now) }
    {
        if is_innermost(self.opened(), site) {
            return match self.opened().last() {
                None => None,
                Some(load) => self.place_used(&load.uses, space, named),
            };
        }
        match self.loaded().find(site, self.recent.module) {
            None => None,
            Some(at) => self.place_loaded(at, site, space, named),
        }
    }

    // `at` is a loaded module and its place.
    #[inline(always)]
    fn place_loaded(
        &self,
        at: (usize, &Module),
        site: &Name,
        space: &Option<Name>,
        named: Named<'_>,
    ) -> Option<Recent>
        ensures { IfSome result (λ _. loaded_member self.now site.now (Some at.entry.1.now) space.now named.entry.kind
            named.entry.name.now ≡ named.entry.kept.now) }
    {
        match space {
            None => {
                let near = Recent {
                    space: self.recent.space,
                    module: at.0,
                    variable: self.recent.variable,
                };
                match named.kept {
                    Answer::NoMember => place_missing(at.1, near, named),
                    _ => place_own(at.1, site, near, named),
                }
            }
            Some(_) => self.place_used(&at.1.uses, space, named),
        }
    }

    // Without a namespace only that no module is used `as *`, so that the name means nothing.
    #[inline(always)]
    fn place_used(&self, uses: &Uses, space: &Option<Name>, named: Named<'_>) -> Option<Recent>
        ensures { IfSome result (λ _. used_member self.now uses.now space.now named.entry.kind named.entry.name.now
            ≡ named.entry.kept.now) }
    {
        match space {
            None => match (uses.stars.as_slice(), named.kept) {
                ([], Answer::NoMember) => Some(self.recent),
                _ => None,
            },
            Some(space) => match uses.named.find(space, self.recent.space) {
                None => None,
                Some((place, used)) => {
                    let near = Recent {
                        space: place,
                        module: used.near,
                        variable: self.recent.variable,
                    };
                    self.place_public(used.path(), near, named)
                }
            },
        }
    }

    // Where a module has the name as a public member of its own.
    #[inline(always)]
    fn place_public(&self, path: &Name, near: Recent, named: Named<'_>) -> Option<Recent>
        ensures { IfSome result (λ _. public_of self.now named.entry.kind named.entry.name.now path.now
            ≡ named.entry.kept.now) }
    {
        if named.name.is_private() {
            return None;
        }
        self.place_of_member(path, near, named)
    }

    #[inline(always)]
    fn place_of_member(&self, path: &Name, near: Recent, named: Named<'_>) -> Option<Recent>
        ensures { IfSome result (λ _. (member_of self.now named.entry.kind named.entry.name.now path.now
            ≡ named.entry.kept.now) × (is_member named.entry.kept.now ≡ true)) }
    {
        if is_sass(path.as_str()) {
            let meaning = find(Some(path.as_str()), named.kind, named.name.as_str());
            return if is_built_in(meaning, path, named) {
                Some(Recent {
                    space: near.space,
                    module: self.recent.module,
                    variable: self.recent.variable,
                })
            } else {
                None
            };
        }
        match self.loaded().find(path, near.module) {
            None => None,
            Some((module, held)) => {
                let near = Recent {
                    space: near.space,
                    module,
                    variable: near.variable,
                };
                place_own(held, path, near, named)
            }
        }
    }
}

// Where the module at a path has the name as a member of its own.
#[inline(always)]
fn place_own(held: &Module, path: &Name, near: Recent, named: Named<'_>) -> Option<Recent>
    ensures { IfSome result (λ _. (own_member named.entry.kind named.entry.name.now path.now held.now
        ≡ named.entry.kept.now) × (is_member named.entry.kept.now ≡ true)) }
{
    match (named.kind, named.kept) {
        (Kind::Variable, Answer::Owner { path: owner, name }) => {
            if !(name.same(named.name) && owner.same(path)) {
                return None;
            }
            match held.variables.find(name, near.variable) {
                None => None,
                Some((variable, _)) => Some(Recent {
                    space: near.space,
                    module: near.module,
                    variable,
                }),
            }
        }
        (Kind::Function, Answer::Callable { site, body }) => {
            let there = held.callables.functions.get(named.name);
            if site.same(path) && is_body(there, body) {
                Some(near)
            } else {
                None
            }
        }
        (Kind::Mixin, Answer::Callable { site, body }) => {
            let there = held.callables.mixins.get(named.name);
            if site.same(path) && is_body(there, body) {
                Some(near)
            } else {
                None
            }
        }
        _ => None,
    }
}

// Where a module has no such member of its own, and uses no module `as *`.
#[inline(always)]
fn place_missing(held: &Module, near: Recent, named: Named<'_>) -> Option<Recent>
    ensures { IfSome result (λ _. (held.now.uses.stars ≡ [])
        × ((path : List ℕ) → is_member (own_member named.entry.kind named.entry.name.now path held.now) ≡ false)) }
{
    if held.uses.stars.as_slice().is_empty() && !has_own(held, named.kind, named.name) {
        Some(near)
    } else {
        None
    }
}

// Whether a name that means this in the built-in module of a URL was answered so.
fn is_built_in(meaning: Meaning, url: &Name, named: Named<'_>) -> bool
    ensures { OnTrue result ((built_in_member url.now named.entry.name.now meaning ≡ named.entry.kept.now)
        × (is_member named.entry.kept.now ≡ true)) }
{
    match (meaning, named.kept) {
        (Meaning::Known(_), Answer::BuiltIn { module, name }) => {
            name.same(named.name) && module.same(url)
        }
        _ => false,
    }
}

// Whether a function or mixin that there may be is this one.
fn is_body(there: Option<&Shared<Callable>>, body: &Shared<Callable>) -> bool
    ensures { OnTrue result (option_copied there.entry ≡ Some body.now) }
{
    match there {
        None => false,
        Some(there) => there.get().same(body.get()),
    }
}
