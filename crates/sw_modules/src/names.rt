// What a module has of a name.
ghost use Rattle.std.specs.Prelude.{◌≡◌, bytes_eq, ℕ, List, IfOk};
ghost use Rattle.std.specs.Map.{lookup};
ghost use Rattle.std.specs.Option.{option_copied};
ghost use Rattle.sw_modules.specs.Interfaces.{has_own};
ghost use Rattle.sw_modules.specs.Names.{variable_of, callable_of, own_member, built_in_member, is_member};

use crate::live::Recent;
use crate::{Module, Variables};
use sw_builtins::Found as Meaning;
use sw_text::{Memory, Name, Shared};
use sw_tree::{Callable, Kind};
use sw_world::Answer;

/// What a name means, and the places at which that was found.
#[derive(Drop)]
pub struct Found {
    pub answer: Answer,
    pub(crate) recent: Recent,
}

/// The answer that the module at a path has an own member, or hasn't.
pub(crate) fn own_member(
    held: &Module,
    path: &Name,
    kind: Kind,
    name: &Name,
    near: Recent,
) -> Result<Found, Memory>
    ensures { IfOk result (λ it. it.answer ≡ own_member kind name.now path.now held.now) }
{
    match kind {
        Kind::Variable => variable_of(&held.variables, path, name, near),
        Kind::Function => callable_of(held.callables.functions.get(name), path, near),
        Kind::Mixin => callable_of(held.callables.mixins.get(name), path, near),
    }
}

// The variable is looked for near the place of the last one first.
fn variable_of(
    variables: &Variables,
    path: &Name,
    name: &Name,
    near: Recent,
) -> Result<Found, Memory>
    ensures { IfOk result (λ it. it.answer ≡ variable_of path.now name.now (lookup (bytes_eq name.now) variables.now)) }
{
    match variables.find(name, near.variable) {
        None => Ok(Found {
            answer: Answer::NoMember,
            recent: near,
        }),
        Some((variable, _)) => {
            let recent = Recent {
                space: near.space,
                module: near.module,
                variable,
            };
            let answer = Answer::Owner {
                path: path.share()?,
                name: variables.name_at(variable, name)?,
            };
            Ok(Found { answer, recent })
        }
    }
}

fn callable_of(body: Option<&Shared<Callable>>, path: &Name, near: Recent) -> Result<Found, Memory>
    ensures { IfOk result (λ it. it.answer ≡ callable_of path.now (option_copied body.entry)) }
{
    let answer = match body {
        None => Answer::NoMember,
        Some(body) => Answer::Callable {
            site: path.share()?,
            body: body.share()?,
        },
    };
    Ok(Found {
        answer,
        recent: near,
    })
}

/// What a name of the built-in module of a URL is, by its meaning there.
pub(crate) fn built_in_member(url: &Name, name: &Name, meaning: Meaning) -> Result<Answer, Memory>
    ensures { IfOk result (λ answer. answer ≡ built_in_member url.now name.now meaning) }
{
    match meaning {
        Meaning::Known(_) => Ok(Answer::BuiltIn {
            module: url.share()?,
            name: name.share()?,
        }),
        Meaning::LeftOut => Ok(Answer::LeftOut),
        Meaning::NoSuch => Ok(Answer::NoMember),
    }
}

/// Whether an answer is that a name means something.
pub(crate) fn is_member(answer: &Answer) -> bool
    ensures { result ≡ is_member answer.now }
{
    !matches!(answer, Answer::NoMember)
}

/// Whether a module has an own member.
pub(crate) fn has_own(held: &Module, kind: Kind, name: &Name) -> bool
    ensures has { result ≡ has_own kind name.now held.now }
    ensures member { (path : List ℕ) → result ≡ is_member (own_member kind name.now path held.now) }
{
    match kind {
        Kind::Variable => held.variables.has(name),
        Kind::Function => held.callables.functions.has(name),
        Kind::Mixin => held.callables.mixins.has(name),
    }
}

/// Whether a built-in module has a member, by what its name means there.
pub(crate) fn has_meaning(meaning: Meaning) -> bool
    ensures { (url : List ℕ) (name : List ℕ) → result ≡ is_member (built_in_member url name meaning) }
{
    match meaning {
        Meaning::Known(_) => true,
        Meaning::LeftOut => true,
        Meaning::NoSuch => false,
    }
}
