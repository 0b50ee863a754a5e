// Functions that ask what is declared.
ghost use Rattle.std.specs.Prelude.{◌≡◌, ◌&&◌};
ghost use Rattle.std.specs.Option.{option_copied, is_some};
ghost use Rattle.sw_eval_literals.specs.Answers.{Returns};
ghost use Rattle.sw_eval_questions.specs.Did.{IsReturn};
ghost use Rattle.sw_scope.specs.Scopes.{look_top};
ghost use Rattle.sw_eval_state.specs.Callables.{own_function, own_mixin};
ghost use Rattle.sw_eval_state.specs.Scope.{is_home, own};
ghost use Rattle.sw_eval_state.specs.Existing.{truth, text_in, name_in, module_in, exists_by, content_exists, is_built_in};
ghost use Rattle.sw_eval_state.specs.declared.state.State.{State};

use crate::faults::fails;
use crate::here::Inside;
use crate::state::State;
use std::alloc::Global;
use sw_builtins::{Found, find};
use sw_eval_literals::{Refused, constant_value, fails as refuses};
use sw_eval_questions::Stop;
use sw_text::{FaultCode, Name, Span};
use sw_tree::{Constant, Kind};
use sw_values::{Node, Value};
use sw_world::Answer;

/// True or false.
pub fn truth(holds: bool) -> Value
    ensures { result ≡ truth holds }
{
    if holds {
        constant_value(Constant::True)
    } else {
        constant_value(Constant::False)
    }
}

// The text of a string.
fn text_in(value: &Value) -> Option<&Name>
    ensures { option_copied result ≡ text_in value.now }
{
    match value.node() {
        Node::Text { text, .. } => Some(text),
        _ => None,
    }
}

/// The name that the first argument of a call is that stands here, with `-` for each `_`.
pub fn name_in(alloc: Global, arguments: &[(Name, Value)], span: &Span) -> Result<Name, Refused>
    ensures { Returns result (name_in arguments.now span.now) }
{
    match arguments {
        [first, ..] => match text_in(&first.1) {
            Some(text) => Ok(Name::dashed(alloc, text.as_str())?),
            None => refuses(FaultCode::TypeFault, span),
        },
        [] => refuses(FaultCode::ArgumentFault, span),
    }
}

/// The namespace that the second argument of a call is that stands here, where it isn't null.
pub fn module_in(arguments: &[(Name, Value)], span: &Span) -> Result<Option<Name>, Refused>
    ensures { Returns result (module_in arguments.now span.now) }
{
    match arguments {
        [_, second, ..] => match second.1.node() {
            Node::Null => Ok(None),
            Node::Text { text, .. } => Ok(Some(text.share()?)),
            _ => refuses(FaultCode::TypeFault, span),
        },
        _ => Ok(None),
    }
}

/// Whether a member was found, in a call that stands here.
pub fn exists_by(answer: &Answer, span: &Span) -> Result<bool, Stop>
    ensures { (s : State) → IsReturn result s (exists_by answer.now span.now s) }
{
    match answer {
        Answer::Owner { .. } => Ok(true),
        Answer::Callable { .. } => Ok(true),
        Answer::BuiltIn { .. } => Ok(true),
        Answer::NoNamespace => fails(FaultCode::UnknownNamespace, span),
        Answer::Conflict => fails(FaultCode::MemberConflict, span),
        _ => Ok(false),
    }
}

/// Whether a name is that of a built-in function without a namespace.
pub fn is_built_in(name: &Name) -> bool
    ensures { result ≡ is_built_in name.now }
{
    match find(None, Kind::Function, name.as_str()) {
        Found::Known(_) => true,
        Found::LeftOut => false,
        Found::NoSuch => false,
    }
}

impl State {
    /// Whether a variable is seen without asking.
    pub fn sees(&self, name: &Name) -> bool
        ensures { result ≡ is_some (own self.now name.now) }
    {
        match self.own(name) {
            Some(_) => true,
            None => false,
        }
    }

    /// The same of functions.
    pub fn sees_function(&self, name: &Name) -> bool
        ensures { result ≡ is_some (own_function name.now self.now) }
    {
        match self.own_function(name) {
            Some(_) => true,
            None => false,
        }
    }

    /// The same of mixins.
    pub fn sees_mixin(&self, name: &Name) -> bool
        ensures { result ≡ is_some (own_mixin name.now self.now) }
    {
        match self.own_mixin(name) {
            Some(_) => true,
            None => false,
        }
    }

    fn has_top(&self, name: &Name) -> bool
        ensures { result ≡ is_some (look_top self.now.scopes name.now) }
    {
        match self.scopes.look_top(name) {
            Some(_) => true,
            None => false,
        }
    }

    /// Whether the running code is the body's own, and its module has a variable.
    pub fn sees_top(&self, name: &Name) -> bool
        ensures { result ≡ (is_home self.now && is_some (look_top self.now.scopes name.now)) }
    {
        self.is_home() && self.has_top(name)
    }

    /// Whether the running mixin was given a content block, in a call that stands here.
    pub fn content_exists(&self, span: &Span) -> Result<bool, Stop>
        ensures { IsReturn result self.now (content_exists span.now self.now) }
    {
        match self.here.inside {
            Inside::Mixin => Ok(self.here.content.is_some()),
            Inside::Sheet => fails(FaultCode::ArgumentFault, span),
            Inside::Function => fails(FaultCode::ArgumentFault, span),
        }
    }
}
