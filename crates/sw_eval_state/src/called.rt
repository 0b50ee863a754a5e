// What answers about functions and mixins say.
ghost use Rattle.std.specs.Prelude.{◌<◌, Some, None};
ghost use Rattle.sw_eval_questions.specs.Did.{IsReturn};
ghost use Rattle.sw_eval_state.specs.Called.{global_by, built_in_by, function_by, member_by, mixin_by};
ghost use Rattle.sw_builtins.specs.Tables.{found};
ghost use Rattle.sw_tree.specs.declared.callable.Kind.TheVariants as K;
ghost use Rattle.sw_eval_state.specs.declared.state.State.{State};

use crate::entries::Found;
use crate::faults::fails;
use sw_builtins::{BuiltIn, Found as Meant, find};
use sw_eval_questions::Stop;
use sw_text::{FaultCode, Name, Span};
use sw_tree::Kind;
use sw_world::Answer;

/// What a call means.
#[derive(Drop)]
pub enum Called {
    /// A function of a sheet.
    Sheet(Found),
    BuiltIn(BuiltIn),
    /// A function of CSS.
    Css,
}

// What a name means that no function of a sheet has.
fn global_by(name: &Name, span: &Span) -> Result<Called, Stop>
    ensures { (s : State) → IsReturn result s (global_by (found None K.Function name.now) span.now s) }
{
    match find(None, Kind::Function, name.as_str()) {
        Meant::Known(function) => Ok(Called::BuiltIn(function)),
        Meant::LeftOut => fails(FaultCode::LeftOut, span),
        Meant::NoSuch => Ok(Called::Css),
    }
}

// What the name of a member of a built-in module means.
fn built_in_by(module: &Name, name: &Name, span: &Span, name_span: &Span) -> Result<Called, Stop>
    ensures { (s : State) → IsReturn result s
        (built_in_by (found (Some module.now) K.Function name.now) span.now name_span.now s) }
{
    match find(Some(module.as_str()), Kind::Function, name.as_str()) {
        Meant::Known(function) => Ok(Called::BuiltIn(function)),
        Meant::LeftOut => fails(FaultCode::LeftOut, span),
        Meant::NoSuch => fails(FaultCode::UnknownMember, name_span),
    }
}

/// What a call without a namespace means, by the answer to the question of this number.
pub fn function_by(
    name: &Name,
    span: &Span,
    name_span: &Span,
    number: usize,
    answer: Answer,
) -> Result<Called, Stop>
    requires { number < 1000000 }
    ensures { (s : State) → IsReturn result s (function_by name.now span.now name_span.now number answer s) }
{
    match answer {
        Answer::Callable { body, .. } => Ok(Called::Sheet(Found {
            site: number + 1,
            callable: body,
        })),
        Answer::BuiltIn { module, name } => built_in_by(&module, &name, span, name_span),
        Answer::NoMember => global_by(name, span),
        Answer::LeftOut => fails(FaultCode::LeftOut, span),
        Answer::Conflict => fails(FaultCode::MemberConflict, name_span),
        _ => fails(FaultCode::UnknownMember, name_span),
    }
}

/// What a call behind a namespace means.
pub fn member_by(
    span: &Span,
    name_span: &Span,
    space_span: &Span,
    number: usize,
    answer: Answer,
) -> Result<Called, Stop>
    requires { number < 1000000 }
    ensures { (s : State) → IsReturn result s (member_by span.now name_span.now space_span.now number answer s) }
{
    match answer {
        Answer::Callable { body, .. } => Ok(Called::Sheet(Found {
            site: number + 1,
            callable: body,
        })),
        Answer::BuiltIn { module, name } => built_in_by(&module, &name, span, name_span),
        Answer::NoNamespace => fails(FaultCode::UnknownNamespace, space_span),
        Answer::LeftOut => fails(FaultCode::LeftOut, span),
        Answer::Conflict => fails(FaultCode::MemberConflict, name_span),
        _ => fails(FaultCode::UnknownMember, name_span),
    }
}

/// Which mixin is included.
pub fn mixin_by(
    span: &Span,
    name_span: &Span,
    space_span: &Span,
    number: usize,
    answer: Answer,
) -> Result<Found, Stop>
    requires { number < 1000000 }
    ensures { (s : State) → IsReturn result s (mixin_by span.now name_span.now space_span.now number answer s) }
{
    match answer {
        Answer::Callable { body, .. } => Ok(Found {
            site: number + 1,
            callable: body,
        }),
        Answer::NoNamespace => fails(FaultCode::UnknownNamespace, space_span),
        Answer::LeftOut => fails(FaultCode::LeftOut, span),
        Answer::Conflict => fails(FaultCode::MemberConflict, name_span),
        _ => fails(FaultCode::UnknownMember, name_span),
    }
}
