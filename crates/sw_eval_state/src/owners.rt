// What answers about variables say.
ghost use Rattle.std.specs.Prelude.{◌≡◌};
ghost use Rattle.sw_eval_questions.specs.Did.{IsReturn};
ghost use Rattle.sw_eval_state.specs.Owners.{owner, target, named_owner, got, null_by, is_null, is_absent};
ghost use Rattle.sw_eval_state.specs.declared.state.State.{State};

use crate::faults::fails;
use sw_eval_questions::Stop;
use sw_text::{FaultCode, Span};
use sw_values::{Node, Value};
use sw_world::Answer;

/// The number of the owner that an answer names.
pub fn owner(
    unknown: FaultCode,
    span: &Span,
    space_span: &Span,
    number: usize,
    answer: &Answer,
) -> Result<usize, Stop>
    ensures { (s : State) → IsReturn result s (owner unknown span.now space_span.now number answer.now s) }
{
    match answer {
        Answer::Owner { .. } => Ok(number),
        Answer::NoNamespace => fails(FaultCode::UnknownNamespace, space_span),
        Answer::LeftOut => fails(FaultCode::LeftOut, span),
        Answer::Conflict => fails(FaultCode::MemberConflict, span),
        _ => fails(unknown, span),
    }
}

/// The owner of a variable that is assigned.
pub fn target(
    span: &Span,
    name_span: &Span,
    space_span: &Span,
    number: usize,
    answer: &Answer,
) -> Result<usize, Stop>
    ensures { (s : State) → IsReturn result s (target span.now name_span.now space_span.now number answer.now s) }
{
    match answer {
        Answer::BuiltIn { .. } => fails(FaultCode::NotConfigurable, span),
        _ => owner(
            FaultCode::UnknownMember,
            name_span,
            space_span,
            number,
            answer,
        ),
    }
}

/// The owner of a variable without a namespace that is given a value: what is wrong with its name stands at it.
pub fn named_owner(
    name_span: &Span,
    span: &Span,
    number: usize,
    answer: &Answer,
) -> Result<usize, Stop>
    ensures { (s : State) → IsReturn result s (named_owner name_span.now span.now number answer.now s) }
{
    match answer {
        Answer::Owner { .. } => Ok(number),
        Answer::LeftOut => fails(FaultCode::LeftOut, name_span),
        Answer::Conflict => fails(FaultCode::MemberConflict, name_span),
        _ => fails(FaultCode::UnknownVariable, span),
    }
}

/// The value that an answer holds.
pub fn got(span: &Span, answer: Answer) -> Result<Value, Stop>
    ensures { (s : State) → IsReturn result s (got span.now answer s) }
{
    match answer {
        Answer::Value(value) => Ok(value),
        _ => fails(FaultCode::UnknownVariable, span),
    }
}

/// Whether a value is null.
pub fn is_null(value: &Value) -> bool
    ensures { result ≡ is_null value.now }
{
    null_by(value.node())
}

fn null_by(node: &Node) -> bool
    ensures { result ≡ null_by node.now }
{
    match node {
        Node::Null => true,
        Node::Number(_)
        | Node::Text { .. }
        | Node::Colour(_)
        | Node::List { .. }
        | Node::Map(_)
        | Node::Bool(_)
        | Node::Args { .. } => false,
    }
}

/// Whether an answer tells that there is no such member.
pub fn is_absent(answer: &Answer) -> bool
    ensures { result ≡ is_absent answer.now }
{
    matches!(answer, Answer::NoMember)
}
