// What a body asks, and its end.
ghost use Rattle.std.specs.Prelude.{◌≡◌, IfOk};
ghost use Rattle.sw_rows_announcer.specs.Announcing.{begin_of, load_of, message_of, end_by, end_of, refusal, first_refusal, leaves_nothing};

use std::alloc::Global;
use sw_css_tree::CssTree;
use sw_text::{Fault, FaultCode, List, Memory, Name, Pos, Shared, Span};
use sw_tree::{Sheet, globals_of};
use sw_world::{Answer, End, Finish, GrowingPairs, How, Question, SayKind, Table};

fn begin_of(path: &Name) -> Result<Span, Memory>
    ensures { IfOk result (λ span. span ≡ begin_of path.now) }
{
    let start = Pos { line: 1, column: 1 };
    let file = path.share()?;
    Ok(Span {
        file,
        from: start,
        to: start,
    })
}

/// The load of the body at this path.
pub(crate) fn load_of(alloc: Global, path: &Name) -> Result<Question, Memory>
    ensures { IfOk result (λ op. op ≡ load_of path.now) }
{
    let span = begin_of(path)?;
    let site = path.share()?;
    let url = path.share()?;
    let config = Shared::new(alloc, List::new(alloc))?;
    Ok(Question::Load {
        site,
        url,
        span,
        how: How::Use { space: None },
        config,
    })
}

/// What the body at this path says.
pub(crate) fn message_of(path: &Name) -> Result<Question, Memory>
    ensures { IfOk result (λ op. op ≡ message_of path.now) }
{
    let span = begin_of(path)?;
    let text = path.share()?;
    Ok(Question::Say {
        kind: SayKind::Warn,
        span,
        text,
    })
}

// Why the load is refused.
fn refusal(answer: &Answer) -> Result<Option<Fault>, Memory>
    ensures { IfOk result (λ fault. fault ≡ refusal answer.now) }
{
    match answer {
        Answer::Refused(fault) => Ok(Some(fault.share()?)),
        _ => Ok(None),
    }
}

/// Why the first of these answers refuses the load.
pub(crate) fn first_refusal(pairs: &GrowingPairs) -> Result<Option<Fault>, Memory>
    ensures { IfOk result (λ fault. fault ≡ first_refusal pairs.now.items) }
{
    match pairs.get(0) {
        None => Ok(None),
        Some(pair) => refusal(&pair.1),
    }
}

fn leaves_nothing(alloc: Global) -> Result<Finish, Memory>
    ensures { IfOk result (λ finish. finish ≡ leaves_nothing) }
{
    let css = Shared::new(alloc, CssTree::new(alloc))?;
    Ok(Finish {
        variables: Table::new(alloc),
        callables: List::new(alloc),
        css,
        taken: List::new(alloc),
    })
}

// How a body ends whose sheet has these variables.
#[tactic(auto, using(crate::proofs::Announced::end_none, crate::proofs::Announced::end_some))]
fn end_by(alloc: Global, names: &[Name], path: &Name) -> Result<End, Memory>
    ensures { IfOk result (λ end. end ≡ end_by names.now path.now) }
{
    if names.is_empty() {
        let finish = leaves_nothing(alloc)?;
        return Ok(End::Done(Shared::new(alloc, finish)?));
    }
    let span = begin_of(path)?;
    Ok(End::Fault(Fault {
        code: FaultCode::UnknownVariable,
        span,
    }))
}

/// How a body ends to which nothing is refused.
pub(crate) fn end_of(alloc: Global, sheet: &Sheet, path: &Name) -> Result<End, Memory>
    ensures { IfOk result (λ end. end ≡ end_of sheet.now path.now) }
{
    let names = globals_of(alloc, sheet)?;
    let end = end_by(alloc, names.as_slice(), path)?;
    Ok(end)
}
