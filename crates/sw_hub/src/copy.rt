// One more owner of a reply.
ghost use Rattle.std.specs.Prelude.{◌≡◌, IfOk};

use std::alloc::Global;
use sw_record::{Cause, Outcome, Reply};
use sw_text::{List, Memory, Name};
use sw_world::Saying;

/// The same reply.
pub fn copied(alloc: Global, reply: &Reply) -> Result<Reply, Memory>
    ensures { IfOk result (λ copy. copy ≡ reply.now) }
{
    let says = copied_says(alloc, reply.says.as_slice())?;
    let ran = copied_ran(alloc, reply.ran.as_slice())?;
    let outcome = copied_outcome(alloc, &reply.outcome)?;
    Ok(Reply { says, ran, outcome })
}

fn copied_says(alloc: Global, says: &[Saying]) -> Result<List<Saying>, Memory>
    ensures { IfOk result (λ copy. copy ≡ says.now) }
{
    let mut out = List::new(alloc);
    'says: for saying in says {
        out.push(copied_saying(saying)?)?;
    }
    Ok(out)
}

fn copied_saying(saying: &Saying) -> Result<Saying, Memory>
    ensures { IfOk result (λ copy. copy ≡ saying.now) }
{
    Ok(Saying {
        kind: saying.kind,
        span: saying.span.share()?,
        text: saying.text.share()?,
    })
}

fn copied_ran(alloc: Global, ran: &[(Name, Cause)]) -> Result<List<(Name, Cause)>, Memory>
    ensures { IfOk result (λ copy. copy ≡ ran.now) }
{
    let mut out = List::new(alloc);
    'ran: for (path, cause) in ran {
        out.push((path.share()?, *cause))?;
    }
    Ok(out)
}

fn copied_outcome(alloc: Global, outcome: &Outcome) -> Result<Outcome, Memory>
    ensures { IfOk result (λ copy. copy ≡ outcome.now) }
{
    match outcome {
        Outcome::Css(bytes) => Ok(Outcome::Css(copied_bytes(alloc, bytes.as_slice())?)),
        Outcome::Error(fault) => Ok(Outcome::Error(fault.share()?)),
    }
}

fn copied_bytes(alloc: Global, bytes: &[u8]) -> Result<List<u8>, Memory>
    ensures { IfOk result (λ copy. copy ≡ bytes.now) }
{
    let mut out = Vec::new(alloc);
    out.extend_from_slice(bytes)?;
    Ok(List::from_vec(out))
}
