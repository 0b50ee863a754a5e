// A line for each question at which a body finds no memory, and for each answer that its loads have.
ghost use Rattle.std.specs.Prelude.{IfOk};
ghost use Rattle.sw_rows_bodies.specs.Ready.{AnswersLoads};

use crate::bodies::{begin, to_end};
use crate::broken::Broken;
use crate::module::Module;
use crate::shown::line;
use crate::told::Told;
use std::alloc::Global;
use sw_text::{Fault, FaultCode, List, Memory, Name, Pos, Shared, Span};
use sw_world::{Answer, Engine};

// A body here asks fewer questions.
const MOST_QUESTIONS: u32 = 100;

// What came of a body.
#[derive(Drop)]
struct Run {
    starved: bool,
    line: String,
}

/// Runs a module's body by an engine: with memory lacking at each question in turn, with memory for all, and with its
/// first load refused.
pub fn body_rows<E: Engine>(
    rt: &HostRuntime,
    engine: &mut E,
    module: &Module,
) -> Result<(), Broken> {
    starved_rows(rt, engine, module)?;
    refused_row(rt, engine, module)
}

// A line for each question at which memory lacks, and one with memory for all.
fn starved_rows<E: Engine>(
    rt: &HostRuntime,
    engine: &mut E,
    module: &Module,
) -> Result<(), Broken> {
    for at in 0..MOST_QUESTIONS {
        if !starved_row(rt, engine, module, at)? {
            break;
        }
    }
    Ok(())
}

// A line with memory lacking at this question, or nowhere where the body asks fewer; tells whether it lacked.
fn starved_row<E: Engine>(
    rt: &HostRuntime,
    engine: &mut E,
    module: &Module,
    at: u32,
) -> Result<bool, Broken> {
    let path = module.path.as_str();
    let answer = loaded(rt.alloc())?;
    let run = run_body(rt.alloc(), engine, module, &answer, at)?;
    let line = run.line.as_str();
    if run.starved {
        println!(rt; "{path}, starved at {at}: {line}")?;
    } else {
        println!(rt; "{path}: {line}")?;
    }
    Ok(run.starved)
}

// A line with the first load refused.
fn refused_row<E: Engine>(rt: &HostRuntime, engine: &mut E, module: &Module) -> Result<(), Broken> {
    let path = module.path.as_str();
    let answer = refused(rt.alloc())?;
    let run = run_body(rt.alloc(), engine, module, &answer, MOST_QUESTIONS)?;
    let line = run.line.as_str();
    println!(rt; "{path}, refused: {line}")?;
    Ok(())
}

// A body from its start to its end, whose loads have this answer, and whose world finds no memory at this question.
fn run_body<E: Engine>(
    alloc: Global,
    engine: &mut E,
    module: &Module,
    answer: &Answer,
    at: u32,
) -> Result<Run, Broken>
    requires { AnswersLoads answer.now }
{
    let mut world = Told::starving_at(at);
    let mut body = begin(alloc, engine, module)?;
    let end = to_end(alloc, engine, &mut body, &mut world, answer)?;
    let seen = engine.close(body);
    Ok(Run {
        starved: world.was_fed(),
        line: line(alloc, world.answered, &seen, &end)?,
    })
}

fn loaded(alloc: Global) -> Result<Answer, Memory>
    ensures { IfOk result (λ answer. AnswersLoads answer) }
{
    let path = Name::new(alloc, "lib.scss")?;
    let taken = Shared::new(alloc, List::new(alloc))?;
    Ok(Answer::Loaded { path, taken })
}

// A refusal with a fault at another place than any of the sheet.
fn refused(alloc: Global) -> Result<Answer, Memory>
    ensures { IfOk result (λ answer. AnswersLoads answer) }
{
    let at = Pos { line: 7, column: 7 };
    let file = Name::new(alloc, "lib.scss")?;
    Ok(Answer::Refused(Fault {
        code: FaultCode::Loop,
        span: Span {
            file,
            from: at,
            to: at,
        },
    }))
}
