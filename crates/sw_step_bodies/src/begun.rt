// A compile whose entry's body has begun, from one step to the next.
ghost use Rattle.std.specs.Prelude.{◌≡◌, ◌++◌, ℕ, List, None, IfOk, OnErr};
ghost use Rattle.std.specs.FinMap as files;
ghost use Rattle.sw_modules.specs.Settings.{hostless};
ghost use Rattle.sw_step_bodies.specs.Steps.{ended_in};
ghost use Rattle.sw_step_bodies.specs.Moves.{IsDeep, moment_of};
ghost use Rattle.sw_step_bodies.specs.Under.{IsBegun, IsWent, DidGo, over_folder};

use crate::body::{Innermost, Waiting, Work};
use crate::going::{Came, Going};
use crate::outside::Within;
use crate::{StepReply, Stepped};
use std::marker::Model;
use sw_folder::Folder;
use sw_modules::{Enter, Live, Nothing, Parked, Reader};
use sw_record::Outcome;
use sw_text::{Fault, List, Memory, Name, Shared};
use sw_world::Engine;

/// What a compile is of: its entry, its load paths and its own folder.
#[derive(Drop)]
pub struct Start {
    pub entry: Name,
    pub paths: Shared<List<Name>>,
    pub folder: Folder,
}

/// A compile whose entry's body has begun, between two of its steps. Contracts see its moment, over a folder without
/// files.
#[derive(Drop)]
pub struct Begun<E: Engine> {
    parked: Parked,
    waiting: Vec<Waiting<E>>,
    innermost: Innermost<E>,
    times: Vec<(Name, u32)>,
}

impl<E: Engine> Model for Begun<E> {
    ghost use Rattle.std.specs.Coded.{codes};
    ghost use Rattle.sw_folder.specs.Files.{files_code};
    ghost use Rattle.sw_tree.specs.contracts.expr.ExprKind as expr;
    ghost use Rattle.sw_tree.specs.contracts.statement.Statement as statement;
    ghost use Rattle.sw_values.specs.contracts.plain.Plain as plain;
    ghost use Rattle.sw_step_bodies.specs.Standing.{Moment};
    ghost use Rattle.sw_step_bodies.specs.Moves.{IsDeep, moment_of};

    ghost Value = { Moment };

    ghost coded = { Prim.hlevel (codes, files_code, expr.the_row.coded, statement.the_row.coded, plain.the_row.coded) };

    ghost view = { λ b. moment_of b.parked b.waiting.items b.innermost b.times.items };

    ghost invariant = { λ b. IsDeep b.parked b.waiting.items };
}

/// Begins the body of the entry, or gives the fault of that.
pub fn begin<R: Reader, E: Engine>(
    within: &Within<'_, R>,
    start: &Start,
) -> Result<Result<Begun<E>, Fault>, Memory>
    ensures { IfOk result (λ now. IsBegun (hostless R.reads E.body) start.now None now) }
{
    let alloc = within.alloc;
    let nothing = Nothing::new(alloc)?;
    let config = nothing.config()?;
    let mut live = Live::new(
        alloc,
        &start.folder,
        start.paths.get().as_slice(),
        &nothing,
        0,
    )?;
    match live.enter(&start.entry)? {
        Enter::Refused(fault) => Ok(Err(fault)),
        Enter::Open { path, text } => match within.reader.read(alloc, &path, &text)? {
            Err(fault) => Ok(Err(fault)),
            Ok(sheet) => {
                let work = Work {
                    sheet,
                    config,
                    path,
                    loads: 0,
                };
                Ok(Ok(Begun {
                    parked: live.park(),
                    waiting: Vec::new(alloc),
                    innermost: Innermost::new(alloc, work),
                    times: Vec::new(alloc),
                }))
            }
        },
    }
}

/// Goes on to the next step of a compile.
pub fn go<R: Reader, E: Engine>(
    within: &Within<'_, R>,
    folder: &Folder,
    begun: Begun<E>,
    engine: &mut E,
) -> (Option<Begun<E>>, Result<Stepped, Memory>)
    ensures went { DidGo (hostless R.reads E.body) folder.now begun result.0 result.1 }
    ensures ran { IfOk result.1 (λ stepped. E.ran engine.new ≡ E.ran engine.old ++ ended_in stepped) }
    ensures ran_err { OnErr result.1 ((more : List (List ℕ)) × (E.ran engine.new ≡ E.ran engine.old ++ more)) }
{
    let Begun {
        parked,
        waiting,
        innermost,
        times,
    } = begun;
    let mut going = Going {
        live: Live::resume(parked, folder),
        waiting,
        innermost,
        times,
    };
    let came = going.run(within, engine);
    went(going, came)
}

/// What a compile answers that came so far, and where it is then.
fn went<E: Engine>(
    going: Going<'_, E>,
    came: Result<Came, Memory>,
) -> (Option<Begun<E>>, Result<Stepped, Memory>)
    requires { IsDeep going.live going.waiting.items }
    ensures { IsWent came
        (moment_of going.entry.live going.entry.waiting.items going.entry.innermost going.entry.times.items) result.0
        result.1 }
{
    match came {
        Ok(Came::Loading { body, opened }) => {
            (Some(parked(going)), Ok(Stepped::Loading { body, opened }))
        }
        Ok(Came::Finished { body }) => (Some(parked(going)), Ok(Stepped::Finished { body })),
        Ok(Came::Over(outcome)) => (None, Ok(Stepped::Ended(reply_of(going, outcome)))),
        Err(memory) => (Some(parked(going)), Err(memory)),
    }
}

/// The state of a compile without its folder. Takes no memory.
fn parked<E: Engine>(going: Going<'_, E>) -> Begun<E>
    requires { IsDeep going.live going.waiting.items }
    ensures { result ≡ over_folder files.empty
        (moment_of going.entry.live going.entry.waiting.items going.entry.innermost going.entry.times.items) }
{
    let Going {
        live,
        waiting,
        innermost,
        times,
    } = going;
    Begun {
        parked: live.park(),
        waiting,
        innermost,
        times,
    }
}

/// The reply of a compile with this outcome. Takes no memory.
fn reply_of<E: Engine>(going: Going<'_, E>, outcome: Outcome) -> StepReply
    ensures { result
        ≡ record { says = going.entry.live.says; times = going.entry.times.items; outcome = outcome } }
{
    let Going {
        live,
        waiting: _,
        innermost: _,
        times,
    } = going;
    StepReply {
        says: live.finish(),
        times: List::from_vec(times),
        outcome,
    }
}
