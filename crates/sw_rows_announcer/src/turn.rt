// A turn of a body: on to its load, or to its end.
ghost use Rattle.std.specs.Prelude.{◌≡◌, [], IfOk, OnOk};
ghost use Rattle.sw_world.specs.declared.end.End.{End};
ghost use Rattle.sw_world.specs.Body.{Ends, answers};
ghost use Rattle.sw_rows_announcer.specs.Turns.{TurnDid, IsStep, HasRoomAt};
ghost use Rattle.sw_rows_announcer.specs.Announcing.{announces_at, asks_at, end_of, IsLoaded};

use crate::parts::{end_of, first_refusal, load_of, message_of};
use std::alloc::Global;
use sw_text::{Memory, Name};
use sw_tree::Sheet;
use sw_world::{End, GrowingPairs, Turn, World};

// The load that a body begins with. Room for its answer is taken.
#[tactic(auto, using(crate::proofs::Announced::waits))]
fn wait(alloc: Global, path: &Name, pairs: &mut GrowingPairs) -> Result<Turn, Memory>
    requires { pairs.old.items ≡ [] }
    ensures pairs { pairs.new.items ≡ pairs.old.items }
    ensures step { IfOk result (λ t. (end : End) → IsStep (asks_at end path.now) pairs.new.items t) }
    ensures room { IfOk result (λ t. HasRoomAt t pairs.new.has_room) }
{
    pairs.reserve(alloc)?;
    Ok(Turn::Load(load_of(alloc, path)?))
}

// Says the message where it isn't said.
#[tactic(auto, using(crate::proofs::Announced::did_none, crate::proofs::Announced::did_say, crate::proofs::Announced::ends_before, crate::proofs::Announced::ends_now))]
fn say<W: World>(
    alloc: Global,
    path: &Name,
    pairs: &mut GrowingPairs,
    world: &mut W,
) -> Result<(), Memory>
    requires { IsLoaded pairs.old.items }
    ensures did { (end : End) → TurnDid W.gives (asks_at end path.now) pairs.old.items world.old pairs.new.items world.new }
    ensures said { OnOk result ((end : End) → asks_at end path.now (answers pairs.new.items) ≡ Ends end) }
{
    if pairs.len() > 1 {
        return Ok(());
    }
    pairs.reserve(alloc)?;
    let op = message_of(path)?;
    let answer = world.ask(alloc, &op)?;
    pairs.push(op, answer);
    Ok(())
}

// Says the message, and ends.
fn end<W: World>(
    alloc: Global,
    sheet: &Sheet,
    path: &Name,
    pairs: &mut GrowingPairs,
    world: &mut W,
) -> Result<Turn, Memory>
    requires { IsLoaded pairs.old.items }
    ensures did { TurnDid W.gives (asks_at (end_of sheet.now path.now) path.now) pairs.old.items world.old
        pairs.new.items world.new }
    ensures step { IfOk result (λ t. IsStep (asks_at (end_of sheet.now path.now) path.now) pairs.new.items t) }
    ensures room { IfOk result (λ t. HasRoomAt t pairs.new.has_room) }
{
    say(alloc, path, pairs, world)?;
    Ok(Turn::Ended(end_of(alloc, sheet, path)?))
}

// A body whose sheet has statements.
#[tactic(auto, using(crate::proofs::Announced::did_none, crate::proofs::Announced::is_loaded, crate::proofs::Announced::is_refused))]
fn ask_on<W: World>(
    alloc: Global,
    sheet: &Sheet,
    path: &Name,
    pairs: &mut GrowingPairs,
    world: &mut W,
) -> Result<Turn, Memory>
    ensures did { TurnDid W.gives (asks_at (end_of sheet.now path.now) path.now) pairs.old.items world.old
        pairs.new.items world.new }
    ensures step { IfOk result (λ t. IsStep (asks_at (end_of sheet.now path.now) path.now) pairs.new.items t) }
    ensures room { IfOk result (λ t. HasRoomAt t pairs.new.has_room) }
{
    if pairs.len() == 0 {
        return wait(alloc, path, pairs);
    }
    match first_refusal(pairs)? {
        Some(fault) => Ok(Turn::Ended(End::Fault(fault))),
        None => end(alloc, sheet, path, pairs, world),
    }
}

/// On to the load, or to the end.
#[tactic(auto, using(crate::proofs::Announced::did_none, crate::proofs::Announced::did_some, crate::proofs::Announced::step_none, crate::proofs::Announced::step_some))]
pub(crate) fn body_turn<W: World>(
    alloc: Global,
    sheet: &Sheet,
    path: &Name,
    pairs: &mut GrowingPairs,
    world: &mut W,
) -> Result<Turn, Memory>
    ensures did { TurnDid W.gives (announces_at sheet.now path.now) pairs.old.items world.old pairs.new.items world.new }
    ensures step { IfOk result (λ t. IsStep (announces_at sheet.now path.now) pairs.new.items t) }
    ensures room { IfOk result (λ t. HasRoomAt t pairs.new.has_room) }
{
    if sheet.statements.as_slice().is_empty() {
        return Ok(Turn::Ended(end_of(alloc, sheet, path)?));
    }
    let reached = ask_on(alloc, sheet, path, pairs, world)?;
    Ok(reached)
}
