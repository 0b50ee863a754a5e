// Where a body is once a turn of it stopped.
ghost use Rattle.std.specs.Prelude.{◌≡◌, ◌<◌, ◌++◌, IfOk, OnOk, OnErr, vec_len, vec_capacity};
ghost use Rattle.sw_world.specs.Progress.{ran_by};
ghost use Rattle.sw_rows_announcer.specs.Turns.{place_of};

use crate::place::Place;
use sw_text::{Memory, Name};
use sw_world::Turn;

fn share_turn(turn: &Turn) -> Result<Turn, Memory>
    ensures { IfOk result (λ t. t ≡ turn.now) }
{
    match turn {
        Turn::Load(op) => Ok(Turn::Load(op.share()?)),
        Turn::Ended(end) => Ok(Turn::Ended(end.share()?)),
    }
}

fn stay(place: &mut Place, turn: Turn)
    ensures { place.new ≡ place_of turn }
{
    *place = match turn {
        Turn::Load(op) => Place::Waiting(op),
        Turn::Ended(end) => Place::Ended(end),
    };
}

/// Has a body be where this turn stopped, and gives the turn back.
pub(crate) fn stop_at(place: &mut Place, turn: Turn) -> Result<Turn, Memory>
    ensures back { IfOk result (λ t. t ≡ turn) }
    ensures stays { OnOk result (place.new ≡ place_of turn) }
    ensures same { OnErr result (place.new ≡ place.old) }
{
    let back = share_turn(&turn)?;
    stay(place, turn);
    Ok(back)
}

/// Adds the path of a body that ended, for which there is room.
pub(crate) fn note(ran: &mut Vec<Name>, path: Name, turn: &Turn)
    requires { vec_len ran.old < vec_capacity ran.old }
    ensures { ran.new.items ≡ ran.old.items ++ ran_by turn.now path }
{
    if let Turn::Ended(_) = turn {
        let _ = ran.push(path);
    }
}
