// Turns of a body.
ghost use Rattle.std.specs.Prelude.{◌≡◌, IfOk};
ghost use Rattle.sw_eval.specs.Means.{body};
ghost use Rattle.sw_eval_questions.specs.Turns.{TurnDid, IsStep, HasRoomAt};
ghost use Rattle.sw_eval_state.specs.Begin.{begin};
ghost use Rattle.sw_eval.specs.Resume.{IsResume};

use crate::outermost::Outermost;
use sw_eval_questions::Stop;
use sw_eval_state::{State, finish};
use sw_eval_top_level::walk_on;
use sw_eval_walk::Walk;
use sw_text::Memory;
use sw_tree::Sheet;
use sw_world::{Config, End, Turn, World};

// Lets the next turn begin from the start.
fn reset(walk: &mut Walk, next: &mut usize)
    ensures next { next.new ≡ 0 }
    ensures state { walk.new.state ≡ begin }
    ensures at { walk.new.asked.at ≡ 0 }
    ensures path { walk.new.asked.path ≡ walk.old.asked.path }
    ensures pairs { walk.new.asked.pairs ≡ walk.old.asked.pairs }
{
    *next = 0;
    walk.state = State::begin(walk.alloc);
    walk.asked.restart();
}

// A turn of a body: on to a load, or to the end.
pub(crate) fn body_turn<W: World>(
    sheet: &Sheet,
    config: &Config,
    walk: &mut Walk,
    next: &mut usize,
    world: &mut W,
) -> Result<Turn, Memory>
    requires { IsResume (record { sheet = sheet.now; config = config.now; path = walk.old.asked.path })
        walk.old.asked.pairs.items walk.old.asked.at next.old walk.old.state }
    ensures path { walk.new.asked.path ≡ walk.old.asked.path }
    ensures did { TurnDid W.gives
        (body (record { sheet = sheet.now; config = config.now; path = walk.old.asked.path }))
        walk.old.asked.pairs.items world.old walk.new.asked.pairs.items world.new }
    ensures resume { IsResume (record { sheet = sheet.now; config = config.now; path = walk.old.asked.path })
        walk.new.asked.pairs.items walk.new.asked.at next.new walk.new.state }
    ensures step { IfOk result (λ t. IsStep
        (body (record { sheet = sheet.now; config = config.now; path = walk.old.asked.path }))
        walk.new.asked.pairs.items t) }
    ensures room { IfOk result (λ t. HasRoomAt t walk.new.asked.pairs.has_room) }
{
    let all = sheet.statements.as_slice();
    match walk_on(walk, Outermost, config.get().as_slice(), all, next, world) {
        Ok(Some(op)) => Ok(Turn::Load(op)),
        Ok(None) => {
            let end = finish(walk.alloc, sheet, &mut walk.state);
            reset(walk, next);
            Ok(Turn::Ended(end?))
        }
        Err(Stop::Fault(fault)) => {
            reset(walk, next);
            Ok(Turn::Ended(End::Fault(fault)))
        }
        Err(Stop::Memory) => {
            reset(walk, next);
            Err(Memory)
        }
    }
}
