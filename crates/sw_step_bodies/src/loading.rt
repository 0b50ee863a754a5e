// What a load comes to.
ghost use Rattle.std.specs.Prelude.{◌≡◌, ◌≤◌, ◌<◌, length, IfOk, OnErr};
ghost use Rattle.sw_folder.specs.Files.{most_bytes};
ghost use Rattle.sw_world.specs.Questions.{IsLoad};
ghost use Rattle.sw_world.specs.Body.{BodyOf};
ghost use Rattle.sw_modules.specs.Settings.{hostless};
ghost use Rattle.sw_step_bodies.specs.Moves.{DidLoad, IsRead};

use crate::body::Work;
use crate::outside::Within;
use sw_modules::{Begin, Live, Reader};
use sw_text::{Memory, Name, Shared};
use sw_tree::Sheet;
use sw_world::{Answer, End, Question};

/// What a load comes to.
#[derive(Drop)]
pub enum Loaded {
    Answered(Answer),
    /// This body is opened for it; its path is told.
    Opens { work: Work, opened: Name },
}

/// What the text of a module that is open comes to: its sheet and its path, or the answer to its load.
#[derive(Drop)]
pub enum Reading {
    Read { sheet: Shared<Sheet>, opened: Name },
    Unread(Answer),
}

/// Begins a load. After `Memory` the state is as before.
pub(crate) fn load<R: Reader>(
    within: &Within<'_, R>,
    live: &mut Live<'_>,
    op: &Question,
) -> Result<Loaded, Memory>
    requires { IsLoad op.now }
    ensures did { (body : BodyOf) → IfOk result (λ loaded. DidLoad (hostless R.reads body) op.now loaded live.old
        live.new) }
    ensures err { OnErr result (live.new ≡ live.old) }
{
    match live.begin(op)? {
        Begin::Answered(answer) => Ok(Loaded::Answered(answer)),
        Begin::Open { path, text, config } => match read_open(within, live, op, &path, &text) {
            Ok(Reading::Read { sheet, opened }) => {
                let work = Work {
                    sheet,
                    config,
                    path,
                    loads: 0,
                };
                Ok(Loaded::Opens { work, opened })
            }
            Ok(Reading::Unread(answer)) => Ok(Loaded::Answered(answer)),
            Err(memory) => {
                live.close();
                Err(memory)
            }
        },
    }
}

/// Reads the text of the innermost open load. Where it doesn't read, the load is answered.
fn read_open<R: Reader>(
    within: &Within<'_, R>,
    live: &mut Live<'_>,
    op: &Question,
    path: &Name,
    text: &Name,
) -> Result<Reading, Memory>
    requires load { IsLoad op.now }
    requires few { length text.now ≤ most_bytes }
    requires is_open { 0 < length live.old.opened }
    ensures read { IfOk result (λ reading. IsRead R.reads path.now text.now op.now reading live.old live.new) }
    ensures err { OnErr result (live.new ≡ live.old) }
{
    let opened = path.share()?;
    match within.reader.read(within.alloc, path, text)? {
        Ok(sheet) => Ok(Reading::Read { sheet, opened }),
        Err(fault) => Ok(Reading::Unread(live.end(op, &End::Fault(fault))?)),
    }
}
