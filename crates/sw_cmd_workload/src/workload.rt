// The folder of a made workload, and its compiles.
ghost use Rattle.std.specs.Prelude.{◌≡◌, ◌++◌, [], List, ℕ, IfOk, OnOk, OnErr};
ghost use Rattle.sw_keeper.specs.Compile.{paths_of};
ghost use Rattle.sw_cmd_workload.specs.Texts.{parts_of, part_path, part_text};
ghost use Rattle.sw_modules.specs.Settings.{hostless};
ghost use Rattle.sw_cmd_workload.specs.Made.{with_file, with_parts, made, edited, IsAfter, IsReply};

use crate::{
    LIB_PATH, LIB_TEXT, MAIN_PATH, edited_place, edited_width, main_text, part_path, part_text,
    parts_of, width_of,
};
use std::alloc::Global;
use sw_folder::EditFault;
use sw_keeper::Keeper;
use sw_modules::Reader;
use sw_record::Reply;
use sw_text::{Memory, Name};
use sw_world::{Engine, NoHosts};

/// Makes the folder of the first compile, of which no run is kept.
pub(crate) fn folder_made<R: Reader, E: Engine>(
    alloc: Global,
    number: u32,
) -> Result<Keeper<R, E>, Memory>
    ensures folder { IfOk result (λ keeper. keeper.folder ≡ made number) }
    ensures kept { IfOk result (λ keeper. keeper.kept ≡ []) }
{
    let mut keeper = Keeper::<R, E>::new(alloc);
    put(&mut keeper, LIB_PATH, LIB_TEXT)?;
    put_parts(alloc, number, &mut keeper)?;
    let text = main_text(alloc, parts_of(number))?;
    put(&mut keeper, MAIN_PATH, text.as_str())?;
    Ok(keeper)
}

// Puts the parts, in order.
fn put_parts<R: Reader, E: Engine>(
    alloc: Global,
    number: u32,
    keeper: &mut Keeper<R, E>,
) -> Result<(), Memory>
    ensures folder { OnOk result (keeper.new.folder ≡ with_parts number (parts_of number) keeper.old.folder) }
    ensures kept { keeper.new.kept ≡ keeper.old.kept }
{
    'parts: for place in 0..parts_of(number) {
        put_part(alloc, keeper, place, width_of(number, place))?;
    }
    Ok(())
}

/// Makes one part anew before each compile but the first one.
pub(crate) fn edit<R: Reader, E: Engine>(
    alloc: Global,
    number: u32,
    turn: u32,
    keeper: &mut Keeper<R, E>,
) -> Result<(), Memory>
    ensures folder { OnOk result (keeper.new.folder ≡ edited number turn keeper.old.folder) }
    ensures kept { keeper.new.kept ≡ keeper.old.kept }
{
    if turn == 0 {
        return Ok(());
    }
    put_part(
        alloc,
        keeper,
        edited_place(number, turn),
        edited_width(number, turn),
    )
}

fn put_part<R: Reader, E: Engine>(
    alloc: Global,
    keeper: &mut Keeper<R, E>,
    place: u32,
    width: u32,
) -> Result<(), Memory>
    ensures folder { OnOk result (keeper.new.folder
        ≡ with_file (part_path place) (part_text place width) keeper.old.folder) }
    ensures kept { keeper.new.kept ≡ keeper.old.kept }
{
    let path = part_path(alloc, place)?;
    let text = part_text(alloc, place, width)?;
    put(keeper, path.as_str(), text.as_str())
}

// Puts a file; a put that is refused leaves the folder.
fn put<R: Reader, E: Engine>(
    keeper: &mut Keeper<R, E>,
    path: &str,
    text: &str,
) -> Result<(), Memory>
    ensures folder { OnOk result (keeper.new.folder ≡ with_file path.now text.now keeper.old.folder) }
    ensures kept { keeper.new.kept ≡ keeper.old.kept }
{
    match keeper.put(path, text.as_bytes()) {
        Ok(()) => Ok(()),
        Err(EditFault::Memory) => Err(Memory),
        Err(_) => Ok(()),
    }
}

/// Compiles what is held.
pub(crate) fn compile<R: Reader, E: Engine>(
    alloc: Global,
    reader: &R,
    keeper: &mut Keeper<R, E>,
    engine: &mut E,
) -> Result<Reply, Memory>
    ensures reply { IfOk result (λ reply. IsReply (hostless R.reads E.body) keeper.old reply) }
    ensures after { OnOk result (IsAfter (hostless R.reads E.body) keeper.old keeper.new) }
    ensures ran { IfOk result (λ reply. E.ran engine.new ≡ E.ran engine.old ++ paths_of reply.ran) }
    ensures cut { OnErr result ((more : List (List ℕ)) × (E.ran engine.new ≡ E.ran engine.old ++ more)) }
{
    let entry = Name::new(alloc, MAIN_PATH)?;
    let reply = keeper.compile(reader, &entry, &[], engine, &mut NoHosts)?;
    Ok(reply)
}
