// Which kept runs may serve a module, and the sheet of one that has to run.
ghost use Rattle.std.specs.Prelude.{◌≡◌, ◌≢◌, ◌≤◌, ◌↔◌, [], length, IfOk, IsTrue, MatchOption};
ghost use Rattle.std.specs.List.{All};
ghost use Rattle.sw_folder.specs.Files.{most_bytes};
ghost use Rattle.sw_keeper.specs.Keeping.{most_kept};
ghost use Rattle.sw_keeper.specs.Steps.{IsAlikeAt, AreAlike, NoneAlike, DiffersBy, IsWith};

use crate::context::{Opening, Within};
use sw_modules::Reader;
use sw_record::{Cause, Run, is_alike};
use sw_text::{Fault, Memory, Name, Shared};
use sw_tree::Sheet;
use sw_world::Engine;

/// The kept runs that are of the text and the configuration of a module.
pub(crate) fn alike_of<E: Engine>(runs: &[Shared<Run<E>>], opening: &Opening) -> [bool; 8]
    requires { length runs.now ≤ most_kept }
    ensures { AreAlike runs.now opening.now.text opening.now.config result }
{
    let mut marks = [false; 8];
    for place in 0..8 {
        marks[place] = is_alike_at(runs, place, opening);
    }
    marks
}

fn is_alike_at<E: Engine>(runs: &[Shared<Run<E>>], place: usize, opening: &Opening) -> bool
    ensures { IsTrue result ↔ IsAlikeAt runs.now place opening.now.text opening.now.config }
{
    match runs.get(place) {
        None => false,
        Some(run) => is_alike(run.get(), &opening.text, &opening.config),
    }
}

/// The sheet of a text, or the fault with which it doesn't read. A text that a kept run has isn't read again.
#[inline(never)]
pub(crate) fn read_sheet<R: Reader, E: Engine>(
    within: &Within<'_, R, E>,
    opening: &Opening,
) -> Result<Result<Shared<Sheet>, Fault>, Memory>
    requires { length opening.now.text ≤ most_bytes }
    ensures { IfOk result (λ reading. reading ≡ R.reads opening.now.path opening.now.text) }
{
    match run_with(within.kept.runs(&opening.path, 0), &opening.text) {
        Some(run) => Ok(Ok(run.get().sheet().share()?)),
        None => within
            .reader
            .read(within.alloc, &opening.path, &opening.text),
    }
}

/// The first of these runs that has a text.
fn run_with<'k, E: Engine>(runs: &'k [Shared<Run<E>>], text: &Name) -> Option<&'k Shared<Run<E>>>
    ensures { MatchOption result (All (λ kept. kept.run.text ≢ text.now) runs.now)
        (λ run. IsWith runs.now text.now run.now) }
{
    for at in 0..runs.len() {
        if runs[at].get().text().same(text) {
            return Some(&runs[at]);
        }
    }
    None
}

/// Why the body of a module has to run of which no kept run has this text and this configuration.
pub(crate) fn cause_anew<R: Reader, E: Engine>(
    within: &Within<'_, R, E>,
    opening: &Opening,
) -> Cause
    requires { NoneAlike within.now.kept.now opening.now.path opening.now.text opening.now.config }
    ensures { DiffersBy within.now.kept.now opening.now.path opening.now.text opening.now.config [] result }
{
    let runs = within.kept.runs(&opening.path, 0);
    if runs.is_empty() {
        return Cause::First;
    }
    match run_with(runs, &opening.text) {
        Some(_) => Cause::Config,
        None => Cause::Text,
    }
}
