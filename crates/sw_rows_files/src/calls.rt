// Rows that are calls of libraries: a line each, as `nest a ; & b => a b`.
ghost use Rattle.std.specs.Prelude.{◌≡◌, ◌≢◌, IfOk, IsNone};

use crate::escapes::repeated;
use crate::files::{file_text, folder, row_files};
use crate::refusal::{Refusal, told};
use crate::tally::Tally;
use std::alloc::{AllocError, Global};
use std::io;
use std::rt::{Env, Files};

/// The libraries that a program calls.
pub trait Libraries {
    /// What a call answers: that of this name, of the library whose calls are in the file of that name, for the text of
    /// its arguments.
    fn answer(
        &self,
        alloc: Global,
        library: &str,
        name: &str,
        text: &str,
    ) -> Result<String, Refusal>;
}

/// Runs all calls of the folder's files `NAME.calls`, and prints a line for each file, and some for each call that
/// doesn't give what its line says.
pub fn run_calls<R: Env + Files + Print + AllocGlobal + Clone + Drop, L: Libraries>(
    rt: &R,
    libraries: &L,
) -> io::Result<Tally> {
    let mut tally = Tally::new();
    let folder = folder(rt)?;
    for file in row_files(rt, folder.as_str(), &[".calls"])?.iter() {
        let text = file_text(rt, folder.as_str(), file.as_str())?;
        tally.add(file_calls(rt, libraries, file.as_str(), text.as_str())?);
    }
    Ok(tally)
}

fn file_calls<R: Print + AllocGlobal, L: Libraries>(
    rt: &R,
    libraries: &L,
    file: &str,
    text: &str,
) -> io::Result<Tally> {
    let mut tally = Tally::new();
    let (library, _) = file.split_once('.').unwrap_or((file, ""));
    for line in text.lines() {
        if is_row(line) {
            let difference = difference(rt.alloc(), libraries, library, line)?;
            tally.count(difference.is_some());
            if let Some(difference) = difference {
                println!(rt; "FAILED {file}")?;
                print!(rt; "{difference}")?;
            }
        }
    }
    let (rows, failed) = (tally.rows(), tally.failed());
    println!(rt; "{file}: {rows} calls, {failed} failed")?;
    Ok(tally)
}

// A line that is empty, or a remark, which begins with `# `, is no row.
fn is_row(line: &str) -> bool {
    !line.is_empty() && !line.starts_with("# ")
}

// `None` where the call comes out as its line says, or otherwise where it is told wrongly on purpose; else what
// differs, as lines to print.
fn difference<L: Libraries>(
    alloc: Global,
    libraries: &L,
    library: &str,
    line: &str,
) -> Result<Option<String>, AllocError> {
    let (call, wanted) = cut(line);
    let wanted = repeated(alloc, wanted)?;
    match call.strip_prefix("wrong ") {
        Some(call) => {
            let seen = seen(alloc, libraries, library, call)?;
            as_told(alloc, call, wanted.as_str(), seen.as_str())
        }
        None => {
            let seen = seen(alloc, libraries, library, call)?;
            not_as_told(alloc, call, wanted.as_str(), seen.as_str())
        }
    }
}

// What is to be printed of a call that doesn't give what its line says; `None` only where it does.
fn not_as_told(
    alloc: Global,
    call: &str,
    wanted: &str,
    seen: &str,
) -> Result<Option<String>, AllocError>
    ensures { IfOk result (λ told. IsNone told → seen.now ≡ wanted.now) }
{
    if seen == wanted {
        return Ok(None);
    }
    Ok(Some(format!(in alloc; "  {call} is to be  {wanted}\n  {call} is        {seen}\n")?))
}

// What is to be printed of a call that gives what its line says, though that is wrong; `None` only where it doesn't.
fn as_told(
    alloc: Global,
    call: &str,
    wanted: &str,
    seen: &str,
) -> Result<Option<String>, AllocError>
    ensures { IfOk result (λ told. IsNone told → seen.now ≢ wanted.now) }
{
    if seen != wanted {
        return Ok(None);
    }
    Ok(Some(format!(in alloc; "  {call} is told wrongly, and gives {wanted}\n")?))
}

// The call and its answer, which may be empty.
fn cut(line: &str) -> (&str, &str) {
    match line.rsplit_once(" => ") {
        Some(parts) => parts,
        None => (line.strip_suffix(" =>").unwrap_or(line), ""),
    }
}

// What a call gives.
fn seen<L: Libraries>(
    alloc: Global,
    libraries: &L,
    library: &str,
    call: &str,
) -> Result<String, AllocError> {
    let (name, text) = call.split_once(' ').unwrap_or((call, ""));
    let text = repeated(alloc, text)?;
    told(alloc, libraries.answer(alloc, library, name, text.as_str()))
}
