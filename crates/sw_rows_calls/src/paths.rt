// Calls on paths and files: `path a/b.scss`, `unread a.scss ; 3`,
// `resolve main.scss ; lib ; lib.scss a/lib.scss ; a`, which is a sheet, a URL in it, the files of a folder, and load
// paths, and `copied a.scss ; a.scss b.scss`, which is a file that is taken out of a folder with these files once the
// folder was copied.
use std::alloc::Global;
use sw_folder::{EditFault, Folder, ResolveFault, is_path, unread_fault};
use sw_rows_files::{Refusal, answer_of, names, yes_or_no};
use sw_text::Name;

/// What a call on paths gives, or the fault's name where a file isn't read or a URL not resolved. `NoCall` for another
/// name or a count that isn't one; `Memory` exactly where none was found.
pub fn answer(alloc: Global, name: &str, text: &str) -> Result<String, Refusal> {
    match name {
        "path" => yes_or_no(alloc, is_path(text)),
        "unread" => unread(alloc, text),
        "resolve" => resolved(alloc, text),
        "copied" => copied(alloc, text),
        _ => Err(Refusal::NoCall),
    }
}

fn unread(alloc: Global, text: &str) -> Result<String, Refusal> {
    let (path, count) = text.split_once(" ; ").unwrap_or((text, ""));
    match unread_fault(path, count.parse::<usize>()?) {
        Some(fault) => answer_of(alloc, Err(fault)),
        None => Ok(String::from_str(alloc, "none")?),
    }
}

fn resolved(alloc: Global, text: &str) -> Result<String, Refusal> {
    let (from, rest) = text.split_once(" ; ").unwrap_or((text, ""));
    let (url, rest) = rest.split_once(" ; ").unwrap_or((rest, ""));
    let (files, paths) = rest.split_once(" ; ").unwrap_or((rest, ""));
    let paths = names(alloc, paths, ' ')?;
    let folder = answer_of(alloc, folder(alloc, files))?;
    path_text(alloc, folder.resolve(from, url, &paths))
}

// Whether the copy of a folder has a file still that was taken out of the folder itself.
fn copied(alloc: Global, text: &str) -> Result<String, Refusal> {
    let (path, files) = text.split_once(" ; ").unwrap_or((text, ""));
    let mut folder = answer_of(alloc, folder(alloc, files))?;
    let copy = answer_of(alloc, folder.copy())?;
    answer_of(alloc, folder.remove(path))?;
    yes_or_no(
        alloc,
        folder.text(path).is_none() && copy.text(path).is_some(),
    )
}

fn path_text(alloc: Global, path: Result<Name, ResolveFault>) -> Result<String, Refusal> {
    let path = answer_of(alloc, path)?;
    Ok(String::from_str(alloc, path.as_str())?)
}

fn folder(alloc: Global, files: &str) -> Result<Folder, EditFault> {
    let mut folder = Folder::new(alloc);
    for file in files.split_whitespace() {
        folder.put(file, b"")?;
    }
    Ok(folder)
}
