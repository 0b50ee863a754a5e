// The files that hold rows.
use std::rt::{Env, Files};
use std::{env, fs, io};

/// The folder that the command line names, or else the one in which the program runs.
pub fn folder(rt: &(impl Env + AllocGlobal)) -> io::Result<String> {
    match env::args(rt)?.nth(1) {
        Some(folder) => Ok(folder),
        None => Ok(String::from_str(rt.alloc(), ".")?),
    }
}

/// The names of a folder's files with one of these endings, in byte order.
pub fn row_files<R: Files + AllocGlobal + Clone + Drop>(
    rt: &R,
    folder: &str,
    endings: &[&str],
) -> io::Result<Vec<String>> {
    let mut names = Vec::new(rt.alloc());
    for entry in fs::read_dir(rt, folder)? {
        let entry = entry?;
        let name = entry.file_name();
        if ends_with(name, endings) {
            names.push(String::from_str(rt.alloc(), name)?)?;
        }
    }
    names.sort()?;
    Ok(names)
}

fn ends_with(name: &str, endings: &[&str]) -> bool {
    for ending in endings {
        if name.ends_with(*ending) {
            return true;
        }
    }
    false
}

/// The text of a file of the folder.
pub fn file_text(rt: &(impl Files + AllocGlobal), folder: &str, file: &str) -> io::Result<String> {
    let path = format!(in rt.alloc(); "{folder}/{file}")?;
    fs::read_to_string(rt, path.as_str())
}
