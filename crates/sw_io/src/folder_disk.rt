// A disk over the folders of a file system: the edge to real files.
ghost use Rattle.std.specs.Prelude.{◌≡◌, ◌≤◌};
ghost use Rattle.sw_io.specs.Causes.{NoFault, Rose};
ghost use Rattle.sw_io.specs.declared.disk.DiskEnd.TheVariants as D;

use crate::disk::{Disk, DiskEnd};
use crate::shelf::is_sheet;
use std::alloc::Global;
use std::fs;
use std::io::{self, ErrorKind, Read};
use std::rt::Files;
use sw_text::{List, Name};

const MOST_PATHS: usize = 65_536;

const MOST_READ: u64 = 1_048_577;

/// The folders of a file system, which tells nothing of what they hold. Links aren't followed. Each of these is a
/// fault: a folder that is there and can't be listed, more than 65,536 sheets in one, a name that isn't UTF-8, and a
/// file that is there and can't be read. The folder itself has to be there.
#[derive(Drop)]
pub struct FolderDisk<R: Files + AllocGlobal + Clone + Drop> {
    files: R,
    faults: u64,
}

impl<R: Files + AllocGlobal + Clone + Drop> FolderDisk<R> {
    /// A disk that hasn't failed.
    pub fn new(files: R) -> Self {
        FolderDisk { files, faults: 0 }
    }

    // Want of memory is no fault of the disk.
    fn end_of(&mut self, error: &io::Error) -> DiskEnd
        ensures later { self.old.faults ≤ self.new.faults }
        ensures rose { result ≡ D.Failed → Rose self.old.faults self.new.faults }
        ensures fine { result ≡ D.Memory → NoFault self.old.faults self.new.faults }
    {
        if error.kind() == ErrorKind::OutOfMemory {
            return DiskEnd::Memory;
        }
        self.faults = self.faults.saturating_add(1);
        DiskEnd::Failed
    }
}

impl<R: Files + AllocGlobal + Clone + Drop> Disk for FolderDisk<R> {
    ghost use Rattle.std.specs.Prelude.{None};

    ghost course = { λ disk dir. None };

    ghost faults = { λ disk. disk.faults };

    fn list(&mut self, alloc: Global, dir: &str) -> Result<List<Name>, DiskEnd> {
        match sheets_in(&self.files, alloc, dir) {
            Ok(paths) => Ok(paths),
            Err(error) => Err(self.end_of(&error)),
        }
    }

    fn read(&mut self, alloc: Global, dir: &str, path: &str) -> Result<Option<List<u8>>, DiskEnd> {
        match first_bytes(&self.files, alloc, dir, path) {
            Ok(bytes) => Ok(bytes),
            Err(error) => Err(self.end_of(&error)),
        }
    }
}

// What a walk over a folder found: paths of sheets, and folders that it hasn't been in, each relative and with `/` at
// its end.
#[derive(Drop)]
struct Found {
    paths: Vec<Name>,
    folders: Vec<String>,
}

fn sheets_in<R: Files + AllocGlobal + Clone + Drop>(
    files: &R,
    alloc: Global,
    dir: &str,
) -> io::Result<List<Name>> {
    let mut found = Found {
        paths: Vec::new(alloc),
        folders: Vec::new(alloc),
    };
    add_entries(files, alloc, dir, "", &mut found)?;
    for _ in 0..u64::MAX {
        let Some(folder) = found.folders.pop() else {
            return Ok(List::from_vec(found.paths));
        };
        match add_entries(files, alloc, dir, folder.as_str(), &mut found) {
            Ok(()) => {}
            // It went after its name was read.
            Err(error) if error.kind() == ErrorKind::NotFound => {}
            Err(error) => return Err(error),
        }
    }
    Err(io::Error::from(ErrorKind::FileTooLarge))
}

fn add_entries<R: Files + AllocGlobal + Clone + Drop>(
    files: &R,
    alloc: Global,
    dir: &str,
    folder: &str,
    found: &mut Found,
) -> io::Result<()> {
    let place = format!(in alloc; "{dir}/{folder}")?;
    for entry in fs::read_dir(files, place.as_str())? {
        let entry = entry?;
        let path = format!(in alloc; "{folder}{}", entry.file_name())?;
        match entry.file_type() {
            Ok(kind) => add_entry(alloc, kind.is_dir(), kind.is_file(), path, found)?,
            // It went after its name was read.
            Err(error) if error.kind() == ErrorKind::NotFound => {}
            Err(error) => return Err(error),
        }
    }
    Ok(())
}

fn add_entry(
    alloc: Global,
    is_dir: bool,
    is_file: bool,
    path: String,
    found: &mut Found,
) -> io::Result<()> {
    let mut path = path;
    if is_dir {
        path.push('/')?;
        found.folders.push(path)?;
    } else if is_file && is_sheet(path.as_str()) {
        if found.paths.len() >= MOST_PATHS {
            return Err(io::Error::from(ErrorKind::FileTooLarge));
        }
        found.paths.push(name_of(alloc, path.as_str())?)?;
    }
    Ok(())
}

fn name_of(alloc: Global, path: &str) -> io::Result<Name> {
    match Name::new(alloc, path) {
        Ok(name) => Ok(name),
        Err(_) => Err(io::Error::from(ErrorKind::OutOfMemory)),
    }
}

fn first_bytes<R: Files + AllocGlobal + Clone + Drop>(
    files: &R,
    alloc: Global,
    dir: &str,
    path: &str,
) -> io::Result<Option<List<u8>>> {
    let place = format!(in alloc; "{dir}/{path}")?;
    let file = match fs::open(files, place.as_str()) {
        Ok(file) => file,
        Err(error) if error.kind() == ErrorKind::NotFound => return Ok(None),
        Err(error) => return Err(error),
    };
    let mut bytes = Vec::new(alloc);
    file.take(MOST_READ).read_to_end(&mut bytes)?;
    Ok(Some(List::from_vec(bytes)))
}
