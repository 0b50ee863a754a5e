// The disk of a row.
use crate::failing::{Failing, Object, failing_calls};
use crate::row::{File, Row};
use std::alloc::{AllocError, Global};
use sw_io::{Folder, MemDisk};
use sw_text::{List, Name};

/// A disk in memory with the folders of a row, some calls of which fail. An error exactly where no memory was found.
pub fn disk_of(alloc: Global, row: &Row, failing: Option<Failing>) -> Result<MemDisk, AllocError> {
    let mut folders = List::new(alloc);
    for folder in row.folders.iter() {
        folders
            .push(folder_of(alloc, folder)?)
            .map_err(|_| AllocError)?;
    }
    let fails = failing_calls(alloc, Object::Disk, &row.disk_fails, failing)?;
    Ok(MemDisk::new(alloc, folders, fails))
}

fn folder_of(alloc: Global, files: &[File]) -> Result<Folder, AllocError> {
    let mut folder = List::new(alloc);
    for file in files {
        let path = Name::new(alloc, file.path.as_str()).map_err(|_| AllocError)?;
        let bytes = List::from_vec(file.bytes.to_vec(alloc)?);
        folder.push((path, bytes)).map_err(|_| AllocError)?;
    }
    Ok(folder)
}
