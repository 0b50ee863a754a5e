// The sheets that lie beside the rows.
use std::io;
use std::rt::{Env, Files};
use sw_rows_files::{file_text, folder, row_files};

/// A sheet of the folder.
#[derive(Drop)]
pub struct SheetFile {
    name: String,
    text: String,
}

/// The sheets of the folder.
#[derive(Drop)]
pub struct Sheets {
    files: Vec<SheetFile>,
}

impl Sheets {
    /// All files of the folder whose names end in `.scss`.
    pub fn read<R: Env + Files + AllocGlobal + Clone + Drop>(rt: &R) -> io::Result<Sheets> {
        let mut files = Vec::new(rt.alloc());
        let folder = folder(rt)?;
        for name in row_files(rt, folder.as_str(), &[".scss"])?.iter() {
            files.push(sheet_file(rt, folder.as_str(), name.as_str())?)?;
        }
        Ok(Sheets { files })
    }

    /// The text of the file of this name.
    pub fn text(&self, name: &str) -> Option<&str> {
        for file in &self.files {
            if file.name.as_str() == name {
                return Some(file.text.as_str());
            }
        }
        None
    }
}

fn sheet_file<R: Files + AllocGlobal>(rt: &R, folder: &str, name: &str) -> io::Result<SheetFile> {
    let text = file_text(rt, folder, name)?;
    Ok(SheetFile {
        name: String::from_str(rt.alloc(), name)?,
        text,
    })
}
