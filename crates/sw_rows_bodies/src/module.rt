// The sheets of the folder.
use crate::broken::Broken;
use std::alloc::Global;
use std::rt::Files;
use sw_parse_file::read_file;
use sw_rows_files::file_text;
use sw_text::{List, Name, Shared};
use sw_tree::Sheet;
use sw_world::Config;

// A text of more bytes is no sheet here.
const MOST_BYTES: usize = 1_000_000;

/// What a body runs.
#[derive(Drop)]
pub struct Module {
    pub sheet: Shared<Sheet>,
    pub config: Config,
    pub path: Name,
}

/// The module of a file, which is configured with nothing.
pub fn read_module(
    rt: &(impl Files + AllocGlobal),
    folder: &str,
    file: &str,
) -> Result<Module, Broken> {
    let text = file_text(rt, folder, file)?;
    module_of(rt.alloc(), file, text.as_str())
}

fn module_of(alloc: Global, path: &str, text: &str) -> Result<Module, Broken> {
    let path = Name::new(alloc, path)?;
    let config = Shared::new(alloc, List::new(alloc))?;
    let sheet = sheet_of(alloc, &path, text)?;
    Ok(Module {
        sheet,
        config,
        path,
    })
}

fn sheet_of(alloc: Global, path: &Name, text: &str) -> Result<Shared<Sheet>, Broken> {
    if text.len() > MOST_BYTES {
        return Err(Broken::Sheet);
    }
    match read_file(alloc, path, &Name::new(alloc, text)?)? {
        Ok(sheet) => Ok(sheet),
        Err(_) => Err(Broken::Sheet),
    }
}
