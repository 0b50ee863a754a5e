// How the files of the folder are read.
use std::alloc::Global;
use sw_modules::Reader;
use sw_parse_file::read_file;
use sw_text::{Fault, Memory, Name, Shared};
use sw_tree::Sheet;

/// Reads each file by the extension of its path.
#[derive(Clone, Copy, Debug)]
pub struct SheetReader;

impl Reader for SheetReader {
    ghost use Rattle.sw_parse_file.specs.Files.{sheet_at};

    ghost reads = { sheet_at };

    /// The sheet of the text, or its fault.
    fn read(
        &self,
        alloc: Global,
        path: &Name,
        text: &Name,
    ) -> Result<Result<Shared<Sheet>, Fault>, Memory> {
        read_file(alloc, path, text)
    }
}
