// What is written of the text of a sheet.
ghost use Rattle.std.specs.Prelude.{◌≡◌, ◌≤◌, length, IfOk};
ghost use Rattle.sw_cmd_convert.specs.Converted.{path_of, bytes_of, sheet_written, converted};
ghost use Rattle.sw_cmd_convert.specs.Ends.{most_bytes};

use std::alloc::Global;
use sw_cmd_line::{Conversion, Syntax};
use sw_convert_lines::{ConvertFault, indented_text};
use sw_convert_written::scss_text;
use sw_modules::Reader;
use sw_text::{List, Memory, Name};
use sw_tree::Sheet;
use sw_wire::{fault_line, not_indentable_line};

/// What is written of a sheet.
#[derive(Drop)]
pub enum Written {
    /// Its text.
    Whole(List<u8>),
    /// The line of what keeps it from being written.
    Refusal(List<u8>),
}

impl Written {
    /// The bytes of either.
    pub(crate) fn as_slice(&self) -> &[u8]
        ensures { result.now ≡ bytes_of self.now }
    {
        match self {
            Written::Whole(text) => text.as_slice(),
            Written::Refusal(line) => line.as_slice(),
        }
    }
}

/// What is written in the second syntax of a text of the first one.
pub(crate) fn converted<R: Reader>(
    alloc: Global,
    reader: &R,
    conversion: Conversion,
    text: &str,
) -> Result<Written, Memory>
    requires { length text.now ≤ most_bytes }
    ensures { IfOk result (λ written. written ≡ converted R.reads conversion.from conversion.to text.now) }
{
    let path = Name::new(alloc, path_of(conversion.from))?;
    let text = Name::new(alloc, text)?;
    match reader.read(alloc, &path, &text)? {
        Ok(sheet) => sheet_written(alloc, conversion.to, sheet.get()),
        Err(fault) => Ok(Written::Refusal(List::from_vec(fault_line(alloc, &fault)?))),
    }
}

fn path_of(syntax: Syntax) -> &'static str
    ensures { result.now ≡ path_of syntax }
{
    match syntax {
        Syntax::Scss => "in.scss",
        Syntax::Indented => "in.sass",
    }
}

fn sheet_written(alloc: Global, to: Syntax, sheet: &Sheet) -> Result<Written, Memory>
    ensures { IfOk result (λ written. written ≡ sheet_written to sheet.now) }
{
    match to {
        Syntax::Scss => Ok(Written::Whole(scss_text(alloc, sheet)?)),
        Syntax::Indented => match indented_text(alloc, sheet) {
            Ok(text) => Ok(Written::Whole(text)),
            Err(ConvertFault::NotIndentable(span)) => {
                let line = not_indentable_line(alloc, &span)?;
                Ok(Written::Refusal(List::from_vec(line)))
            }
            Err(ConvertFault::Memory) => Err(Memory),
        },
    }
}
