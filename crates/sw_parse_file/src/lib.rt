//! Which reader reads a file: the extension of its path says in which language its text is written. A path and a text
//! flow in; a sheet, or the fault, flows out.
#![tactic(auto)]

mod language;
mod read;

pub use language::{Language, language_of};
pub use read::read_file;
