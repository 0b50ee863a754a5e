//! The command line: which command its words ask for. The words behind the program's name flow in, a command with its
//! folder, its entry and its load paths, or with the syntaxes of a sheet, flows out.
#![tactic(auto)]

mod command;
mod number;
mod syntax;

pub use command::{Command, Target, command_of};
pub use syntax::{Conversion, Syntax};
