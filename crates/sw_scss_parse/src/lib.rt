//! The reader of whole sheets: which statement stands at a place, the one function that ties the descent into blocks
//! together, and the way from a text or its tokens to the sheet. A text flows in, or its tokens; a sheet flows out, or
//! the fault.
#![tactic(auto)]

mod begin;
mod fault;
mod simple;
mod statement;
mod statements;
mod whole;

pub use statements::read_statements;
pub use whole::{read, read_list, sheets_are_of_the_grammar};
