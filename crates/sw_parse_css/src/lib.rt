//! The reader of plain CSS: rules, declarations and at-rules, whose preludes and values are text as it is read. What
//! each token is follows from the brackets that are open before it and from how its statement began; the table of
//! `specs/` says what stands where. A text flows in; a sheet, or the fault, flows out.
#![tactic(auto)]

mod block;
mod body;
mod end;
mod made;
mod pass;
mod place;
mod read;
mod said;
mod seen;
mod sheet;
mod simple;
mod sort;
mod state;
mod statement;
mod step;
mod text;

pub use end::ReadEnd;
pub use sheet::{read_css, sheets_are_of_the_grammar};
