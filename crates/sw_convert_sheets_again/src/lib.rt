//! What is written of a sheet that was read is read again, as a sheet like it: comments, media queries and loads, and
//! with these every statement, every block through any depth, and every sheet. Definitions and laws alone; no code runs.
#![tactic(auto)]

mod law;

pub use law::{queries_are_read_again, sheets_are_read_again, statements_are_read_again};
