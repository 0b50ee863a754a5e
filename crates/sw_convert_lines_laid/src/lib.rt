//! What is written of statements up to their ends and blocks is lines: what `sw_convert_statements` says of their tokens
//! flows in, that these are lines as `sw_convert_laid` has them flows out. Definitions and laws alone; no code runs.
#![tactic(auto)]

mod laws;

pub use laws::{fronts_are_lines, held_texts_hold};
