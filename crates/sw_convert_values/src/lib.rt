//! What is written of any value is the tokens that are read again, and its text reads back: the knot over the values in
//! each value, of which `sw_convert_tokens` says what each is alone. Definitions and laws alone; no code runs.
#![tactic(auto)]

mod laws;

pub use laws::{expressions_read_back, values_are_written};
