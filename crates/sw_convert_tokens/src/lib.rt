//! The bytes that are written of a value are the tokens that are read again: the tokens that `sw_convert_again` speaks of,
//! as `sw_convert_passing` has them, each a token where it stands as `sw_convert_spelling` asks. Definitions and laws
//! alone; no code runs.
#![tactic(auto)]

mod laws;

pub use laws::{numbers_are_written, variables_are_written, words_are_written};
