//! That statements, as the pass over tokens has them, are lines to the layout: the tokens of what `sw_convert_heads_passing`
//! speaks of flow in, that they pass the test of lines of `sw_convert_laid` flows out. Definitions and laws alone; no code
//! runs.
#![tactic(auto)]

mod laws;

pub use laws::statements_pass_as_lines;
