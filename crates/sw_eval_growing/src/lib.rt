//! Calls of built-in functions that make their first argument grow: `append` to a list, `map.set` with one key and
//! `map.merge` with a map of one pair. Where nobody else holds the list or the map it isn't copied. Arguments flow in
//! from the evaluation, values flow out.
#![tactic(auto)]

mod built_ins;
mod calls;
mod given;
mod growing;
mod separators;
mod taking;

pub use built_ins::built_in_grown;
pub use calls::grows;
