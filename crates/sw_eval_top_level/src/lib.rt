//! The top level of a sheet: loads with their configurations, and what its statements do one behind the other, over
//! anything that evaluates the levels below. It takes trees from below, and writes into the walk's state.
#![tactic(auto)]

mod loads;
mod taking;
mod top;

pub use top::walk_on;
