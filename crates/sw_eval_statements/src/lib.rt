//! Statements: what one level of them does, over what evaluates the level below. It takes trees from below, and writes
//! variables and output into the walk's state.
#![tactic(auto)]

mod assignments;
mod at_rules;
mod flow;
mod imports;
mod includes;
mod loops;
mod messages;
mod names;
mod places;
mod styles;
mod texts;
mod work;

pub use includes::run_body;
pub use places::place_of;
pub use work::does_placed;
