//! Compiles under way over one folder that goes on changing, each of which goes on by single steps. Edits, starts and
//! steps flow in; how far a compile came, and at its end its messages with the CSS or the fault, flow out.
#![tactic(auto)]

mod compile;
mod fault;
mod steps;

pub use fault::{StartFault, StepFault};
pub use steps::Steps;
