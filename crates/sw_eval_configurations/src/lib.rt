//! Configurations of modules: what a load gives to the module that it loads, what a forward passes on of its own
//! module's, and what counts as taken of that. It takes statements and values from below, and knows of no evaluation.
#![tactic(auto)]

mod given;
mod loads;
mod passing;

pub use given::{given_of, share_given};
pub use loads::{Load, load_of, load_op};
pub use passing::{has_name, is_null, passed, taken_by, value_in, value_passed};
