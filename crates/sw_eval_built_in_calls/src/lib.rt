//! Calls of built-in functions, and their variables: what the arguments of a call fill, the defaults of parameters, and
//! what the function answers, with the place of its fault. Arguments flow in from the evaluation, values flow out.
#![tactic(auto)]

mod built_ins;

pub use built_ins::{built_in_arguments, built_in_call, built_in_value, built_in_variable};
