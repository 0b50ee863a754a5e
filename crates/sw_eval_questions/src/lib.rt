//! A body as a talk with what is outside: the definition of an evaluation that asks, the laws that hold of each, and
//! the questions themselves. It knows nothing of what a sheet's statements mean.
#![tactic(auto)]

mod asked;
mod place;
mod questions;
mod stop;

pub use asked::Asked;
pub use place::Place;
pub use questions::{ask, known, lost};
pub use stop::{Stop, fails, stopped};
