//! Operators: what `+`, `<`, `not` and the like make of values. The evaluator asks them; they ask values, numbers and
//! colours.
#![tactic(auto)]

mod fault;
mod joining;
mod one_side;
mod sides;
mod two_sides;

pub use fault::OpFault;
pub use one_side::{Op1, unary};
pub use sides::{keeps_sides, kept_quotient, plain};
pub use two_sides::{Op2, binary};
