//! Expressions: what one level of them means, over what evaluates the level below. It takes trees from below and hands
//! values up.
#![tactic(auto)]

mod calls;
mod choosing;
mod functions;
mod growing;
mod leaves;
mod special;
mod value;

pub use growing::value_given_up;
pub use value::value_one;
