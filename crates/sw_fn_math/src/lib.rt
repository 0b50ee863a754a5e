//! The built-in functions of `sass:math`. A name and the values of its parameters flow in, a value flows out; numbers
//! with units do the arithmetic.
#![tactic(auto)]

mod calls;
mod extremes;
mod function;
mod quotients;
mod rounding;

pub use calls::call;
pub use function::Function;
