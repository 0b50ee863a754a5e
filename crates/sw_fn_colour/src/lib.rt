//! The built-in functions of `sass:color`, and those of colours that stand in no module. A function and the values of
//! its parameters flow in, a value flows out; colours do the arithmetic.
#![tactic(auto)]

mod amounts;
mod calls;
mod changes;
mod colours;
mod function;
mod making;
mod mixing;
mod parts;
mod steps;

pub use calls::call;
pub use function::Function;
