//! The built-in functions of `sass:string`. A name and the values of its parameters flow in, a value flows out. Strings
//! count characters; each call looks at each character at most a few times.
#![tactic(auto)]

mod calls;
mod cases;
mod function;
mod pieces;
mod places;

pub use calls::call;
pub use function::Function;
