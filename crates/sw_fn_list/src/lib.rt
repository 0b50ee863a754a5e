//! The built-in functions of `sass:list`. A name and the values of its parameters flow in, a value flows out. Any value
//! counts as a list; each call looks at each item at most a few times.
#![tactic(auto)]

mod calls;
mod function;
mod items;
mod joining;
mod places;
mod separators;
mod zipping;

pub use calls::call;
pub use function::Function;
