//! The built-in functions of `sass:map`. A name and the values of its parameters flow in, a value flows out. A key is
//! found in constant time; a call that makes a map looks at each of its pairs a few times.
#![tactic(auto)]

mod calls;
mod changes;
mod deep;
mod function;
mod lookups;
mod pairs;

pub use calls::call;
pub use function::Function;
pub use pairs::map_value;
