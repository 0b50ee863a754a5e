//! What the built-in functions have in common: why a call gives no value, what they see of their arguments, and how
//! they make their values. The crates of functions stand on it; it asks values.
#![tactic(auto)]

mod arguments;
mod fault;
mod kinds;
mod making;

pub use arguments::{Argument, four, one, rest, three, two};
pub use fault::{FnFault, fault_of};
pub use kinds::{is_quoted, number_of, text_of};
pub use making::{count, list, number, ordinal, string, text, within};
