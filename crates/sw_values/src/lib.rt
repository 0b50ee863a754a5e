//! The values of the language: what they are, when two are the same, and how they are written in CSS. Expressions make
//! values; declarations and messages write them.
#![tactic(auto)]

mod amounts;
mod bound;
mod canon;
mod fault;
mod laws;
mod limits;
mod numbers;
mod plain;
mod strings;
mod value;
mod written;

pub use bound::Bound;
pub use canon::Canon;
pub use fault::ValueFault;
pub use laws::{equal_numbers_have_equal_words, parts_are_told_apart, rules_agree_with_words};
pub use plain::{Plain, Separator};
pub use value::{Node, Pairs, Value, list_of, map_of};
