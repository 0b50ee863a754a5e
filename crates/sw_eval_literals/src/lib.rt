//! What expressions need of values and of nothing else: what literals stand for, and what operators, lists, maps, loops
//! and texts make of values that were evaluated, each with its fault and place. The evaluator asks it; it asks values
//! and their operators.
#![tactic(auto)]

mod chain;
mod counting;
mod elements;
mod lists;
mod literals;
mod making;
mod maps;
mod quotients;
mod refused;
mod signs;
mod texts;
mod trimming;

pub use chain::{Left, needs_right};
pub use counting::Counting;
pub use elements::taken_apart;
pub use lists::list_value;
pub use literals::{
    constant_value, hash_value, important_value, number_value, string_value, word_value,
};
pub use maps::map_value;
pub use quotients::{Parens, deeper, into_plain_at, is_literal, of_item, plain_at};
pub use refused::{Refused, fails};
pub use signs::prefixed;
pub use texts::{css_text, declaration_text, inserted, is_written, joined, message, whole_text};
pub use trimming::{add_trimmed, trimmed};
