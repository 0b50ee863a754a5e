//! Selectors: read from a text, nested in each other, written out, and taken apart. Texts flow in from the evaluator;
//! texts flow back.
#![tactic(auto)]

mod attribute;
mod depth;
mod fault;
mod holds;
mod laws;
mod misfits;
mod nesting;
mod parents;
mod prepare;
mod reader;
mod room;
mod selector;
mod simple;
mod splice;
mod turn;
mod units;
mod write;

pub use fault::SelectorFault;
pub use laws::{
    nests_in_order, never_too_deep, reads_the_grammar, writes_all_others, written_reads_back,
};
pub use nesting::nest;
pub use reader::{LEVELS, MOST_SELECTORS, read};
pub use selector::Selectors;
use selector::{Combinator, Complex, Part};
