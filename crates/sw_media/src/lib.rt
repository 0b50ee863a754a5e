//! Media queries: read from a text, joined with those around them, and written out. Texts flow in from the evaluator;
//! texts flow back.
#![tactic(auto)]

mod fault;
mod feature;
mod joining;
mod laws;
mod query;
mod reader;
mod words;
mod write;

pub use fault::MediaFault;
pub use joining::join;
pub use laws::{joins_in_order, reads_the_grammar};
pub use query::Queries;
use query::{Condition, Modifier, Query};
pub use reader::{LEVELS, MOST_QUERIES, read};
