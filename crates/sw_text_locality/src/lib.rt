//! Names as they are kept, and where runs, names and strings end that stand in two texts: what the converter takes of a
//! text that was read. Texts flow in; names flow out.
#![tactic(auto)]

mod laws;
mod name;

pub use laws::keeps_names;
pub use name::{ends_unclosed, name_text, text_of};
