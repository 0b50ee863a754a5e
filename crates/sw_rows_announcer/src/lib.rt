//! A second engine beside the evaluator, for a language that has nothing of Sass: each of its bodies loads its own
//! path, says it, and ends. Sheets and answers flow in, questions and ends flow out.
#![tactic(auto)]

mod announcer;
mod parts;
mod place;
mod stop;
mod turn;

pub use announcer::{Announcement, Announcer};
