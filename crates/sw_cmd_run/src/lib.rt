//! The commands of the program: what the words of its command line ask for is done. Words, lines and files flow in,
//! replies or CSS flow out, and a status.
#![tactic(auto)]

mod command;
mod laws;
mod poll;
mod scan;
mod service;
mod surroundings;
mod word;

pub use command::{NO_COMMAND, run};
pub use laws::{poll_answers_all, poll_ends_exactly, scans_read_in_turn};
pub use service::poll_folder;
pub use surroundings::Surroundings;
pub use word::Word;
