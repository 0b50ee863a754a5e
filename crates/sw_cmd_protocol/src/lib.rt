//! What is common to all commands that answer requests line by line: how bytes are a script, what a transcript is, and
//! the loop that answers. Lines flow in from a source and go to a protocol, which answers each; its replies flow out
//! into a sink, and are told to an audience.
#![tactic(auto)]

mod audience;
mod laws;
mod lines;
mod protocol;
mod sending;
mod service;
mod stop;

pub use audience::{Audience, Output};
pub use laws::{answers_all, ends_exactly};
pub use lines::Lines;
pub use protocol::Protocol;
pub use sending::{answer, send};
pub use service::Service;
pub use stop::Stop;
