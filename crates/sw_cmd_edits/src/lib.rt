//! Edits of a folder, which requests of several commands ask for: the bytes of a put, and what comes of a put and a
//! removal. Paths and bytes flow in, a folder changes, and replies flow out into a sink.
#![tactic(auto)]

mod body;
mod editable;
mod edits;

pub use editable::Editable;
pub use edits::{Upload, answer_put, answer_removal};
