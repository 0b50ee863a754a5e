//! Compiles that go on by steps: answers the requests of a source over a folder that goes on changing, and writes the
//! replies into a sink. Lines and bytes flow in and become requests; edits go to the folder, starts and steps to the
//! compiles under way; replies flow out.
#![tactic(auto)]

mod answers;
mod laws;
mod requests;
mod service;
mod stepping;

pub use laws::{answers_all, ends_exactly, numbers_are_few, transcript_is_one};
pub use service::{serve_steps, serve_steps_within};
