//! A session: answers the requests of a source over a folder, and writes the replies into a sink.
//! Lines and bytes flow in and become requests; edits go to the folder, compiles go over it with an engine and the
//! host's functions; replies flow out.
#![tactic(auto)]

mod answers;
mod laws;
mod reading;
mod requests;
mod service;
mod session;

pub use answers::send_reply;
pub use laws::{answers_all, ends_exactly, transcript_is_one};
pub use reading::SheetReader;
pub use service::{serve, serve_within};
pub use sw_cmd_protocol::Stop;
