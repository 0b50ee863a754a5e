//! The protocols of a session and of compiles that go on by steps: what a line asks for, and which lines a reply is.
//! Lines flow in and become requests; replies flow down and become bytes.
#![tactic(auto)]

mod arguments;
mod bases;
mod fault;
mod number;
mod parts;
mod read;
mod read_step;
mod reply;
mod request;
mod step_reply;
mod words;

pub use fault::LineFault;
pub use read::read_request;
pub use read_step::read_step_request;
pub use reply::{
    edit_reply, fault_line, memory_reply, not_indentable_line, write_front, write_reply, write_says,
};
pub use request::{Request, StepRequest};
pub use step_reply::{no_compile_reply, write_finished, write_loading, write_started, write_steps};
