//! Functions that a caller hands to a compile in boxes, each under its name, which sheets call and which may change when
//! they are called. A table of them is what answers a body's calls.
#![tactic(auto)]

mod boxed;
mod host;
mod kinds;
mod names;
mod refusal;
mod seat;
mod table;

pub use host::HostFn;
pub use kinds::{Counter, First};
pub use refusal::{NotHosted, Why};
pub use table::HostTable;
