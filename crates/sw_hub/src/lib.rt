//! Who hears the replies of compiles: reporters, attached to a hub. Replies flow in from the loop of the commands, once
//! their bytes are written, and on to each reporter; the reporters flow back out where they are taken off.
#![tactic(auto)]

mod copy;
mod hub;
mod laws;
mod listed;
mod mem_reporter;
mod reporter;
mod seat;
mod steady_reporter;

pub use hub::{AttachFault, Hub, MOST_NUMBERS, NotAttached};
pub use laws::all_attend;
pub use mem_reporter::MemReporter;
pub use reporter::Reporter;
pub use steady_reporter::SteadyReporter;
