//! The variables that running code sees, and the arguments of a call. Local variables stand in one vector, cut into
//! frames by marks, and a frame may stand on another that lies lower and isn't its neighbour; below them all are the
//! variables of the module's top, by name. Names flow in and values out, and the arguments of a call become one slot
//! for each parameter.
#![tactic(auto)]

mod binding;
mod fault;
mod find;
mod frames;
mod index;
mod laws;
mod mark;
mod passed;
mod scopes;
mod slots;
mod table;

pub use binding::bind;
pub use fault::BindFault;
pub use laws::frames_seen_are_scopes;
pub use mark::{FrameKind, Mark, Origin};
pub use passed::Passed;
pub use scopes::Scopes;
pub use slots::{Slot, Slots};
