//! The folders of a disk as the compiler sees them: which of their files count, and the files that are then held.
//! Paths and bytes flow in from a disk, files flow out to what holds them.
#![tactic(auto)]

mod filling;
mod holder;
mod order;
mod reading;

pub use holder::Holder;
pub use reading::read_folder;
