//! The folders of disks are compiled: the files that such a folder holds, with the runs that are kept, and one compile
//! of them. Files flow in from a disk, messages and CSS or a fault flow out, and CSS or the line of a fault into a
//! sink.
#![tactic(auto)]

mod compile;
mod ending;
mod watched;

pub use compile::once;
pub use ending::Ending;
pub use watched::Watched;
