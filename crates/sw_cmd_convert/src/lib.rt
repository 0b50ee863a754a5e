//! Sheets are converted from one syntax to the other. The bytes of a sheet flow in from a source; its text in the other
//! syntax, or the line of what keeps it from being written, flows out into a sink.
#![tactic(auto)]

mod conversion;
mod ending;
mod written;

pub use conversion::convert;
pub use ending::Ending;
pub use written::Written;
