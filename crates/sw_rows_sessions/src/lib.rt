//! Sessions and compiles as rows: what is sent, over which disk, with which functions of a host and to which reporters,
//! and what has to come of it. The
//! text of a file of rows flows in, its rows flow out; an ending flows in, and what differs flows out.
#![tactic(auto)]

mod archive;
mod cases;
mod difference;
mod disks;
mod ending;
mod failing;
mod hosts;
mod listeners;
mod replies;
mod row;
mod sessions;

pub use archive::{Section, sections};
pub use cases::case_rows;
pub use disks::disk_of;
pub use ending::{Ending, told};
pub use failing::{Failing, Object, failing_calls};
pub use hosts::{HostKind, RowHost};
pub use listeners::{Heard, Listener, heard_by, hub_of, hub_with};
pub use replies::looked_at;
pub use row::{File, Look, Row};
pub use sessions::session_rows;
