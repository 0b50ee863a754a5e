//! The files of a folder by their paths, the edits that change them, and which file a URL means. Edits flow in, texts
//! and resolved paths flow out.
#![tactic(auto)]

mod edit;
mod folder;
mod path;
mod resolve;
mod sought;

pub use edit::{EditFault, unread_fault};
pub use folder::Folder;
pub use path::is_path;
pub use resolve::{ResolveFault, has_extension};
