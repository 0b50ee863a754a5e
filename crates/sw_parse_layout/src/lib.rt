//! An indented sheet as the list of SCSS tokens that it stands for. The text of a sheet flows in from `sw_text`, its
//! pieces from `sw_tokens`; its tokens flow out, or the earliest fault.
#![tactic(auto)]

mod blocks;
mod comments;
mod laid;
mod lines;
mod pieces;
mod reader;
mod sorts;
mod state;
mod steps;
mod walk;

pub use reader::tokens_of;
pub use walk::{LayoutEnd, Place, layout, statements_end_with_their_lines, walks_come_to_an_end};
