//! The parts of statements below their blocks: raw text, comments, the names of members and modules, and the statements
//! that are made of these alone. A reader of what may hold `#{}` takes the one that reads lists without commas as a
//! parameter, so that no function calls back up. Lexemes flow in; parts of the tree, and the places behind them, flow
//! out.
#![tactic(auto)]

mod at;
mod comment;
mod custom;
mod filter;
mod given;
mod loading;
mod name;
mod raw;
mod statement;

pub use at::{begins_raw, finish_at, is_finished};
pub use comment::comment_at;
pub use custom::custom_at;
pub use filter::{Passed, filter_at};
pub use given::{Load, with_at};
pub use loading::use_at;
pub use name::{as_name_at, as_prefix_at, dollar_name_at, member_at};
pub use raw::{optional_raw_at, raw_at};
pub use statement::{charset_at, extend_at, import_at};
