//! The reader of indented sheets. A text flows in from `sw_text`; the list of SCSS tokens that it stands for is that of
//! `sw_parse_layout`, the tree that of `sw_scss_parse`; the sheet flows out, or the fault.
#![tactic(auto)]

mod sheet;

pub use sheet::{indented_sheets_are_of_the_grammar, read};
