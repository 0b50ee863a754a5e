//! A made workload: a folder of so many parts, whose texts are written here, is made, compiled, edited and compiled
//! again fifty times. A number flows in, replies flow to an audience, and a summary into a sink.
#![tactic(auto)]

mod ending;
mod making;
mod tally;
mod texts;
mod workload;

pub use ending::Ending;
pub use making::make;
pub use tally::Tally;
pub use texts::{
    LIB_PATH, LIB_TEXT, MAIN_PATH, edited_place, edited_width, main_text, part_path, part_text,
    parts_of, summary, width_of,
};
