//! How far names, white space, strings, numbers, urls and brackets reach in a text: what the readers of sheets,
//! selectors and media queries share. Places in a text flow in and out; no memory is kept.
#![tactic(auto)]

mod brackets;
mod bytes;
mod laws;
mod pieces;
mod runs;
pub mod signs;
mod words;

pub use brackets::{Stops, stop_at, string_end};
pub use bytes::{
    begins_loud, begins_silent, byte_at, ends_loud, is_break, is_digit, is_hex_digit, is_letter,
    is_quote, is_white, opens_at,
};
pub use laws::{runs_are_longest, stops_at_the_first};
pub use pieces::{piece, trimmed_end};
pub use runs::{Class, MOST_HEX_DIGITS, begins_name, escape_end, next_at, run_end, white_end};
pub use words::{
    begins_number, begins_range, begins_url, unit_end, unit_start, url_close, url_text_end,
};
