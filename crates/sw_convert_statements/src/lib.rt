//! The bytes that are written of statements are the tokens that are read again: what `sw_convert_again` says of their
//! tokens and `sw_convert_written` of their text flows in, that the text is these tokens flows out, with how
//! `sw_convert_heads_passing` has them. Definitions and laws alone; no code runs.
#![tactic(auto)]

mod laws;

pub use laws::{
    fronts_are_written, known_sheets_have_fronts, named_fronts_are_written, scss_is_read_back,
    sheets_are_written, sheets_read_back, statements_are_written, text_fronts_are_written,
};
