//! The bytes that are written of texts in which values stand are the tokens that are read again: of words and names with
//! `#{}` in them, over what `sw_convert_tokens` says of values. What is copied from the sheet that was read stays the
//! tokens that it was. Definitions and laws alone; no code runs.
#![tactic(auto)]

mod laws;

pub use laws::{
    at_inserts_are_written, at_names_are_written, called_words_are_written, comments_are_written,
    custom_names_are_written, parts_adjoin, raw_texts_are_written, rule_texts_are_written,
    selectors_are_written, specials_are_written, urls_are_written, words_with_values_are_written,
};
