//! The nodes of expressions: how each is made of what was read, and the readers of those that are one token or a few.
//! Places and what was read at them flow in; expressions, and why there is none, flow out.
#![tactic(auto)]

mod at;
mod build;
mod leaf;
mod lined;
mod numeral;
mod text;

pub use at::{
    begins_argument, begins_word, ends_with_comma, given_up, is_bang, is_constant, is_dollar,
    is_number, is_operator, is_paren, is_prefix, kept, skipped,
};
pub use build::{Inner, Inserted, bracketed, chained, enclosed, listed, prefixed, spaced};
pub use leaf::{
    constant_value_at, hash_at, important_at, number_at, parent_at, quoted_at, range_at,
    special_number_at, url_at, variable_at,
};
pub use lined::comment_text_of;
pub use text::{appended, grown, joined, parts_of, plain_text_of, text_of};
