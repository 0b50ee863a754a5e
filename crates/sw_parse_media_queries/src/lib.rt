//! The reader of media queries. Pieces of text, with the values in them, are added from left to right to one list,
//! which the text of all queries takes. Lexemes flow in; a text, and the place behind it, flow out.
#![tactic(auto)]

mod at;
mod feature;
mod piece;
mod query;
mod typed;
mod value;

pub use query::queries_at;
