//! The grammar of sheets as a table over terminals: what is read, from which tokens, and what tree is built of it.
//! Tokens flow in with what each is to the grammar; the readers of expressions and of statements answer what the table
//! reads.
#![tactic(auto)]

mod at;
mod gap;
mod law;
mod operator;
mod row;
mod source;
mod text;

pub use at::{found, is_at, number_at};
pub use gap::{Stretch, behind, has_comments, stretch_between, texts, up_to};
pub use law::readings_are_of_the_table;
pub use operator::{Precedence, constant_at, operator_at, sign_at};
pub use row::{begins_literal, begins_value, goes_on};
pub use source::Source;
pub use text::{
    bytes_at, bytes_between, bytes_from, decoded_at, from_at, span_at, span_between, to_at,
};
