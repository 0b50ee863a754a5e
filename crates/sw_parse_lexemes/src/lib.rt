//! What each token of a sheet is at its place: its terminal, by one pass over the sheet's tokens. Tokens flow in from
//! `sw_tokens`; lexemes, which the readers of the grammar read, flow out.
#![tactic(auto)]

mod ahead;
mod bracket;
mod class;
mod cursor;
mod law;
mod lexemes;
mod mode;
mod name;
mod pass;
mod plain;
mod plains;
mod sign;
mod sort;
mod state;
mod step;
mod terminal;
mod words;

pub use law::{
    signs_are_told_by_their_neighbours, statements_are_told_by_their_colon,
    text_is_told_by_what_is_around, tokens_are_seen_in_turn, words_are_told_by_their_neighbours,
};
pub use lexemes::{lexemes_of, value_lexemes_of};
pub use plain::Plain;
pub use sort::Sort;
pub use state::{Bracket, Comments, Frame, Mode, State, Walk};
