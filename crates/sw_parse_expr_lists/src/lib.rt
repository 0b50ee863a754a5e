//! What stands in expressions below their operators: lists, maps, arguments, words and texts with `#{}`. Each reader
//! takes the one that reads lists without commas as a parameter, so that the descent goes down a level through it and
//! no function calls back up. Lexemes flow in; nodes, and the places behind them, flow out.
#![tactic(auto)]

mod argument;
mod list;
mod sign;
mod word;

pub use argument::arguments_in_at;
pub use list::{expr_at, inside_at, items_at};
pub use sign::prefixes_at;
pub use word::{Pieces, insert_at, inserted_at, pieces_at, word_at};
