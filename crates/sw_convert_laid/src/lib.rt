//! What the layout of a sheet in lines makes of lines that are written token by token: their tokens flow in, the tokens
//! that the text stands for flow out, with the signs that lines stand for. Definitions and laws alone; no code runs.
#![tactic(auto)]

mod laws;

pub use laws::{
    blocks_are_told_by_lines, lines_are_laid, lines_are_told_by_their_tokens, statements_are_laid,
    tokens_stand_before_line_feeds,
};
