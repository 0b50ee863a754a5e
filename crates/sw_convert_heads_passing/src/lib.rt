//! What the tokens of raw text, of statements and of sheets are to the grammar: tokens flow in as they are written, and
//! that the pass over tokens reads each of them as the terminal that is meant flows out. Definitions and laws alone; no
//! code runs.
#![tactic(auto)]

mod law;

pub use law::{
    blocks_are_told, flow_heads_are_told, loads_are_told, media_is_told, members_are_told,
    property_heads_are_told, raw_texts_are_told, sheets_are_told, statements_are_told,
    text_heads_are_told,
};
