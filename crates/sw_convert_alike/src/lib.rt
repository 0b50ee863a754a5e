//! When two sheets are alike, whatever text each was read from: two trees flow in, and the relation that the converter's
//! clauses speak of flows out. Definitions and laws alone; no code runs.
#![tactic(auto)]

mod laws;

pub use laws::{
    alike_is_reflexive_and_symmetric, alike_sheets_have_the_same_statements,
    alike_values_are_the_same, texts_are_alike_as_they_stand,
};
