//! What is written of a value, of raw text or of a statement that was read is read again, as one like it: the derivation
//! of the sheet that was read flows in, and one of the tokens that are written flows out. Definitions and laws alone; no
//! code runs.
#![tactic(auto)]

mod law;

pub use law::{
    raw_texts_are_read_again, sheets_are_read_again, statements_are_read_again,
    values_are_read_again, whole_sheets_are_read,
};
