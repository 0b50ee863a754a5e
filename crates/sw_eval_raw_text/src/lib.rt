//! Raw text with values in it: the parts of an `@import`, and the text of special functions. Texts and their values
//! flow in from the evaluation, the text that is written or a value flows out.
#![tactic(auto)]

mod cutting;
mod imports;
mod laws;
mod numerals;
mod spacing;
mod special;

pub use cutting::parts_of;
pub use imports::{all_plain, filled_all, inserted_of, template};
pub use laws::{cuts_are_all, only_white_space_goes};
pub use special::{extremum, extremum_value, plain_special, special_value};
