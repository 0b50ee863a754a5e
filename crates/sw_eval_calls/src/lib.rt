//! What calls come to with no state at hand: what arguments fill, whether a block has `@content`, and calls that are
//! written out as CSS. The state and the evaluation ask it; it asks literals and scopes.
#![tactic(auto)]

mod contents;
mod css_calls;
mod passing;
mod placing;

pub use contents::block_has;
pub use css_calls::{add_comma, css_call, names_any};
pub use passing::{bound, bound_by, default_at, pass_on, plain_passed};
pub use placing::{all_passed, at_argument};
