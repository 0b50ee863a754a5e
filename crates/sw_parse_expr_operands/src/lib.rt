//! Operands that hold expressions: what stands in parentheses and brackets, strings and urls with `#{}`, words, calls,
//! the text of special functions, and what belongs to a namespace. Each reader takes the one that reads lists without
//! commas as a parameter. Lexemes flow in; nodes, and the places behind them, flow out.
#![tactic(auto)]

mod call;
mod group;
mod item;
mod owned;
mod special;
mod template;

pub use call::called_at;
pub use group::{brackets_at, parens_at};
pub use owned::owned_at;
pub use special::special_at;
pub use template::{template_at, url_template_at};
