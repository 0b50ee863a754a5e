//! Statements with blocks, over a reader of the statements in a block: rules, declarations with nested properties,
//! functions and mixins, conditions, loops and at-rules. That reader is a parameter, so that no function here calls
//! back up. Lexemes flow in; statements, and the places behind them, flow out.
#![tactic(auto)]

mod at_rule;
mod behind;
mod block;
mod branch;
mod callable;
mod counted;
mod declaration;
mod include;
mod media;
mod name;
mod rule;

pub use at_rule::at_rule_at;
pub use behind::put;
pub use block::block_at;
pub use branch::{if_at, while_at};
pub use callable::{function_at, mixin_at};
pub use counted::{each_at, for_at};
pub use declaration::declaration_behind;
pub use include::include_at;
pub use media::media_at;
pub use rule::{at_root_at, rule_behind, supports_at};
