//! The statements that have no block, and the heads of those that have one, up to their `{`: of flow, of rules and
//! at-rules, of functions, mixins and includes. Each reader answers what the table reads there. Lexemes flow in;
//! statements and heads, and the places behind them, flow out to the reader of blocks.
#![tactic(auto)]

mod arguments;
mod at;
mod callable;
mod content;
mod each;
mod flow;
mod forward;
mod include;
mod param;
mod say;
mod set;
mod text;
mod value;

pub use at::{ended, namespaced};
pub use callable::{CallableHead, function_head_at, mixin_head_at};
pub use content::content_at;
pub use each::{EachHead, each_head_at};
pub use flow::{ForHead, else_if_word_at, for_head_at, if_head_at, value_head_at, while_head_at};
pub use forward::forward_at;
pub use include::{IncludeHead, include_head_at};
pub use param::{params_at, using_at};
pub use say::{debug_at, error_at, return_at, warn_at};
pub use set::{assigned_at, set_at};
pub use text::{
    AtRuleHead, at_head_at, at_root_head_at, property_at, rule_head_at, supports_head_at,
};
