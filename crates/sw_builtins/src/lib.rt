//! The built-in modules and the functions that stand in none: which names they have, which parameters a function takes,
//! and what a call gives. A name flows in, and what it means flows out; arguments flow in, and a value flows out. It
//! asks the crates of functions.
#![tactic(auto)]

mod built_in;
mod calls;
mod css_calls;
mod css_params;
mod global_rows;
mod laws;
mod module_rows;
mod names;
mod search;
mod shapes;
mod signatures;
mod special;
mod telling;
mod written;

pub use built_in::{Asked, BuiltIn, Constant, Css, Found, Meta};
pub use calls::call;
pub use laws::names_stand_once;
pub use names::{find, member, variable};
pub use signatures::params;
