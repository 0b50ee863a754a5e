//! What an evaluation has made so far, and what is done to it without asking: scopes, output, selectors, and what a
//! body leaves behind. The walk through a sheet calls it statement by statement.
#![tactic(auto)]

mod at_rules;
mod callables;
mod called;
mod entering;
mod entries;
mod existing;
mod faults;
mod here;
mod left;
mod loop_variables;
mod nesting;
mod output;
mod owners;
mod placing;
mod rules;
mod selecting;
mod state;

pub use at_rules::bare_name;
pub use called::{Called, function_by, member_by, mixin_by};
pub use entering::returned;
pub use entries::{Entry, Found, block_entry, function_entry};
pub use existing::{exists_by, is_built_in, module_in, name_in, truth};
pub use faults::fails;
pub use here::{Block, Here, Inside};
pub use left::{callable_of, finish, or_null};
pub use nesting::{Nesting, Rules};
pub use output::numbered;
pub use owners::{got, is_absent, is_null, named_owner, owner, target};
pub use placing::{is_function, misplaced};
pub use state::State;
