//! The reader of expressions: which operand stands at a place, what stands between operands, and the one function that
//! ties the descent together. A sheet's tokens flow in with what each is to the grammar; an expression flows out with
//! the place behind it, or the fault.
#![tactic(auto)]

mod chain;
mod end;
mod form;
mod operand;
mod read;
mod space;
mod whole;

pub use end::ReadEnd;
pub use form::Form;
pub use read::{read_space, read_sum, read_value};
pub use whole::read_expr;
