//! The evaluator: a module's body goes through the statements of its sheet, asks the world what lies outside, and
//! leaves variables and output behind. It takes trees from below and hands questions and ends up.
#![tactic(auto)]

mod engine;
mod growing;
mod history;
mod knot;
mod laws;
mod lower;
mod outermost;
mod turn;

pub use engine::{Evaluation, Evaluator};
pub use laws::body_laws;
