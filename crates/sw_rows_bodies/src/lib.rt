//! Runs the bodies of sheets, by any engine, over a world that finds no memory at one question, and prints what they
//! ask and how they end. Sheets flow in from the folder of rows, questions and ends flow out.
#![tactic(auto)]

mod bodies;
mod broken;
mod module;
mod rows;
mod shown;
mod told;

pub use broken::Broken;
pub use module::{Module, read_module};
pub use rows::body_rows;
