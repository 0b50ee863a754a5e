//! The walk through a sheet: what it asks of other modules and of the host, and what every expression and statement is
//! made of. It takes the level below as a parameter, and hands values and texts up.
#![tactic(auto)]

mod arguments;
mod ask;
mod below;
mod callees;
mod existence;
mod hosts;
mod level;
mod look;
mod texts;
mod walk;

pub use arguments::{argument_values, arguments_of};
pub use below::{Below, Body, Returned};
pub use level::{Level, value_of};
pub use texts::{TextKind, mixed, pieces, plain_value, text};
pub use walk::Walk;
