//! What the converter writes of a sheet in lines. A tree comes in; its bytes go out, or the place of the first statement
//! that lines can't hold.
#![tactic(auto)]

mod checks;
mod comments;
mod fault;
mod heads;
mod held;
mod lines;
mod sheet;
mod statement;
mod texts;

pub use fault::ConvertFault;
pub use sheet::indented_text;
pub use texts::Open;
