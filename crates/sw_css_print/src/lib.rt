//! The CSS bytes of a compile. The output of each module is printed once, as a part; the parts of a compile are joined
//! to its page.
#![tactic(auto)]

mod block;
mod group;
mod laws;
mod line;
mod page;
mod part;

pub use laws::join_is_print;
pub use page::{join, print};
pub use part::{Printed, print_one};
