//! The open bodies of one compile that goes on by single steps, over its own folder. A start or what is left of it flows
//! in; how far a step came, and at its end the messages with the CSS or the fault, flow out.
#![tactic(auto)]

mod begun;
mod body;
mod going;
mod loading;
mod outcome;
mod outside;
mod stepped;

pub use begun::{Begun, Start, begin, go};
pub use outside::Within;
pub use stepped::{StepReply, Stepped};
