// What a compile replies.
use sw_text::{Fault, List, Name};
use sw_world::Saying;

/// Why a body ran.
#[derive(Clone, Copy, Debug, PartialEq, Eq)]
pub enum Cause {
    /// No run of its module is kept.
    First,
    /// None that is kept has its text.
    Text,
    /// None that is kept and has its text has its configuration.
    Config,
    /// The first question that is answered otherwise than in the kept run that goes with it the furthest is a load.
    Load,
    /// It is what a name means.
    Member,
    /// It is the value of a variable.
    Variable,
    /// It is a call of a host's function.
    Call,
}

/// The CSS of a compile, or its first fault.
#[derive(Drop)]
pub enum Outcome {
    Css(List<u8>),
    Error(Fault),
}

/// The answer to a compile: its messages in order, the modules whose bodies ran, in the order in which these ended,
/// each with its cause, and the CSS or the fault.
#[derive(Drop)]
pub struct Reply {
    pub says: List<Saying>,
    pub ran: List<(Name, Cause)>,
    pub outcome: Outcome,
}
