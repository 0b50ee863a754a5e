// What is kept of a body that ran.
use sw_text::{Name, Shared};
use sw_tree::Sheet;
use sw_world::{Config, End, Pairs};

/// The trace of a body that ran from its start to its end: the module with its text, the sheet and the configuration
/// that it ran, its questions with their answers, in order, and its end.
#[derive(Drop)]
pub struct Trace {
    pub path: Name,
    pub text: Name,
    pub sheet: Shared<Sheet>,
    pub config: Config,
    pub seen: Pairs,
    pub end: End,
}
