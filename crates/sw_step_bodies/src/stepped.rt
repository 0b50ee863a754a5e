// What a step answers.
use sw_record::Outcome;
use sw_text::{List, Name};
use sw_world::Saying;

/// How far a step came.
#[derive(Drop)]
pub enum Stepped {
    /// The body of `body` came to a load, for which the body of `opened` began.
    Loading { body: Name, opened: Name },
    /// The body of `body` ended, and the load that waited for it was answered.
    Finished { body: Name },
    /// The compile ended.
    Ended(StepReply),
}

/// What a compile gives that ended: its messages in order, how many steps ran each body, in the order in which the
/// bodies ended, and its CSS or its fault.
#[derive(Drop)]
pub struct StepReply {
    pub says: List<Saying>,
    pub times: List<(Name, u32)>,
    pub outcome: Outcome,
}
