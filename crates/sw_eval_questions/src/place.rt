// Where a body is.
use sw_world::{End, Question};

/// Where a body is.
#[derive(Drop)]
pub enum Place {
    Running,
    Waiting(Question),
    Ended(End),
}
