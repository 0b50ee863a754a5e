// The parameters of a call with their values.
use crate::Value;
use sw_text::{List, Name};

/// The parameters of a call, in their order, each with its value.
#[derive(Drop)]
pub struct Bound {
    pub values: List<(Name, Value)>,
}
