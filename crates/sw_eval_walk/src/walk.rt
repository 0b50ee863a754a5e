// A walk through a sheet.
use std::alloc::Global;
use sw_eval_questions::Asked;
use sw_eval_state::State;

/// A walk through a sheet: what it has made, and what it asked.
#[derive(Drop)]
pub struct Walk {
    /// Where memory is taken.
    pub alloc: Global,
    /// What has been made.
    pub state: State,
    /// What was asked, and what was answered.
    pub asked: Asked,
}
