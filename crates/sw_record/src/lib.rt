//! Runs that are kept, the replay of their questions, and what a compile replies. Kept runs and a world flow in, what
//! differs flows out.
#![tactic(auto)]

mod again;
mod laws;
mod marks;
mod replay;
mod reply;
mod run;
mod same;
mod tail;
mod trace;

pub use laws::ran_is_one;
pub use marks::{first_marked, narrow, run_at};
pub use replay::{Replayed, replay_all};
pub use reply::{Cause, Outcome, Reply};
pub use run::Run;
pub use same::{has_same_pairs, is_alike};
pub use tail::Tail;
pub use trace::Trace;
