//! The selectors of keyframes: `from`, `to` and percents, joined by commas. The evaluated text of a rule in
//! `@keyframes` flows in from the state of an evaluation, the text that is written flows out, or the fault.
#![tactic(auto)]

mod keyframes;

pub use keyframes::keyframe_text;
