//! What the programs that run rows share: the files that hold them, texts with escapes, calls that are a line each, and
//! counts of what came of them. Files flow in; lines for a reader and a status flow out.
#![tactic(auto)]

mod calls;
mod escapes;
mod files;
mod refusal;
mod tally;
mod texts;
mod writer;

pub use calls::{Libraries, run_calls};
pub use escapes::{add_unescaped, unescaped};
pub use files::{file_text, folder, row_files};
pub use refusal::{Refusal, answer_of};
pub use tally::{Tally, ended};
pub use texts::{names, order_name, text_of, yes_or_no};
pub use writer::TextWriter;
