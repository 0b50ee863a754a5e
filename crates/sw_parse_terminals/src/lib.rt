//! What a token is to the grammar of sheets: its terminal, and where it stands. `sw_parse_lexemes` makes lexemes of
//! tokens, the table of `sw_parse_table` speaks of terminals, and the readers read lexemes.
#![tactic(auto)]

mod lexeme;
mod terminal;
mod url;

pub use lexeme::Lexeme;
pub use terminal::Terminal;
pub use url::{has_namespace, namespace_of};
