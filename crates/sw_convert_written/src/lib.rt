//! What the converter writes: the text of a tree. A tree comes in, and its bytes go out.
#![tactic(auto)]

mod bytes;
mod commas;
mod escapes;
mod expr;
mod heads;
mod kinds;
mod manner;
mod members;
mod names;
mod pieces;
mod rules;
mod sheet;
mod signs;
mod sort;
mod statement;
mod strings;

pub use bytes::put;
pub use escapes::{ends_unclosed, put_apart, put_space};
pub use expr::{put_expr, put_piece};
pub use heads::{
    put_assignment, put_charset, put_custom, put_declaration, put_each_head, put_for_head,
    put_media_head, put_plain, put_properties_head, put_return, put_say, put_variable,
    put_while_head,
};
pub use manner::Manner;
pub use members::{put_callable_head, put_content, put_forward, put_include, put_use, put_using};
pub use rules::{Place, has_more, is_cut};
pub use sheet::{has_block, put_mark, scss_text};
pub use sort::Sort;
pub use statement::put_indent;
