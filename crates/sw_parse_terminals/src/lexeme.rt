// A token as the grammar sees it.
use crate::Terminal;
use sw_text::Pos;

/// A token as the grammar sees it, and where it stands in the text.
#[derive(Clone, Copy, Debug)]
pub struct Lexeme {
    pub terminal: Terminal,
    /// A comment that is white space stands between it and the lexeme before.
    pub commented: bool,
    /// The offset of its first byte.
    pub from: u32,
    /// The offset behind its last byte.
    pub to: u32,
    /// The place of its first character.
    pub start: Pos,
    /// The place behind its last character.
    pub end: Pos,
    /// The place of its token in the sheet's tokens.
    pub token: usize,
}
