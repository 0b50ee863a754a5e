// A token by itself.
use crate::sort::Sort;
use sw_text::Pos;

/// A token by itself: its sort, and where its own text stands.
#[derive(Clone, Copy, Debug)]
pub struct Plain {
    pub sort: Sort,
    /// White space or a comment stands directly before it.
    pub spaced: bool,
    /// A silent comment stands between it and the token before.
    pub silent: bool,
    /// The offset of its first byte.
    pub from: u32,
    /// The offset behind its last byte, or of the first token that stands in it.
    pub to: u32,
    /// The places of both.
    pub start: Pos,
    pub end: Pos,
}
