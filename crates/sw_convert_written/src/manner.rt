// How the pieces of a text are written.

/// How the pieces of a text are written behind one another.
#[derive(Clone, Copy, PartialEq, Eq)]
pub enum Manner {
    /// As they stand: in a word and in a url.
    Joined,
    /// In a string, with escapes.
    Quoted,
    /// In raw text and in special text, with an empty comment where they would join otherwise.
    Seamed,
    /// In media queries, where each text is a token or what stands between two.
    Queried,
}
