// What is known of a token's place before it is read.
use sw_parse_terminals::Terminal;
use sw_text::List;

/// How the tokens of a part of a sheet are read.
#[derive(Clone, Copy, Debug, PartialEq, Eq)]
pub enum Mode {
    /// As an expression, or the name of a declaration.
    Expression,
    /// As an expression that `!default` and `!global` end.
    Ends,
    /// In a special function.
    Special,
    /// As raw text.
    Raw,
    /// The name of a custom property.
    CustomName,
    /// The text of a custom property, where braces are brackets.
    Custom,
    /// Between the tokens of a string, a url or a comment with `#{}`.
    Text,
    Use,
    Forward,
    /// The head of `@function` and `@mixin`.
    Head,
    Include,
    Content,
    /// Parameters.
    Params,
    /// The head of `@each` up to its `in`.
    Each,
    /// The head of `@for` up to its `from`.
    For,
    /// The bounds of `@for`, which `through` and `to` end.
    Bounds,
    /// The same, which `!default` and `!global` end too.
    BoundEnds,
    /// `@else` before `if`.
    Else,
    Media,
}

/// A walk over tokens that looks ahead.
#[derive(Clone, Copy, Debug, PartialEq, Eq)]
pub enum Walk {
    /// Over comments.
    Comments,
    /// Over a word, with all that stands in its `#{}`.
    Word,
    /// To the first `;`, `{` or `}` outside brackets.
    Sign,
}

/// What is open.
#[derive(Clone, Copy, Debug, PartialEq, Eq)]
pub enum Bracket {
    Block,
    Paren,
    Bracket,
    Brace,
    Insert,
    Text,
}

/// An open bracket, how it was opened, and how tokens were read before it.
#[derive(Clone, Copy, Debug)]
pub struct Frame {
    pub bracket: Bracket,
    pub opened: Terminal,
    pub mode: Mode,
}

/// What the comments are that stand where a statement may begin. It is found at the first of them, for all in a row.
#[derive(Clone, Copy, Debug, PartialEq, Eq)]
pub enum Comments {
    /// None was met yet.
    Unknown,
    /// `@else` follows them, so they are white space.
    White,
    Statements,
}

/// What is known before a token.
#[derive(Debug, Drop)]
pub struct State {
    /// What is open, the innermost last.
    pub frames: List<Frame>,
    pub mode: Mode,
    /// A statement begins here.
    pub start: bool,
    /// The token before belongs to a word.
    pub word: bool,
    /// The terminal before, and the one before that.
    pub before: Terminal,
    pub before_that: Terminal,
    pub comments: Comments,
    /// How many comments are open that are white space.
    pub ignored: usize,
    /// A comment that is white space stands behind the terminal before.
    pub commented: bool,
}
