// What is known of a token's place before it is read.
use sw_parse_terminals::Terminal;
use sw_text::List;

/// What a token of plain CSS is by its kind and its text.
#[derive(Clone, Copy, Debug, PartialEq, Eq)]
pub(crate) enum Sort {
    Name,
    /// A name that begins with `--`.
    DashedName,
    /// A `url(..)` or a unicode range, which begins as a name does.
    NameLike,
    AtCharset,
    AtImport,
    AtName,
    /// `@` without a name directly behind it.
    At,
    Comment,
    Quoted,
    OpenBrace,
    CloseBrace,
    OpenParen,
    CloseParen,
    OpenBracket,
    CloseBracket,
    Colon,
    Semicolon,
    /// `//`, `$`, `#{` and `&`, which stand in no plain CSS.
    Wrong,
    Other,
}

/// What is open.
#[derive(Clone, Copy, Debug, PartialEq, Eq)]
pub(crate) enum Bracket {
    /// The block of an at-rule that stands in no rule.
    Group,
    /// The block of a rule, or of an at-rule in one.
    Rule,
    Paren,
    Bracket,
    /// `{` in the text of a custom property.
    Brace,
}

/// What is known before a token.
#[derive(Debug, Drop)]
pub(crate) struct State {
    /// What is open, the innermost last.
    pub frames: List<Bracket>,
    /// A statement begins here.
    pub start: bool,
    /// The statement is an at-rule.
    pub at_rule: bool,
    /// The text of a custom property is read, where braces are brackets.
    pub custom: bool,
    pub before: Terminal,
    /// A comment that is white space stands behind the terminal before.
    pub commented: bool,
}
