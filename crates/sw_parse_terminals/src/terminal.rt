// The terminals of the grammar.

/// A terminal of the grammar: what a token is at its place.
#[derive(Clone, Copy, Debug, PartialEq, Eq)]
pub enum Terminal {
    /// `;` that ends a statement
    Semicolon = 1,
    /// `{` that opens a block
    Open,
    /// `}` that closes one
    Close,
    /// `,`
    Comma,
    /// `:`
    Colon,
    /// A token of raw text that isn't told below.
    Raw,
    /// `(` in raw text
    RawParen,
    /// `[` in raw text
    RawBracket,
    /// `{` in the text of a custom property
    RawBrace,
    /// `#{` in raw text, a string, a url or a comment
    Insert,
    /// `)` that closes one in raw text
    RawParenEnd,
    /// `]` that closes one in raw text
    RawBracketEnd,
    /// `}` that closes one in the text of a custom property
    RawBraceEnd,
    /// `}` that closes a `#{`
    InsertEnd,
    /// Text in a string with `#{}`
    TextPiece,
    /// The end of a string with `#{}`
    TemplateEnd,
    /// Text in a url or a comment with `#{}`
    Piece,
    /// The end of a url with `#{}`
    UrlEnd,
    /// The end of a loud comment with `#{}`
    CommentEnd,
    /// A number with its unit
    Number,
    /// `-` or `+` directly before a number, as its sign
    Sign,
    /// A string without `#{}`
    Quoted,
    /// A string with `#{}`
    Template,
    /// `#` directly before hexadecimal digits or a name
    Hash,
    True,
    False,
    Null,
    /// `url(..)` without `#{}`
    Url,
    /// `url(..)` with `#{}`
    UrlTemplate,
    /// The name of a special function, directly before its `(`
    Special,
    /// `$`
    Dollar,
    /// `$` whose name a `:` follows
    DollarNamed,
    /// A name directly before a `.`
    Owner,
    /// A name that begins a word
    Word,
    /// `-` directly before the `#{` that begins a word
    WordMinus,
    /// `#{` that begins a word
    WordInsert,
    /// A unicode range
    Range,
    /// `&`
    Ampersand,
    /// `!`
    Bang,
    /// `(`
    Paren,
    /// `(` before another `(` or `not`
    ConditionParen,
    /// `[`
    Bracket,
    PrefixPlus,
    PrefixMinus,
    PrefixSlash,
    Not,
    /// `!` before `default` or `global` where these may stand
    Ending,
    /// Hexadecimal digits or a name directly behind `#`
    HashName,
    /// A name directly behind `$`
    VariableName,
    /// `.` directly behind a name
    OwnerDot,
    /// `$` directly behind such a `.`
    OwnerDollar,
    /// A name, digits or `-` that goes on with a word
    Part,
    /// `#{` that goes on with a word
    PartInsert,
    /// `(` directly behind a word, or that opens the arguments of `@content`
    CallParen,
    /// `)`
    ParenEnd,
    /// `]`
    BracketEnd,
    Or,
    And,
    Equal,
    NotEqual,
    Less,
    LessEqual,
    Greater,
    GreaterEqual,
    Plus,
    Minus,
    Times,
    Divide,
    Modulo,
    /// `important` behind `!`
    Important,
    /// `default` behind `!`
    Default,
    /// `global` behind `!`
    Global,
    /// `...`
    Ellipsis,
    /// `=`
    Equals,
    /// A name that begins with `--` and a custom property
    Custom,
    /// A loud comment that is a statement, without `#{}`
    CommentWhole,
    /// A loud comment that is a statement, with `#{}`
    CommentTemplate,
    AtUse,
    AtForward,
    AtFunction,
    AtMixin,
    AtInclude,
    AtContent,
    AtReturn,
    AtWarn,
    AtDebug,
    AtError,
    AtIf,
    /// `@else` before a block
    AtElse,
    /// `@else` before `if`
    AtElseIf,
    /// `@elseif`
    AtElseIfWhole,
    AtEach,
    AtFor,
    AtWhile,
    AtMedia,
    AtSupports,
    AtRoot,
    AtCharset,
    AtImport,
    AtExtend,
    /// `@` and a name that begins no other statement, or one that a `#{` directly follows
    AtOther,
    /// `@` directly before a `#{`
    AtInsert,
    /// `as` in the head of a load
    As,
    /// `with` there
    With,
    Show,
    Hide,
    Using,
    /// `if` behind `@else`
    If,
    In,
    From,
    Through,
    To,
    /// `only` before a media type
    Only,
    /// `not` before a media type
    NotType,
    /// A name that a head gives, or names something by
    Named,
    /// The string of a load
    LoadUrl,
    /// The string of `@charset`
    Plain,
    /// `*` behind `as`
    Star,
    /// A name directly before a `*`, behind `as`
    Prefix,
    /// `*` directly behind such a name
    PrefixStar,
    /// `(` that opens parameters or a configuration
    HeadParen,
    /// A token that stands in no sheet, or not at this place
    Other,
    /// `,` in the text of a special function
    SpecialComma,
}
