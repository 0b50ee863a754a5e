// What a token of plain CSS is by its kind and its text.
ghost use Rattle.std.specs.Prelude.{◌≡◌};
ghost use Rattle.sw_parse_css.specs.Sorts.{at_sort, sort_of};

use crate::state::Sort;
use sw_tokens::TokenKind;

fn at_sort(name: &str) -> Sort
    ensures { result ≡ at_sort name.now }
{
    match name {
        "@charset" => Sort::AtCharset,
        "@import" => Sort::AtImport,
        _ => Sort::AtName,
    }
}

/// The sort of a token of a kind that is written as a text.
pub(crate) fn sort_of(kind: &TokenKind, text: &str) -> Sort
    ensures { result ≡ sort_of kind.now text.now }
{
    match kind {
        TokenKind::Word | TokenKind::Name => Sort::Name,
        TokenKind::DashedName => Sort::DashedName,
        TokenKind::AtName => at_sort(text),
        TokenKind::At => Sort::At,
        TokenKind::Url | TokenKind::UnicodeRange => Sort::NameLike,
        TokenKind::Quoted(_) => Sort::Quoted,
        TokenKind::Comment => Sort::Comment,
        TokenKind::OpenBrace => Sort::OpenBrace,
        TokenKind::CloseBrace => Sort::CloseBrace,
        TokenKind::OpenParen => Sort::OpenParen,
        TokenKind::CloseParen => Sort::CloseParen,
        TokenKind::OpenBracket => Sort::OpenBracket,
        TokenKind::CloseBracket => Sort::CloseBracket,
        TokenKind::Colon => Sort::Colon,
        TokenKind::Semicolon => Sort::Semicolon,
        TokenKind::DoubleSlash
        | TokenKind::Dollar
        | TokenKind::OpenInterpolation
        | TokenKind::Ampersand => Sort::Wrong,
        TokenKind::Template
        | TokenKind::Text(_)
        | TokenKind::Piece
        | TokenKind::TemplateEnd
        | TokenKind::UrlTemplate
        | TokenKind::UrlEnd
        | TokenKind::CommentTemplate
        | TokenKind::CommentEnd
        | TokenKind::CommentLine
        | TokenKind::CloseInterpolation => Sort::Wrong,
        TokenKind::Digits
        | TokenKind::Number
        | TokenKind::Hex
        | TokenKind::EqualsEquals
        | TokenKind::NotEquals
        | TokenKind::LessEquals
        | TokenKind::GreaterEquals
        | TokenKind::Ellipsis
        | TokenKind::Comma
        | TokenKind::Dot
        | TokenKind::Hash
        | TokenKind::Exclamation
        | TokenKind::Plus
        | TokenKind::Minus
        | TokenKind::Star
        | TokenKind::Slash
        | TokenKind::Percent
        | TokenKind::Equals
        | TokenKind::Less
        | TokenKind::Greater
        | TokenKind::Other => Sort::Other,
    }
}
