// What the tokens of a statement so far tell.
ghost use Rattle.std.specs.Prelude.{◌≡◌};
ghost use Rattle.sw_parse_layout.specs.Sorts.{selector_by, first_sort, goes_on, is_interpolation, is_dollar, is_pseudo, behind_word, behind_dashed, is_dot, behind_name, sorted};

use sw_tokens::TokenKind;

/// How a statement begins. A word is a name that may hold `#{}`.
#[derive(Clone, Copy, Debug, PartialEq, Eq)]
pub enum Sort {
    /// No token yet.
    Fresh,
    /// A `-`, which may belong to a word.
    Minus,
    /// One name, which may be a namespace.
    Named,
    /// A name and a `.`.
    Dotted,
    /// A word.
    Word,
    /// A word that begins with `--`.
    Dashed,
    /// A word and a `:`.
    Colon,
    /// A selector.
    Selector,
    /// A selector whose last token is a comma.
    Comma,
    /// An at-rule, a variable, a declaration or a custom property.
    Other,
}

fn selector_by(kind: &TokenKind) -> Sort
    ensures { result ≡ selector_by kind.now }
{
    match kind {
        TokenKind::Comma => Sort::Comma,
        _ => Sort::Selector,
    }
}

fn first_sort(kind: &TokenKind) -> Sort
    ensures { result ≡ first_sort kind.now }
{
    match kind {
        TokenKind::AtName | TokenKind::At | TokenKind::Dollar => Sort::Other,
        TokenKind::Word | TokenKind::Name => Sort::Named,
        TokenKind::DashedName => Sort::Dashed,
        TokenKind::Minus => Sort::Minus,
        TokenKind::OpenInterpolation => Sort::Word,
        other => selector_by(other),
    }
}

fn goes_on(kind: &TokenKind) -> bool
    ensures { result ≡ goes_on kind.now }
{
    matches!(
        kind,
        TokenKind::Word
            | TokenKind::Name
            | TokenKind::DashedName
            | TokenKind::Digits
            | TokenKind::Minus
            | TokenKind::OpenInterpolation
    )
}

fn is_interpolation(kind: &TokenKind) -> bool
    ensures { result ≡ is_interpolation kind.now }
{
    matches!(kind, TokenKind::OpenInterpolation)
}

fn is_dollar(kind: &TokenKind) -> bool
    ensures { result ≡ is_dollar kind.now }
{
    matches!(kind, TokenKind::Dollar)
}

fn is_pseudo(kind: &TokenKind) -> bool
    ensures { result ≡ is_pseudo kind.now }
{
    matches!(
        kind,
        TokenKind::Word
            | TokenKind::Name
            | TokenKind::DashedName
            | TokenKind::Url
            | TokenKind::UrlTemplate
            | TokenKind::UnicodeRange
            | TokenKind::OpenInterpolation
            | TokenKind::Colon
    )
}

fn behind_word(kind: &TokenKind) -> Sort
    ensures { result ≡ behind_word kind.now }
{
    match kind {
        TokenKind::Colon => Sort::Colon,
        other => selector_by(other),
    }
}

fn behind_dashed(kind: &TokenKind) -> Sort
    ensures { result ≡ behind_dashed kind.now }
{
    match kind {
        TokenKind::Colon => Sort::Other,
        other => selector_by(other),
    }
}

fn is_dot(kind: &TokenKind) -> bool
    ensures { result ≡ is_dot kind.now }
{
    matches!(kind, TokenKind::Dot)
}

fn behind_name(kind: &TokenKind, spaced: bool) -> Sort
    ensures { result ≡ behind_name kind.now spaced }
{
    if is_dot(kind) && !spaced {
        return Sort::Dotted;
    }
    if goes_on(kind) && !spaced {
        return Sort::Word;
    }
    behind_word(kind)
}

/// A statement with one token more, which stands outside `#{}`.
#[tactic(auto, unfolding(crate::specs::Sorts::sorted))]
pub(crate) fn sorted(sort: Sort, kind: &TokenKind, spaced: bool) -> Sort
    ensures { result ≡ sorted sort kind.now spaced }
{
    match sort {
        Sort::Fresh => first_sort(kind),
        Sort::Minus => if is_interpolation(kind) && !spaced {
            Sort::Word
        } else {
            selector_by(kind)
        },
        Sort::Named => behind_name(kind, spaced),
        Sort::Dotted => if is_dollar(kind) && !spaced {
            Sort::Other
        } else {
            selector_by(kind)
        },
        Sort::Word => if goes_on(kind) && !spaced {
            Sort::Word
        } else {
            behind_word(kind)
        },
        Sort::Dashed => if goes_on(kind) && !spaced {
            Sort::Dashed
        } else {
            behind_dashed(kind)
        },
        Sort::Colon => if is_pseudo(kind) && !spaced {
            Sort::Selector
        } else {
            Sort::Other
        },
        Sort::Selector => selector_by(kind),
        Sort::Comma => selector_by(kind),
        Sort::Other => Sort::Other,
    }
}
