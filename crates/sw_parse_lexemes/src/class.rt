// Classes of tokens by themselves.
ghost use Rattle.std.specs.Prelude.{◌≡◌};
ghost use Rattle.sw_parse_lexemes.specs.Classes.{is_name, is_reserved, is_number, goes_on, is_comment, starts_name, same, is_else};

use crate::sort::Sort;

pub(crate) fn is_name(sort: Sort) -> bool
    ensures { result ≡ is_name sort }
{
    match sort {
        Sort::Name => true,
        Sort::DashedName => true,
        Sort::True => true,
        Sort::False => true,
        Sort::Null => true,
        Sort::And => true,
        Sort::Or => true,
        Sort::Not => true,
        Sort::As => true,
        Sort::With => true,
        Sort::Show => true,
        Sort::Hide => true,
        Sort::Using => true,
        Sort::If => true,
        Sort::In => true,
        Sort::From => true,
        Sort::Through => true,
        Sort::To => true,
        Sort::Only => true,
        Sort::Important => true,
        Sort::Default => true,
        Sort::Global => true,
        Sort::Special => true,
        Sort::Stays => true,
        _ => false
    }
}

pub(crate) fn is_reserved(sort: Sort) -> bool
    ensures { result ≡ is_reserved sort }
{
    match sort {
        Sort::True => true,
        Sort::False => true,
        Sort::Null => true,
        Sort::And => true,
        Sort::Or => true,
        Sort::Not => true,
        _ => false
    }
}

pub(crate) fn is_number(sort: Sort) -> bool
    ensures { result ≡ is_number sort }
{
    match sort {
        Sort::Digits => true,
        Sort::Number => true,
        _ => false
    }
}

pub(crate) fn goes_on(sort: Sort) -> bool
    ensures { result ≡ goes_on sort }
{
    match sort {
        Sort::Digits => true,
        Sort::Minus => true,
        Sort::OpenInsert => true,
        sort => is_name(sort)
    }
}

pub(crate) fn is_comment(sort: Sort) -> bool
    ensures { result ≡ is_comment sort }
{
    match sort {
        Sort::Comment => true,
        Sort::CommentTemplate => true,
        _ => false
    }
}

pub(crate) fn starts_name(sort: Sort) -> bool
    ensures { result ≡ starts_name sort }
{
    match sort {
        Sort::Url => true,
        Sort::UrlTemplate => true,
        Sort::Range => true,
        sort => is_name(sort)
    }
}

/// Whether both are the same of the sorts that are looked for. Callers name the other one, which is looked at first, so
/// that one comparison is left of this where it is put in line.
pub(crate) fn same(sort: Sort, other: Sort) -> bool
    ensures { result ≡ same sort other }
{
    match (other, sort) {
        (Sort::OpenInsert, Sort::OpenInsert) => true,
        (Sort::Colon, Sort::Colon) => true,
        (Sort::Dollar, Sort::Dollar) => true,
        (Sort::Dot, Sort::Dot) => true,
        (Sort::OpenParen, Sort::OpenParen) => true,
        (Sort::Not, Sort::Not) => true,
        (Sort::As, Sort::As) => true,
        (Sort::If, Sort::If) => true,
        (Sort::Star, Sort::Star) => true,
        (Sort::Default, Sort::Default) => true,
        (Sort::Global, Sort::Global) => true,
        (Sort::Minus, Sort::Minus) => true,
        (Sort::OpenBrace, Sort::OpenBrace) => true,
        (_, _) => false
    }
}

pub(crate) fn is_else(sort: Sort) -> bool
    ensures { result ≡ is_else sort }
{
    match sort {
        Sort::AtElse => true,
        Sort::AtElseIf => true,
        _ => false
    }
}
