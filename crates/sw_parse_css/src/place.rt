// The terminal of a token of plain CSS at its place.
ghost use Rattle.std.specs.Prelude.{◌≡◌};
ghost use Rattle.std.specs.Option.{option_copied};
ghost use Rattle.sw_parse_css.specs.Places.{innermost, is_rule, is_outer, stray, close_paren, close_bracket, open_brace, close_brace, semicolon, raw_terminal, start_terminal, is_named, is_custom, is_colon, is_charset, begins_pseudo, is_pseudo, text_terminal, further_terminal, terminal_of, is_comment, is_white};

use crate::state::{Bracket, Sort, State};
use sw_parse_terminals::Terminal;

/// What is innermost of all that is open.
pub(crate) fn innermost(frames: &[Bracket]) -> Option<Bracket>
    ensures { result ≡ innermost frames.now }
{
    frames.get(frames.len().saturating_sub(1)).copied()
}

/// Whether statements stand in a rule.
pub(crate) fn is_rule(inner: Option<Bracket>) -> bool
    ensures { result ≡ is_rule inner }
{
    match inner {
        Some(Bracket::Rule) => true,
        _ => false,
    }
}

// Whether no bracket is open in the statement.
fn is_outer(inner: Option<Bracket>) -> bool
    ensures { result ≡ is_outer inner }
{
    match inner {
        None => true,
        Some(Bracket::Group) => true,
        Some(Bracket::Rule) => true,
        _ => false,
    }
}

fn stray(custom: bool) -> Terminal
    ensures { result ≡ stray custom }
{
    if custom {
        Terminal::Other
    } else {
        Terminal::Raw
    }
}

fn close_paren(custom: bool, inner: Option<Bracket>) -> Terminal
    ensures { result ≡ close_paren custom inner }
{
    match inner {
        Some(Bracket::Paren) => Terminal::RawParenEnd,
        _ => stray(custom),
    }
}

fn close_bracket(custom: bool, inner: Option<Bracket>) -> Terminal
    ensures { result ≡ close_bracket custom inner }
{
    match inner {
        Some(Bracket::Bracket) => Terminal::RawBracketEnd,
        _ => stray(custom),
    }
}

fn open_brace(custom: bool, inner: Option<Bracket>) -> Terminal
    ensures { result ≡ open_brace custom inner }
{
    if custom {
        Terminal::RawBrace
    } else if is_outer(inner) {
        Terminal::Open
    } else {
        Terminal::Raw
    }
}

fn close_brace(custom: bool, inner: Option<Bracket>) -> Terminal
    ensures { result ≡ close_brace custom inner }
{
    match inner {
        Some(Bracket::Brace) => Terminal::RawBraceEnd,
        inner => {
            if is_outer(inner) {
                Terminal::Close
            } else {
                stray(custom)
            }
        }
    }
}

fn semicolon(inner: Option<Bracket>) -> Terminal
    ensures { result ≡ semicolon inner }
{
    if is_outer(inner) {
        Terminal::Semicolon
    } else {
        Terminal::Raw
    }
}

fn raw_terminal(custom: bool, inner: Option<Bracket>, sort: Sort) -> Terminal
    ensures { result ≡ raw_terminal custom inner sort }
{
    match sort {
        Sort::OpenBrace => open_brace(custom, inner),
        Sort::CloseBrace => close_brace(custom, inner),
        Sort::OpenParen => Terminal::RawParen,
        Sort::CloseParen => close_paren(custom, inner),
        Sort::OpenBracket => Terminal::RawBracket,
        Sort::CloseBracket => close_bracket(custom, inner),
        Sort::Semicolon => semicolon(inner),
        Sort::Wrong => Terminal::Other,
        Sort::Name
        | Sort::DashedName
        | Sort::NameLike
        | Sort::AtCharset
        | Sort::AtImport
        | Sort::AtName
        | Sort::At
        | Sort::Comment
        | Sort::Quoted
        | Sort::Colon
        | Sort::Other => Terminal::Raw,
    }
}

// The first token of a statement.
fn start_terminal(inner: Option<Bracket>, sort: Sort) -> Terminal
    ensures { result ≡ start_terminal inner sort }
{
    match sort {
        Sort::Name => Terminal::Word,
        Sort::DashedName => Terminal::Custom,
        Sort::AtCharset => Terminal::AtCharset,
        Sort::AtImport => Terminal::AtImport,
        Sort::AtName => Terminal::AtOther,
        Sort::At => Terminal::AtInsert,
        Sort::Comment => Terminal::CommentWhole,
        Sort::CloseBrace => Terminal::Close,
        Sort::Semicolon => Terminal::Semicolon,
        sort => {
            if is_rule(inner) {
                Terminal::Other
            } else {
                raw_terminal(false, inner, sort)
            }
        }
    }
}

fn is_named(before: Terminal) -> bool
    ensures { result ≡ is_named before }
{
    match before {
        Terminal::Word => true,
        Terminal::Custom => true,
        _ => false,
    }
}

pub(crate) fn is_custom(before: Terminal) -> bool
    ensures { result ≡ is_custom before }
{
    match before {
        Terminal::Custom => true,
        _ => false,
    }
}

pub(crate) fn is_colon(terminal: Terminal) -> bool
    ensures { result ≡ is_colon terminal }
{
    match terminal {
        Terminal::Colon => true,
        _ => false,
    }
}

fn is_charset(before: Terminal) -> bool
    ensures { result ≡ is_charset before }
{
    match before {
        Terminal::AtCharset => true,
        _ => false,
    }
}

fn begins_pseudo(sort: Sort) -> bool
    ensures { result ≡ begins_pseudo sort }
{
    match sort {
        Sort::Name => true,
        Sort::DashedName => true,
        Sort::NameLike => true,
        Sort::Colon => true,
        _ => false,
    }
}

fn is_pseudo(state: &State, spaced: bool, sort: Sort) -> bool
    ensures { result ≡ is_pseudo state.now spaced sort }
{
    let inner = innermost(state.frames.as_slice());
    (is_colon(state.before) && !state.custom)
        && (!is_rule(inner) && (!spaced && begins_pseudo(sort)))
}

fn text_terminal(state: &State, spaced: bool, sort: Sort) -> Terminal
    ensures { result ≡ text_terminal state.now spaced sort }
{
    if is_pseudo(state, spaced, sort) {
        Terminal::Part
    } else {
        raw_terminal(state.custom, innermost(state.frames.as_slice()), sort)
    }
}

// A further token of a statement.
fn further_terminal(state: &State, spaced: bool, sort: Sort) -> Terminal
    ensures { result ≡ further_terminal state.now spaced sort }
{
    if sort == Sort::Colon && is_named(state.before) {
        Terminal::Colon
    } else if sort == Sort::Quoted && is_charset(state.before) {
        Terminal::Plain
    } else {
        text_terminal(state, spaced, sort)
    }
}

/// What a token of a sort is, and whether white space or a comment stands before it.
#[tactic(auto, unfolding(crate::specs::Places::terminal_of))]
pub(crate) fn terminal_of(state: &State, spaced: bool, sort: Sort) -> Terminal
    ensures { result ≡ terminal_of state.now spaced sort }
{
    if state.start {
        start_terminal(innermost(state.frames.as_slice()), sort)
    } else {
        further_terminal(state, spaced, sort)
    }
}

fn is_comment(sort: Sort) -> bool
    ensures { result ≡ is_comment sort }
{
    match sort {
        Sort::Comment => true,
        _ => false,
    }
}

/// Whether a token is a comment that is white space.
pub(crate) fn is_white(state: &State, sort: Sort) -> bool
    ensures { result ≡ is_white state.now sort }
{
    !state.start && is_comment(sort)
}
