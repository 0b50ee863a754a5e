// A walk goes on over white space, and over what SCSS has at a place.
ghost use Rattle.std.specs.Prelude.{◌≡◌, ◌<◌, ◌^◌, ◌-◌, length, IfOk, Ok, [], slice_get};
ghost use Rattle.std.specs.Str.{IsCharBoundary};
ghost use Rattle.sw_tokens.specs.Skips.{IsPlain};
ghost use Rattle.sw_tokens.specs.Tokens.{top};
ghost use Rattle.sw_tokens.specs.declared.token.Syntax.TheVariants as syntaxes;
ghost use Rattle.sw_parse_layout.specs.Pieces.{spaced_line, moved, line_over, commented_line, passed, kept_behind, is_paren, is_square, popped_if, bracketed, sorted_by, end_by, is_outside, renamed, line_after, is_refused_sign, is_some_token, is_refused, piece_found, piece_step};
ghost use Rattle.sw_parse_layout.specs.Steps.{Stepped};

use crate::laid::{Laid, nothing, refused_at};
use crate::sorts::{Sort, sorted};
use crate::state::{Bracket, Found, Line, Mode, State, StepEnd};
use std::alloc::Global;
use sw_text::{List, Memory};
use sw_tokens::{
    Before, Change, Piece, Syntax, Token, TokenKind, before_of, changed, is_spaced, last_start,
    piece_at, top_of,
};

fn spaced_line(line: Line) -> Line
    ensures { result ≡ spaced_line line }
{
    Line {
        before: Before::White,
        ..line
    }
}

pub(crate) fn moved(alloc: Global, s: State, to: usize) -> Found
    ensures { result ≡ moved s to }
{
    let State {
        mode,
        line,
        blocks,
        ..
    } = s;
    Found {
        laid: nothing(alloc),
        state: State {
            at: to,
            mode,
            line: spaced_line(line),
            blocks,
        },
    }
}

pub(crate) fn line_over(alloc: Global, s: State) -> Found
    requires { s.at < 2 ^ 32 }
    ensures { result ≡ line_over s }
{
    let State {
        at,
        line,
        blocks,
        ..
    } = s;
    Found {
        laid: nothing(alloc),
        state: State {
            at: at + 1,
            mode: Mode::Between,
            line: spaced_line(line),
            blocks,
        },
    }
}

/// The line behind a loud comment that stands in a statement.
fn commented_line(line: Line, from: u32, to: u32) -> Result<Line, Memory>
    ensures { IfOk result (λ after. after ≡ commented_line line from to) }
{
    let Line {
        opened,
        before,
        brackets,
        sort,
        end,
        mut comments,
    } = line;
    comments.push(Token {
        kind: TokenKind::Comment,
        from,
        to,
        spaced: is_spaced(before),
    })?;
    Ok(Line {
        opened,
        before: Before::White,
        brackets,
        sort,
        end,
        comments,
    })
}

/// Over a loud comment that stands in a statement.
pub(crate) fn passed(alloc: Global, s: State, to: usize) -> Result<Found, Memory>
    requires at { s.at < 2 ^ 32 }
    requires to { to < 2 ^ 32 }
    ensures { IfOk result (λ found. found ≡ passed s to) }
{
    let State {
        at,
        mode,
        line,
        blocks,
    } = s;
    let line = commented_line(line, at as u32, to as u32)?;
    Ok(Found {
        laid: nothing(alloc),
        state: State {
            at: to,
            mode,
            line,
            blocks,
        },
    })
}

fn last_bracket(open_ones: &[Bracket]) -> Option<Bracket>
    ensures { result ≡ slice_get open_ones.now (length open_ones.now - 1) }
{
    if open_ones.is_empty() {
        return None;
    }
    match open_ones.get(open_ones.len() - 1) {
        None => None,
        Some(bracket) => Some(*bracket),
    }
}

fn is_paren(bracket: Option<Bracket>) -> bool
    ensures { result ≡ is_paren bracket }
{
    matches!(bracket, Some(Bracket::Paren))
}

fn is_square(bracket: Option<Bracket>) -> bool
    ensures { result ≡ is_square bracket }
{
    matches!(bracket, Some(Bracket::Square))
}

fn popped_if(wanted: bool, mut open_ones: List<Bracket>) -> List<Bracket>
    ensures { result ≡ popped_if wanted open_ones }
{
    if wanted {
        open_ones.truncate(open_ones.len().saturating_sub(1));
    }
    open_ones
}

/// The brackets that are open behind a token.
fn bracketed(
    mut open_ones: List<Bracket>,
    token: &Option<TokenKind>,
) -> Result<List<Bracket>, Memory>
    ensures { IfOk result (λ after. after ≡ bracketed open_ones token.now) }
{
    match token {
        Some(TokenKind::OpenParen) => {
            open_ones.push(Bracket::Paren)?;
            Ok(open_ones)
        }
        Some(TokenKind::OpenBracket) => {
            open_ones.push(Bracket::Square)?;
            Ok(open_ones)
        }
        Some(TokenKind::CloseParen) => {
            let wanted = is_paren(last_bracket(open_ones.as_slice()));
            Ok(popped_if(wanted, open_ones))
        }
        Some(TokenKind::CloseBracket) => {
            let wanted = is_square(last_bracket(open_ones.as_slice()));
            Ok(popped_if(wanted, open_ones))
        }
        _ => Ok(open_ones),
    }
}

fn sorted_by(sort: Sort, token: &Option<TokenKind>, spaced: bool) -> Sort
    ensures { result ≡ sorted_by sort token.now spaced }
{
    match token {
        None => sort,
        Some(kind) => sorted(sort, kind, spaced),
    }
}

fn end_by(token: &Option<TokenKind>, end: u32, to: u32) -> u32
    ensures { result ≡ end_by token.now end to }
{
    match token {
        None => end,
        Some(_) => to,
    }
}

/// Whether nothing is open at a place but brackets.
pub(crate) fn is_outside(line: &Line) -> bool
    ensures { result ≡ is_outside line.now }
{
    line.opened.len() == 0
}

fn renamed(sort: Sort, token: Option<TokenKind>) -> Option<TokenKind>
    ensures { result ≡ renamed sort token }
{
    match sort {
        Sort::Fresh => match token {
            Some(TokenKind::Equals | TokenKind::Plus) => Some(TokenKind::AtName),
            other => other,
        },
        _ => token,
    }
}

/// The line behind a piece, and the comments before that.
#[tactic(auto, unfolding(crate::specs::Pieces::line_after))]
fn line_after(
    alloc: Global,
    line: Line,
    token: &Option<TokenKind>,
    change: Change,
    to: u32,
    at: usize,
) -> Result<(Line, List<Token>), Memory>
    ensures line { IfOk result (λ after. after.0 ≡ line_after line token.now change to at) }
    ensures comments { IfOk result (λ after. after.1 ≡ line.comments) }
{
    let outside = is_outside(&line);
    let Line {
        opened,
        before,
        brackets,
        sort,
        end,
        comments,
    } = line;
    let brackets = if outside {
        bracketed(brackets, token)?
    } else {
        brackets
    };
    let sort = if outside {
        sorted_by(sort, token, is_spaced(before))
    } else {
        sort
    };
    let after = Line {
        opened: List::from_vec(changed(opened.into_vec(), change, at)?),
        before: before_of(token),
        brackets,
        sort,
        end: end_by(token, end, to),
        comments: List::new(alloc),
    };
    Ok((after, comments))
}

fn is_refused_sign(open_ones: &[Bracket], token: &Option<TokenKind>) -> bool
    ensures { result ≡ is_refused_sign open_ones.now token.now }
{
    match token {
        Some(TokenKind::Semicolon) => true,
        Some(TokenKind::OpenBrace) => open_ones.len() == 0,
        Some(TokenKind::CloseBrace) => open_ones.len() == 0,
        _ => false,
    }
}

fn is_some_token(token: &Option<TokenKind>) -> bool
    ensures { result ≡ is_some_token token.now }
{
    match token {
        None => false,
        Some(_) => true,
    }
}

/// Whether a token is refused where it stands.
#[tactic(auto, unfolding(crate::specs::Pieces::is_refused))]
fn is_refused(mode: Mode, line: &Line, token: &Option<TokenKind>) -> bool
    ensures { result ≡ is_refused mode line.now token.now }
{
    match mode {
        Mode::Between => false,
        Mode::Statement(_) => {
            is_outside(line) && is_refused_sign(line.brackets.as_slice(), token)
        }
        Mode::Comment(_) => false,
        Mode::Behind(_) => is_some_token(token),
    }
}

/// A token, and the comments before it.
fn kept_behind(
    mut comments: List<Token>,
    token: Option<TokenKind>,
    from: u32,
    to: u32,
    before: Before,
) -> Result<List<Token>, Memory>
    ensures { IfOk result (λ tokens. tokens ≡ kept_behind comments token from to before) }
{
    match token {
        None => {
            comments.truncate(0);
            Ok(comments)
        }
        Some(kind) => {
            comments.push(Token {
                kind,
                from,
                to,
                spaced: is_spaced(before),
            })?;
            Ok(comments)
        }
    }
}

#[tactic(auto, unfolding(crate::specs::Pieces::piece_found))]
fn piece_found(alloc: Global, s: State, piece: Piece) -> Result<Found, Memory>
    requires at { s.at < 2 ^ 32 }
    requires to { piece.to < 2 ^ 32 }
    ensures { IfOk result (λ found. found ≡ piece_found s piece) }
{
    let State {
        at,
        mode,
        line,
        blocks,
    } = s;
    let Piece { token, to, change } = piece;
    let token = renamed(line.sort, token);
    let refused = refused_at(is_refused(mode, &line, &token), at as u32);
    let before = line.before;
    let (line, comments) = line_after(alloc, line, &token, change, to as u32, at)?;
    let tokens = kept_behind(comments, token, at as u32, to as u32, before)?;
    Ok(Found {
        laid: Laid { tokens, refused },
        state: State {
            at: to,
            mode,
            line,
            blocks,
        },
    })
}

/// What SCSS has at that place.
#[tactic(auto, unfolding(crate::specs::Pieces::piece_step))]
pub(crate) fn piece_step(alloc: Global, text: &str, s: State) -> Result<Found, StepEnd>
    requires short { length text.now < 2 ^ 32 }
    requires within { s.at < length text.now }
    requires cut { IsCharBoundary text.now s.at }
    requires plain { IsPlain (top syntaxes.Scss s.line.opened) }
    ensures { Stepped result (piece_step text.now s) }
{
    let top = top_of(Syntax::Scss, s.line.opened.as_slice());
    match piece_at(alloc, text, top, s.line.before, s.at)? {
        None => Err(StepEnd::Unclosed(last_start(s.line.opened.as_slice(), s.at))),
        Some(piece) => Ok(piece_found(alloc, s, piece)?),
    }
}
