// What a bracket is at its place, and `;` in brackets.
ghost use Rattle.std.specs.Prelude.{◌≡◌, ◌<◌, ◌≤◌, length};
ghost use Rattle.sw_parse_lexemes.specs.Brackets.{opens_condition, plain_paren, include_paren, paren_in, paren_terminal, bracket_terminal, innermost, is_custom, stray, closes_paren, closes_bracket, is_outer, is_brace, is_inner, sign_in_brackets, open_brace, close_brace, semicolon};

use crate::ahead::{code_from, sort_at, spaced_at};
use crate::class::same;
use crate::name::{continues, is, is_not};
use crate::plain::Plain;
use crate::sign::{is_text, or_raw};
use crate::sort::Sort;
use crate::state::{Bracket, Frame, Mode, State};
use sw_parse_terminals::Terminal;

fn opens_condition(plains: &[Plain], at: usize) -> bool
    requires { at ≤ length plains.now }
    ensures { result ≡ opens_condition plains.now at }
{
    same(sort_at(plains, at), Sort::OpenParen) || is_not(plains, at)
}

fn plain_paren(plains: &[Plain], at: usize) -> Terminal
    requires { at < length plains.now }
    ensures { result ≡ plain_paren plains.now at }
{
    if opens_condition(plains, code_from(plains, at + 1)) {
        Terminal::ConditionParen
    } else {
        Terminal::Paren
    }
}

fn include_paren(state: &State, plains: &[Plain], at: usize) -> Terminal
    ensures { result ≡ include_paren state.now plains.now at }
{
    if is(state.before, Terminal::Named) && !spaced_at(plains, at) {
        Terminal::CallParen
    } else if is(state.before, Terminal::Using) {
        Terminal::HeadParen
    } else {
        Terminal::Other
    }
}

fn paren_in(state: &State, plains: &[Plain], at: usize) -> Terminal
    requires { at < length plains.now }
    ensures { result ≡ paren_in state.now plains.now at }
{
    match state.mode {
        Mode::Raw => Terminal::RawParen,
        Mode::Custom => Terminal::RawParen,
        Mode::Special => {
            if continues(state, plains, at) {
                Terminal::CallParen
            } else {
                Terminal::RawParen
            }
        }
        Mode::Use => Terminal::HeadParen,
        Mode::Forward => Terminal::HeadParen,
        Mode::Head => Terminal::HeadParen,
        Mode::Include => include_paren(state, plains, at),
        Mode::Content => Terminal::CallParen,
        _ => {
            if continues(state, plains, at) {
                Terminal::CallParen
            } else {
                plain_paren(plains, at)
            }
        }
    }
}

pub(crate) fn paren_terminal(state: &State, plains: &[Plain], at: usize) -> Terminal
    requires { at < length plains.now }
    ensures { result ≡ paren_terminal state.now plains.now at }
{
    if is(state.before, Terminal::Special) {
        Terminal::RawParen
    } else {
        paren_in(state, plains, at)
    }
}

pub(crate) fn bracket_terminal(mode: Mode) -> Terminal
    ensures { result ≡ bracket_terminal mode }
{
    if is_text(mode) {
        Terminal::RawBracket
    } else {
        Terminal::Bracket
    }
}

/// What is innermost of all that is open.
pub(crate) fn innermost(frames: &[Frame]) -> Option<Frame>
    ensures { result ≡ innermost frames.now }
{
    frames.get(frames.len().saturating_sub(1)).copied()
}

fn is_custom(mode: Mode) -> bool
    ensures { result ≡ is_custom mode }
{
    match mode {
        Mode::Custom => true,
        _ => false,
    }
}

fn stray(mode: Mode) -> Terminal
    ensures { result ≡ stray mode }
{
    if is_text(mode) && !is_custom(mode) {
        Terminal::Raw
    } else {
        Terminal::Other
    }
}

pub(crate) fn closes_paren(mode: Mode, frame: Option<Frame>) -> Terminal
    ensures { result ≡ closes_paren mode frame }
{
    match frame {
        None => stray(mode),
        Some(frame) => match frame.bracket {
            Bracket::Paren => {
                if is(frame.opened, Terminal::RawParen) {
                    Terminal::RawParenEnd
                } else {
                    Terminal::ParenEnd
                }
            }
            _ => stray(mode),
        },
    }
}

pub(crate) fn closes_bracket(mode: Mode, frame: Option<Frame>) -> Terminal
    ensures { result ≡ closes_bracket mode frame }
{
    match frame {
        None => stray(mode),
        Some(frame) => match frame.bracket {
            Bracket::Bracket => {
                if is(frame.opened, Terminal::RawBracket) {
                    Terminal::RawBracketEnd
                } else {
                    Terminal::BracketEnd
                }
            }
            _ => stray(mode),
        },
    }
}

fn is_outer(frame: Option<Frame>) -> bool
    ensures { result ≡ is_outer frame }
{
    match frame {
        None => true,
        Some(frame) => match frame.bracket {
            Bracket::Block => true,
            _ => false,
        },
    }
}

fn is_brace(frame: Option<Frame>) -> bool
    ensures { result ≡ is_brace frame }
{
    match frame {
        None => false,
        Some(frame) => match frame.bracket {
            Bracket::Brace => true,
            _ => false,
        },
    }
}

fn is_inner(frame: Option<Frame>) -> bool
    ensures { result ≡ is_inner frame }
{
    match frame {
        None => false,
        Some(frame) => match frame.mode {
            Mode::Special => true,
            _ => false,
        },
    }
}

fn sign_in_brackets(mode: Mode, frame: Option<Frame>) -> Terminal
    ensures { result ≡ sign_in_brackets mode frame }
{
    match mode {
        Mode::Special => {
            if is_inner(frame) {
                Terminal::Raw
            } else {
                Terminal::Other
            }
        }
        mode => or_raw(mode, Terminal::Other),
    }
}

pub(crate) fn open_brace(mode: Mode, frame: Option<Frame>, bytes: u32) -> Terminal
    ensures { result ≡ open_brace mode frame bytes }
{
    if is_custom(mode) && 0 < bytes {
        Terminal::RawBrace
    } else if is_outer(frame) {
        Terminal::Open
    } else {
        sign_in_brackets(mode, frame)
    }
}

pub(crate) fn close_brace(mode: Mode, frame: Option<Frame>) -> Terminal
    ensures { result ≡ close_brace mode frame }
{
    if is_brace(frame) {
        Terminal::RawBraceEnd
    } else if is_outer(frame) {
        Terminal::Close
    } else if is_custom(mode) {
        Terminal::Other
    } else {
        sign_in_brackets(mode, frame)
    }
}

pub(crate) fn semicolon(mode: Mode, frame: Option<Frame>) -> Terminal
    ensures { result ≡ semicolon mode frame }
{
    if is_outer(frame) {
        Terminal::Semicolon
    } else {
        sign_in_brackets(mode, frame)
    }
}
