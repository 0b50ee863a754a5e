// The state behind a token of plain CSS.
ghost use Rattle.std.specs.Prelude.{◌≡◌, IfOk};
ghost use Rattle.sw_parse_css.specs.Places.{is_at_rule, begins_statement, block_of, opened_by, closes, frames_after, after, past_white, beginning};

use crate::place::{innermost, is_colon, is_custom, is_rule};
use crate::state::{Bracket, State};
use std::alloc::Global;
use sw_parse_terminals::Terminal;
use sw_text::{List, Memory};

fn is_at_rule(terminal: Terminal) -> bool
    ensures { result ≡ is_at_rule terminal }
{
    match terminal {
        Terminal::AtOther => true,
        _ => false,
    }
}

fn begins_statement(terminal: Terminal) -> bool
    ensures { result ≡ begins_statement terminal }
{
    match terminal {
        Terminal::Semicolon => true,
        Terminal::Open => true,
        Terminal::Close => true,
        Terminal::CommentWhole => true,
        _ => false,
    }
}

fn block_of(state: &State) -> Bracket
    ensures { result ≡ block_of state.now }
{
    if state.at_rule && !is_rule(innermost(state.frames.as_slice())) {
        Bracket::Group
    } else {
        Bracket::Rule
    }
}

fn opened_by(state: &State, terminal: Terminal) -> Option<Bracket>
    ensures { result ≡ opened_by state.now terminal }
{
    match terminal {
        Terminal::Open => Some(block_of(state)),
        Terminal::RawParen => Some(Bracket::Paren),
        Terminal::RawBracket => Some(Bracket::Bracket),
        Terminal::RawBrace => Some(Bracket::Brace),
        _ => None,
    }
}

fn closes(terminal: Terminal) -> bool
    ensures { result ≡ closes terminal }
{
    match terminal {
        Terminal::Close => true,
        Terminal::RawParenEnd => true,
        Terminal::RawBracketEnd => true,
        Terminal::RawBraceEnd => true,
        _ => false,
    }
}

fn frames_after(
    mut frames: List<Bracket>,
    terminal: Terminal,
    opened: Option<Bracket>,
) -> Result<List<Bracket>, Memory>
    ensures { IfOk result (λ next. next ≡ frames_after frames terminal opened) }
{
    match opened {
        Some(bracket) => frames.push(bracket)?,
        None => {
            if closes(terminal) {
                let count = frames.len().saturating_sub(1);
                frames.truncate(count);
            }
        }
    }
    Ok(frames)
}

/// The state behind a token of a terminal.
#[tactic(auto, unfolding(crate::specs::Places::after))]
pub(crate) fn after(state: State, terminal: Terminal) -> Result<State, Memory>
    ensures { IfOk result (λ next. next ≡ after state terminal) }
{
    let opened = opened_by(&state, terminal);
    let start = begins_statement(terminal);
    let at_rule = if state.start {
        is_at_rule(terminal)
    } else {
        state.at_rule
    };
    let custom = !start && (state.custom || (is_custom(state.before) && is_colon(terminal)));
    Ok(State {
        frames: frames_after(state.frames, terminal, opened)?,
        start,
        at_rule,
        custom,
        before: terminal,
        commented: false,
    })
}

/// The state behind a comment that is white space.
#[tactic(auto, unfolding(crate::specs::Places::past_white))]
pub(crate) fn past_white(state: State) -> State
    ensures { result ≡ past_white state }
{
    State {
        commented: true,
        ..state
    }
}

/// Nothing is read yet, and a statement may begin.
pub(crate) fn beginning(alloc: Global) -> State
    ensures { result ≡ beginning }
{
    State {
        frames: List::new(alloc),
        start: true,
        at_rule: false,
        custom: false,
        before: Terminal::Semicolon,
        commented: false,
    }
}
