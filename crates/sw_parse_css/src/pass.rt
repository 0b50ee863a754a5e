// The tokens of a text of plain CSS as the grammar sees them.
ghost use Rattle.std.specs.Prelude.{◌≡◌, ◌++◌, IfOk, OnOk, All};
ghost use Rattle.sw_parse_terminals.specs.Lies.{LexemeLies};
ghost use Rattle.sw_tokens.specs.Order.{StandsIn};
ghost use Rattle.sw_parse_css.specs.Lexemes.{sort_in, lexeme_of, kept, read, optional, lexemes_of};

use crate::place::{is_white, terminal_of};
use crate::sort::sort_of;
use crate::state::{Sort, State};
use crate::step::{after, beginning, past_white};
use std::alloc::Global;
use sw_parse_terminals::{Lexeme, Terminal};
use sw_text::{List, Memory, SheetText};
use sw_tokens::{Token, Tokens};

/// What comes of a token: what the grammar sees of it, and the state behind it.
#[derive(Debug, Drop)]
pub(crate) struct Reading {
    pub lexeme: Option<Lexeme>,
    pub state: State,
}

fn sort_in(sheet: &SheetText, token: &Token) -> Sort
    requires { StandsIn sheet.now.bytes token.now }
    ensures { result ≡ sort_in sheet.now.bytes token.now }
{
    sort_of(
        &token.kind,
        &sheet.text()[token.from as usize..token.to as usize],
    )
}

fn lexeme_of(
    sheet: &SheetText,
    at: usize,
    token: &Token,
    commented: bool,
    terminal: Terminal,
) -> Lexeme
    requires { StandsIn sheet.now.bytes token.now }
    ensures value { result ≡ lexeme_of sheet.now.bytes at token.now commented terminal }
    ensures lies { LexemeLies sheet.now.bytes result }
{
    Lexeme {
        terminal,
        from: token.from,
        to: token.to,
        start: sheet.pos(token.from),
        end: sheet.pos(token.to),
        token: at,
        commented,
    }
}

fn kept(
    state: State,
    sheet: &SheetText,
    at: usize,
    token: &Token,
    terminal: Terminal,
) -> Result<Reading, Memory>
    requires { StandsIn sheet.now.bytes token.now }
    ensures value { IfOk result (λ reading. reading ≡ kept sheet.now.bytes state at token.now terminal) }
    ensures lies { IfOk result (λ reading. All (LexemeLies sheet.now.bytes) (optional reading.lexeme)) }
{
    let lexeme = lexeme_of(sheet, at, token, state.commented, terminal);
    Ok(Reading {
        lexeme: Some(lexeme),
        state: after(state, terminal)?,
    })
}

// One token.
#[tactic(auto, unfolding(crate::specs::Lexemes::read))]
fn read(state: State, sheet: &SheetText, at: usize, token: &Token) -> Result<Reading, Memory>
    requires { StandsIn sheet.now.bytes token.now }
    ensures value { IfOk result (λ reading. reading ≡ read sheet.now.bytes state at token.now) }
    ensures lies { IfOk result (λ reading. All (LexemeLies sheet.now.bytes) (optional reading.lexeme)) }
{
    let sort = sort_in(sheet, token);
    if is_white(&state, sort) {
        Ok(Reading {
            lexeme: None,
            state: past_white(state),
        })
    } else {
        let terminal = terminal_of(&state, token.spaced, sort);
        kept(state, sheet, at, token, terminal)
    }
}

fn added(lexemes: &mut Vec<Lexeme>, lexeme: Option<Lexeme>) -> Result<(), Memory>
    ensures { OnOk result (lexemes.new.items ≡ lexemes.old.items ++ optional lexeme) }
{
    if let Some(lexeme) = lexeme {
        lexemes.push(lexeme)?;
    }
    Ok(())
}

/// What the grammar sees of the tokens of a text, in time that is linear in it: each token's terminal at its place,
/// without comments that are white space, and where it lies.
#[tactic(auto, unfolding(crate::specs::Lexemes::lexemes_of))]
pub(crate) fn lexemes_of(alloc: Global, tokens: &Tokens) -> Result<List<Lexeme>, Memory>
    ensures lexemes { IfOk result (λ lexemes. lexemes ≡ lexemes_of tokens.now.sheet.bytes tokens.now.list) }
    ensures lie { IfOk result (λ lexemes. All (LexemeLies tokens.now.sheet.bytes) lexemes) }
{
    let mut lexemes = Vec::with_capacity(alloc, tokens.len())?;
    let mut state = beginning(alloc);
    let mut at = 0;
    'tokens: while let Some(token) = tokens.get(at) {
        let Reading {
            lexeme,
            state: next,
        } = read(state, tokens.sheet(), at, token)?;
        state = next;
        added(&mut lexemes, lexeme)?;
        at += 1;
    }
    Ok(List::from_vec(lexemes))
}
