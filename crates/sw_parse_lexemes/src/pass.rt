// The tokens of a text as the grammar sees them.
ghost use Rattle.std.specs.Prelude.{◌≡◌, ◌∷◌, ◌++◌, ◌+◌, ◌^◌, ◌<◌, ◌≤◌, IfOk, OnOk, length};
ghost use Rattle.sw_parse_lexemes.specs.Lexemes.{lexeme_of, skipped, kept, read_placed, read, optional, lexemes_by, beginning, before_value};

use crate::plain::Plain;
use crate::state::{Comments, Mode, State};
use crate::step::{after, is_white, past_white, placed};
use crate::terminal::terminal_of;
use std::alloc::Global;
use sw_parse_terminals::{Lexeme, Terminal};
use sw_text::{List, Memory};

/// Nothing is read yet, and a statement may begin.
pub(crate) fn beginning(alloc: Global) -> State
    ensures { result ≡ beginning }
{
    State {
        frames: List::new(alloc),
        mode: Mode::Expression,
        start: true,
        word: false,
        before: Terminal::Semicolon,
        before_that: Terminal::Semicolon,
        comments: Comments::Unknown,
        ignored: 0,
        commented: false,
    }
}

/// A value may begin, that is read in a mode.
pub(crate) fn before_value(alloc: Global, mode: Mode) -> State
    ensures { result ≡ before_value mode }
{
    State {
        mode,
        start: false,
        ..beginning(alloc)
    }
}

#[inline(always)]
fn lexeme_of(plain: &Plain, at: usize, commented: bool, terminal: Terminal) -> Lexeme
    ensures { result ≡ lexeme_of plain.now at commented terminal }
{
    Lexeme {
        terminal,
        from: plain.from,
        to: plain.to,
        start: plain.start,
        end: plain.end,
        token: at,
        commented: commented || plain.silent,
    }
}

#[inline(always)]
fn skipped(state: &mut State, plain: &Plain)
    requires { state.old.ignored + 1 < 2 ^ 64 }
    ensures state { state.new ≡ (skipped state.old plain.now).state }
    ensures ignored { state.new.ignored ≤ state.old.ignored + 1 }
{
    past_white(state, plain.sort)
}

#[inline(always)]
fn kept(
    lexemes: &mut Vec<Lexeme>,
    state: &mut State,
    at: usize,
    plain: &Plain,
    terminal: Terminal,
) -> Result<(), Memory>
    ensures lexemes { OnOk result (lexemes.new.items
        ≡ lexemes.old.items ++ optional (kept state.old at plain.now terminal).lexeme) }
    ensures state { OnOk result (state.new ≡ (kept state.old at plain.now terminal).state) }
    ensures ignored { OnOk result (state.new.ignored ≡ 0) }
{
    lexemes.push(lexeme_of(plain, at, state.commented, terminal))?;
    after(state, terminal)
}

#[inline(always)]
fn read_placed(
    lexemes: &mut Vec<Lexeme>,
    state: &mut State,
    plains: &[Plain],
    at: usize,
    plain: &Plain,
) -> Result<(), Memory>
    requires within { at < length plains.now }
    requires ignored { state.old.ignored + 1 < 2 ^ 64 }
    ensures lexemes { OnOk result (lexemes.new.items
        ≡ lexemes.old.items ++ optional (read_placed state.old plains.now at plain.now).lexeme) }
    ensures state { OnOk result (state.new ≡ (read_placed state.old plains.now at plain.now).state) }
    ensures ignored { OnOk result (state.new.ignored ≤ state.old.ignored + 1) }
{
    if is_white(state, plains, at) {
        skipped(state, plain);
        Ok(())
    } else {
        let terminal = terminal_of(state, plains, at);
        kept(lexemes, state, at, plain, terminal)
    }
}

// One token: what the grammar sees of it is put behind the lexemes, and the state goes behind it.
#[tactic(auto, unfolding(crate::specs::Lexemes::read))]
#[inline(always)]
fn read(
    lexemes: &mut Vec<Lexeme>,
    state: &mut State,
    plains: &[Plain],
    at: usize,
    plain: &Plain,
) -> Result<(), Memory>
    requires within { at < length plains.now }
    requires ignored { state.old.ignored + 1 < 2 ^ 64 }
    ensures lexemes { OnOk result (lexemes.new.items
        ≡ lexemes.old.items ++ optional (read state.old plains.now at plain.now).lexeme) }
    ensures state { OnOk result (state.new ≡ (read state.old plains.now at plain.now).state) }
    ensures ignored { OnOk result (state.new.ignored ≤ state.old.ignored + 1) }
{
    if 0 < state.ignored {
        skipped(state, plain);
        Ok(())
    } else {
        placed(state, plains, at);
        read_placed(lexemes, state, plains, at, plain)
    }
}

/// What the grammar sees of tokens by themselves, from a place on, where this is known.
#[inline(never)]
pub(crate) fn lexemes_by(
    alloc: Global,
    plains: &[Plain],
    first: State,
    from: usize,
) -> Result<Vec<Lexeme>, Memory>
    requires within { from ≤ length plains.now }
    requires ignored { first.ignored ≡ 0 }
    ensures { IfOk result (λ lexemes. lexemes.items ≡ lexemes_by plains.now first from) }
{
    let mut lexemes = Vec::with_capacity(alloc, plains.len() - from)?;
    let mut state = first;
    'tokens: for at in from..plains.len() {
        read(&mut lexemes, &mut state, plains, at, &plains[at])?;
    }
    Ok(lexemes)
}
