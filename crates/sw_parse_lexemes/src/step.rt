// What comes of a token.
ghost use Rattle.std.specs.Prelude.{◌≡◌, ◌+◌, ◌^◌, ◌<◌, ◌≤◌, length, OnOk, None};
ghost use Rattle.sw_parse_lexemes.specs.Steps.{opened_by, closes, inner_mode, further_mode, is_inserting, below_insert, begins_statement, in_word, from_word, mode_of, stepped, passes, stays, opened, popped, inserted, after_opening, after, judged, comments_by, comments_at, placed, are_white, is_white, ignored_after, past_white};

use crate::ahead::{code_from, sort_at};
use crate::bracket::innermost;
use crate::class::{is_comment, is_else};
use crate::mode::statement_mode;
use crate::name::is;
use crate::plain::Plain;
use crate::sort::Sort;
use crate::state::{Bracket, Comments, Frame, Mode, State};
use sw_parse_terminals::Terminal;
use sw_text::{List, Memory};

fn opened_by(terminal: Terminal) -> Option<Bracket>
    ensures { result ≡ opened_by terminal }
{
    match terminal {
        Terminal::Open => Some(Bracket::Block),
        Terminal::RawParen
        | Terminal::Paren
        | Terminal::ConditionParen
        | Terminal::CallParen
        | Terminal::HeadParen => Some(Bracket::Paren),
        Terminal::RawBracket | Terminal::Bracket => Some(Bracket::Bracket),
        Terminal::RawBrace => Some(Bracket::Brace),
        Terminal::Insert | Terminal::WordInsert | Terminal::PartInsert => Some(Bracket::Insert),
        Terminal::Template | Terminal::UrlTemplate | Terminal::CommentTemplate => {
            Some(Bracket::Text)
        }
        _ => None,
    }
}

fn closes(terminal: Terminal) -> bool
    ensures { result ≡ closes terminal }
{
    match terminal {
        Terminal::Close => true,
        Terminal::RawParenEnd => true,
        Terminal::RawBracketEnd => true,
        Terminal::RawBraceEnd => true,
        Terminal::ParenEnd => true,
        Terminal::BracketEnd => true,
        Terminal::TemplateEnd => true,
        Terminal::UrlEnd => true,
        Terminal::CommentEnd => true,
        _ => false
    }
}

fn inner_mode(mode: Mode, terminal: Terminal) -> Mode
    ensures { result ≡ inner_mode mode terminal }
{
    match (mode, terminal) {
        (Mode::Raw, Terminal::RawParen) => Mode::Raw,
        (Mode::Custom, Terminal::RawParen) => Mode::Custom,
        (_, Terminal::RawParen) => Mode::Special,
        (mode, Terminal::RawBracket) => mode,
        (mode, Terminal::RawBrace) => mode,
        (Mode::Media, Terminal::ConditionParen) => Mode::Media,
        (Mode::Forward, Terminal::HeadParen) => Mode::Ends,
        (Mode::Head, Terminal::HeadParen) => Mode::Params,
        (Mode::Include, Terminal::HeadParen) => Mode::Params,
        (_, Terminal::Template) => Mode::Text,
        (_, Terminal::UrlTemplate) => Mode::Text,
        (_, Terminal::CommentTemplate) => Mode::Text,
        (_, _) => Mode::Expression
    }
}

fn further_mode(mode: Mode, terminal: Terminal) -> Mode
    ensures { result ≡ further_mode mode terminal }
{
    match (mode, terminal) {
        (Mode::Each, Terminal::In) => Mode::Expression,
        (Mode::For, Terminal::From) => Mode::Bounds,
        (Mode::Else, Terminal::If) => Mode::Expression,
        (Mode::CustomName, Terminal::Colon) => Mode::Custom,
        (mode, _) => mode
    }
}

fn is_inserting(frame: Option<Frame>) -> bool
    ensures { result ≡ is_inserting frame }
{
    match frame {
        None => true,
        Some(frame) => match frame.bracket {
            Bracket::Insert => true,
            _ => false,
        },
    }
}

#[tactic(auto, using(crate::proofs::Below::below_step, crate::proofs::Below::below_smaller, crate::proofs::Below::below_end))]
// The frames up to the innermost `#{`.
fn below_insert(frames: &mut List<Frame>)
    ensures { frames.new ≡ below_insert (length frames.old) frames.old }
{
    'items: while !is_inserting(innermost(frames.as_slice())) {
        let count = frames.len().saturating_sub(1);
        frames.truncate(count);
    }
}

#[inline(always)]
fn begins_statement(terminal: Terminal) -> bool
    ensures { result ≡ begins_statement terminal }
{
    match terminal {
        Terminal::Semicolon => true,
        Terminal::Open => true,
        Terminal::Close => true,
        Terminal::CommentWhole => true,
        Terminal::CommentEnd => true,
        _ => false
    }
}

#[inline(always)]
fn in_word(terminal: Terminal) -> bool
    ensures { result ≡ in_word terminal }
{
    match terminal {
        Terminal::Word => true,
        Terminal::Part => true,
        Terminal::AtOther => true,
        Terminal::Custom => true,
        _ => false
    }
}

fn from_word(frame: Option<Frame>) -> bool
    ensures { result ≡ from_word frame }
{
    match frame {
        None => false,
        Some(frame) => {
            is(frame.opened, Terminal::WordInsert) || is(frame.opened, Terminal::PartInsert)
        }
    }
}

fn mode_of(frame: Option<Frame>, mode: Mode) -> Mode
    ensures { result ≡ mode_of frame mode }
{
    match frame {
        None => mode,
        Some(frame) => frame.mode,
    }
}

#[inline(always)]
fn stepped(state: &mut State, mode: Mode, word: bool, terminal: Terminal)
    ensures { state.new ≡ stepped state.old mode word terminal }
{
    state.mode = mode;
    state.start = begins_statement(terminal);
    state.word = word;
    state.before_that = state.before;
    state.before = terminal;
    state.ignored = 0;
    state.commented = false;
}

fn opened(state: &mut State, bracket: Bracket, terminal: Terminal) -> Result<(), Memory>
    ensures { OnOk result (state.new ≡ opened state.old bracket terminal) }
{
    let mode = state.mode;
    state.frames.push(Frame {
        bracket,
        opened: terminal,
        mode,
    })
}

fn popped(state: &mut State, terminal: Terminal)
    ensures { state.new ≡ popped state.old terminal }
{
    let inner = innermost(state.frames.as_slice());
    let mode = mode_of(inner, state.mode);
    let count = state.frames.len().saturating_sub(1);
    state.frames.truncate(count);
    stepped(
        state,
        mode,
        is(terminal, Terminal::InsertEnd) && from_word(inner),
        terminal,
    )
}

fn inserted(state: &mut State)
    ensures { state.new ≡ inserted state.old }
{
    below_insert(&mut state.frames)
}

#[inline(always)]
fn closed(state: &mut State, terminal: Terminal)
    ensures value { state.new ≡ after_opening state.old terminal None }
    ensures none { state.new.ignored ≡ 0 }
{
    if is(terminal, Terminal::InsertEnd) {
        inserted(state);
        popped(state, terminal)
    } else if closes(terminal) {
        popped(state, terminal)
    } else {
        let mode = further_mode(state.mode, terminal);
        stepped(state, mode, in_word(terminal), terminal)
    }
}

// Whether a terminal neither opens nor closes anything.
#[inline(always)]
fn passes(terminal: Terminal) -> bool
    ensures { result ≡ passes terminal }
{
    match terminal {
        Terminal::Open => false,
        Terminal::Close => false,
        Terminal::RawParen => false,
        Terminal::RawBracket => false,
        Terminal::RawBrace => false,
        Terminal::Insert => false,
        Terminal::RawParenEnd => false,
        Terminal::RawBracketEnd => false,
        Terminal::RawBraceEnd => false,
        Terminal::InsertEnd => false,
        Terminal::TemplateEnd => false,
        Terminal::UrlEnd => false,
        Terminal::CommentEnd => false,
        Terminal::Template => false,
        Terminal::UrlTemplate => false,
        Terminal::WordInsert => false,
        Terminal::Paren => false,
        Terminal::ConditionParen => false,
        Terminal::Bracket => false,
        Terminal::PartInsert => false,
        Terminal::CallParen => false,
        Terminal::ParenEnd => false,
        Terminal::BracketEnd => false,
        Terminal::CommentTemplate => false,
        Terminal::HeadParen => false,
        _ => true,
    }
}

// Whether tokens are read in the same mode behind each terminal that passes.
#[inline(always)]
fn stays(mode: Mode) -> bool
    ensures { result ≡ stays mode }
{
    match mode {
        Mode::Each => false,
        Mode::For => false,
        Mode::Else => false,
        Mode::CustomName => false,
        _ => true,
    }
}

#[tactic(auto, unfolding(crate::specs::Steps::after))]
#[inline(never)]
fn turned(state: &mut State, terminal: Terminal) -> Result<(), Memory>
    ensures value { OnOk result (state.new ≡ after state.old terminal) }
    ensures none { OnOk result (state.new.ignored ≡ 0) }
{
    match opened_by(terminal) {
        Some(bracket) => {
            let mode = inner_mode(state.mode, terminal);
            opened(state, bracket, terminal)?;
            stepped(state, mode, false, terminal);
        }
        None => closed(state, terminal),
    }
    Ok(())
}

/// Goes behind a token of a terminal. Most neither open nor close anything and change no mode.
#[tactic(auto, using(crate::proofs::Passing::passing_after))]
#[inline(always)]
pub(crate) fn after(state: &mut State, terminal: Terminal) -> Result<(), Memory>
    ensures value { OnOk result (state.new ≡ after state.old terminal) }
    ensures none { OnOk result (state.new.ignored ≡ 0) }
{
    if passes(terminal) && stays(state.mode) {
        let mode = state.mode;
        stepped(state, mode, in_word(terminal), terminal);
        Ok(())
    } else {
        turned(state, terminal)
    }
}

fn judged(plains: &[Plain], at: usize) -> Comments
    requires { at ≤ length plains.now }
    ensures { result ≡ judged plains.now at }
{
    if is_else(sort_at(plains, code_from(plains, at))) {
        Comments::White
    } else {
        Comments::Statements
    }
}

fn comments_by(known: Comments, plains: &[Plain], at: usize) -> Comments
    requires { at ≤ length plains.now }
    ensures { result ≡ comments_by known plains.now at }
{
    match known {
        Comments::Unknown => judged(plains, at),
        known => known,
    }
}

fn comments_at(known: Comments, plains: &[Plain], at: usize) -> Comments
    requires { at ≤ length plains.now }
    ensures { result ≡ comments_at known plains.now at }
{
    if is_comment(sort_at(plains, at)) {
        comments_by(known, plains, at)
    } else {
        Comments::Unknown
    }
}

/// At the start of a statement tokens are read as its form says.
#[tactic(auto, unfolding(crate::specs::Steps::placed))]
pub(crate) fn placed(state: &mut State, plains: &[Plain], at: usize)
    requires { at < length plains.now }
    ensures value { state.new ≡ placed state.old plains.now at }
    ensures ignored { state.new.ignored ≡ state.old.ignored }
{
    if state.start {
        state.mode = statement_mode(plains, at);
        state.comments = comments_at(state.comments, plains, at);
    }
}

fn are_white(comments: Comments) -> bool
    ensures { result ≡ are_white comments }
{
    match comments {
        Comments::White => true,
        _ => false,
    }
}

/// Whether a comment that begins here is white space.
pub(crate) fn is_white(state: &State, plains: &[Plain], at: usize) -> bool
    ensures { result ≡ is_white state.now plains.now at }
{
    is_comment(sort_at(plains, at)) && (!state.start || are_white(state.comments))
}

fn ignored_after(count: usize, sort: Sort) -> usize
    requires { count + 1 < 2 ^ 64 }
    ensures value { result ≡ ignored_after count sort }
    ensures more { result ≤ count + 1 }
{
    match sort {
        Sort::CommentTemplate => count + 1,
        Sort::CommentEnd => count.saturating_sub(1),
        _ => count,
    }
}

/// Goes behind a comment that is white space, or a part of one.
#[tactic(auto, unfolding(crate::specs::Steps::past_white))]
pub(crate) fn past_white(state: &mut State, sort: Sort)
    requires { state.old.ignored + 1 < 2 ^ 64 }
    ensures value { state.new ≡ past_white state.old sort }
    ensures more { state.new.ignored ≤ state.old.ignored + 1 }
{
    state.ignored = ignored_after(state.ignored, sort);
    state.commented = true;
}
