// The tokens that an indented text stands for, or the place of its fault.
ghost use Rattle.std.specs.Prelude.{◌≡◌, ℕ, ◌*◌, ◌+◌, ◌<◌, ◌≤◌, ◌^◌, ◌++◌, length, IfOk, IfErr};
ghost use Rattle.sw_parse_layout.specs.Blocks.{due_sign, shut_blocks};
ghost use Rattle.sw_text.specs.Places.{mark_length};
ghost use Rattle.sw_parse_layout.specs.Laid.{both, earlier, behind};
ghost use Rattle.sw_parse_layout.specs.Layout.{walk, comment_end_sign, last_tokens, finished, start_at, laid_of, end_of, layout, TellsLaid, Told, IsPlace, told_by, place_of, Fits32};
ghost use Rattle.sw_tokens.specs.Order.{InOrder};
ghost use Rattle.sw_parse_layout.specs.Laws.{Statements};
ghost use Rattle.sw_parse_layout.specs.LawsOfText.{Fills};
ghost use Rattle.sw_parse_layout.specs.LawsOfLines.{Lines, between};

use crate::blocks::{Blocks, due_sign, shut_blocks};
use crate::laid::{Laid, both, joined, nothing, told_token};
use crate::sorts::Sort;
use crate::state::{Line, Mode, State, StepEnd};
use crate::steps::step;
use std::alloc::Global;
use sw_text::{List, Memory};
use sw_tokens::{Before, Token, TokenKind, first_start, mark_length_of, reached};

/// The offsets of a fault.
#[derive(Clone, Copy, Debug, PartialEq, Eq)]
pub struct Place {
    pub from: u32,
    pub to: u32,
}

/// Why a text has no tokens.
#[derive(Debug, Drop)]
pub enum LayoutEnd {
    Memory,
    /// The first character of what isn't closed, else the first token that is refused.
    Refused(Place),
}

impl From<Memory> for LayoutEnd {
    ghost use Rattle.std.specs.Prelude.{◌≡◌};
    ghost use Rattle.sw_parse_layout.specs.declared.walk.LayoutEnd.TheVariants.{Memory as memory};

    ghost from_gives = { λ _ end. end ≡ memory };

    fn from(_: Memory) -> LayoutEnd {
        LayoutEnd::Memory
    }
}

/// The end of a loud comment that has no `*/`.
fn comment_end_sign(alloc: Global, mode: Mode, end: u32) -> Result<List<Token>, Memory>
    ensures { IfOk result (λ tokens. tokens ≡ comment_end_sign mode end) }
{
    let mut tokens = List::new(alloc);
    match mode {
        Mode::Comment(_) => {
            tokens.push(told_token(TokenKind::CommentEnd, end, end))?;
            Ok(tokens)
        }
        Mode::Between => Ok(tokens),
        Mode::Statement(_) => Ok(tokens),
        Mode::Behind(_) => Ok(tokens),
    }
}

/// The signs at the end of the text.
fn last_tokens(alloc: Global, s: State) -> Result<List<Token>, Memory>
    ensures { IfOk result (λ tokens. tokens ≡ last_tokens s) }
{
    let State {
        mode,
        line,
        blocks,
        ..
    } = s;
    let first = comment_end_sign(alloc, mode, line.end)?;
    let due = due_sign(alloc, blocks.due, line.end)?;
    let closed = shut_blocks(alloc, line.end, 0, blocks.depths)?;
    let last = joined(due, closed.tokens)?;
    joined(first, last)
}

#[tactic(auto, unfolding(crate::specs::Layout::finished))]
fn finished(alloc: Global, s: State) -> Result<Laid, StepEnd>
    ensures { TellsLaid result (finished s) }
{
    match first_start(s.line.opened.as_slice()) {
        None => Ok(Laid {
            tokens: last_tokens(alloc, s)?,
            refused: None,
        }),
        Some(start) => Err(StepEnd::Unclosed(start)),
    }
}

fn start_at(alloc: Global, at: u32) -> State
    ensures { result ≡ start_at at }
{
    State {
        at: at as usize,
        mode: Mode::Between,
        line: Line {
            opened: List::new(alloc),
            before: Before::White,
            brackets: List::new(alloc),
            sort: Sort::Fresh,
            end: at,
            comments: List::new(alloc),
        },
        blocks: Blocks {
            depths: List::new(alloc),
            indent: None,
            first: true,
            due: false,
        },
    }
}

/// What is laid, and the end of the text behind it.
fn ended(alloc: Global, laid: Laid, s: State) -> Result<Laid, StepEnd>
    ensures { TellsLaid result (behind laid (finished s)) }
{
    match finished(alloc, s) {
        Ok(last) => Ok(both(laid, last)?),
        Err(end) => Err(end),
    }
}

/// What the lines of a text lay.
#[tactic(auto, unfolding(crate::specs::Layout::laid_of))]
fn laid_of(alloc: Global, text: &str) -> Result<Laid, StepEnd>
    requires { length text.now < 2 ^ 32 }
    ensures { TellsLaid result (laid_of text.now) }
{
    let mut state = start_at(alloc, mark_length_of(text) as u32);
    let mut laid = nothing(alloc);
    // each step takes a byte at least, but for one at the beginning of each statement
    'steps: for _step in 0..2 * text.len() {
        if state.at >= text.len() {
            return ended(alloc, laid, state);
        }
        let found = match step(alloc, text, state) {
            Ok(found) => found,
            Err(end) => return Err(end),
        };
        laid = both(laid, found.laid)?;
        state = found.state;
    }
    ended(alloc, laid, state)
}

/// Where the token ends that begins at an offset.
fn end_of(at: u32, tokens: &[Token]) -> u32
    ensures { result ≡ end_of at tokens.now }
{
    let mut rest = tokens;
    'tokens: while let [token, further @ ..] = rest {
        if token.from == at && at < token.to {
            return token.to;
        }
        rest = further;
    }
    at
}

/// The tokens that an indented text stands for, in time that is linear in its bytes.
#[tactic(auto, unfolding(crate::specs::Layout::layout))]
pub fn layout(alloc: Global, text: &str) -> Result<List<Token>, LayoutEnd>
    requires { length text.now < 2 ^ 32 }
    ensures told { Told result (layout text.now) }
    ensures order { IfOk result (λ tokens. InOrder text.now 0 tokens) }
    ensures statements { IfOk result (λ tokens. Statements text.now 0 tokens) }
    ensures text { IfOk result (λ tokens. Fills text.now (mark_length text.now) (length text.now) tokens) }
    ensures place { IfErr result (IsPlace text.now) }
{
    match laid_of(alloc, text) {
        Ok(laid) => told_by(reached(alloc, laid.tokens)?, laid.refused),
        Err(end) => Err(place_of(end)),
    }
}

fn told_by(tokens: List<Token>, refused: Option<u32>) -> Result<List<Token>, LayoutEnd>
    ensures { Told result (told_by tokens refused) }
{
    match refused {
        None => Ok(tokens),
        Some(at) => Err(LayoutEnd::Refused(Place {
            from: at,
            to: end_of(at, tokens.as_slice()),
        })),
    }
}

/// The first character of what isn't closed.
fn place_of(end: StepEnd) -> LayoutEnd
    requires { Fits32 end }
    ensures { result ≡ place_of end }
{
    match end {
        StepEnd::Memory => LayoutEnd::Memory,
        StepEnd::Unclosed(at) => LayoutEnd::Refused(Place {
            from: at as u32,
            to: at as u32 + 1,
        }),
    }
}

/// A law: a walk over a text comes to its end, since more steps than it may take change nothing.
pub fn walks_come_to_an_end(text: &str)
    ensures { (steps : ℕ) → 2 * length text.now ≤ steps
        → walk text.now steps (start_at (mark_length text.now)) ≡ laid_of text.now }
{
    let _end = text.len();
}

/// A law: over the end of a line a statement goes on in strings, urls, brackets and `#{}`, and behind a comma of a
/// selector, and nowhere else, as docs/LANGUAGE.md says ("Over lines"). So each line that isn't blank is a statement of
/// its own, but for those that go on and the lines of comments.
pub fn statements_end_with_their_lines(text: &str)
    ensures { IfOk (layout text.now) (λ tokens. Lines text.now between tokens) }
{
    let _end = text.len();
}
