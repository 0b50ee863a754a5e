// What stands at the places of a text of plain CSS, and the spans between them.
ghost use Rattle.std.specs.Prelude.{◌≡◌, ◌<◌, ◌≤◌, length, IsTrue, IfOk};
ghost use Rattle.std.specs.Str.{IsCharBoundary};
ghost use Rattle.sw_parse_grammar.specs.Grammar.{member};
ghost use Rattle.sw_parse_terminals.specs.Numbers.{just};
ghost use Rattle.sw_parse_css.specs.Seen.{seen, bytes, terminal_at, from_at, to_at, token_at, span_at, span_between};

use sw_parse_table::Source;
use sw_parse_terminals::Terminal;
use sw_text::{Memory, Span};

/// The number of the terminal at a place, 0 past the end.
#[tactic(auto, unfolding(sw_parse_table::specs::Sources::terminal_at, crate::specs::Seen::terminal_at))]
pub(crate) fn number_at(source: &Source, at: usize) -> u8
    ensures number { result ≡ terminal_at (seen source.now) at }
    ensures within { length source.now.lexemes.now ≤ at → result ≡ 0 }
{
    sw_parse_table::number_at(source, at)
}

/// Whether a terminal stands at a place.
#[tactic(auto, unfolding(sw_parse_table::specs::Sources::terminal_at, crate::specs::Seen::terminal_at))]
pub(crate) fn is_at(source: &Source, at: usize, terminal: Terminal) -> bool
    ensures test { result ≡ member (terminal_at (seen source.now) at) (just terminal) }
    ensures within { IsTrue result → at < length source.now.lexemes.now }
{
    sw_parse_table::is_at(source, at, terminal)
}

/// Where the token at a place stands.
#[tactic(auto, unfolding(sw_parse_table::specs::Sources::from_at, sw_parse_table::specs::Sources::to_at, crate::specs::Seen::from_at, crate::specs::Seen::to_at))]
pub(crate) fn span_at(source: &Source, at: usize) -> Result<Span, Memory>
    ensures { IfOk result (λ span. span ≡ span_at (seen source.now) at) }
{
    sw_parse_table::span_at(source, at)
}

/// The span from the token at a place to the one before another.
#[tactic(auto, unfolding(sw_parse_table::specs::Sources::from_at, sw_parse_table::specs::Sources::to_at, crate::specs::Seen::from_at, crate::specs::Seen::to_at))]
pub(crate) fn span_between(source: &Source, at: usize, place: usize) -> Result<Span, Memory>
    ensures { IfOk result (λ span. span ≡ span_between (seen source.now) at place) }
{
    sw_parse_table::span_between(source, at, place)
}

#[tactic(auto, unfolding(sw_parse_table::specs::Sources::from_at, crate::specs::Seen::from_at))]
pub(crate) fn from_at(source: &Source, at: usize) -> u32
    ensures offset { result ≡ from_at (seen source.now) at }
    ensures boundary { IsCharBoundary (bytes (seen source.now)) result }
{
    sw_parse_table::from_at(source, at)
}

#[tactic(auto, unfolding(sw_parse_table::specs::Sources::to_at, crate::specs::Seen::to_at))]
pub(crate) fn to_at(source: &Source, at: usize) -> u32
    ensures offset { result ≡ to_at (seen source.now) at }
    ensures boundary { IsCharBoundary (bytes (seen source.now)) result }
{
    sw_parse_table::to_at(source, at)
}

/// Where the token at a place stands in the list of tokens.
#[tactic(auto, unfolding(crate::specs::Seen::token_at))]
pub(crate) fn token_at(source: &Source, at: usize) -> usize
    ensures { result ≡ token_at (seen source.now) at }
{
    match source.lexemes.get(at) {
        None => source.tokens.len(),
        Some(lexeme) => lexeme.token,
    }
}
