// Which terminal stands at a place.
ghost use Rattle.std.specs.Prelude.{◌≡◌, ◌∷◌, [], length, ◌≤◌, ◌<◌, IsTrue, IfOk, IfErr, Ok};
ghost use Rattle.sw_parse_grammar.specs.Grammar.{member};
ghost use Rattle.sw_parse_terminals.specs.Numbers.{number_of};
ghost use Rattle.sw_parse_table.specs.Sources.{terminal_at};

use crate::Source;
use sw_parse_grammar::ReadError;
use sw_parse_terminals::Terminal;
use sw_text::Memory;

/// The number of the terminal at a place, 0 past the end.
#[tactic(auto, unfolding(crate::specs::Sources::terminal_at))]
pub fn number_at(source: &Source, at: usize) -> u8
    ensures number { result ≡ terminal_at source.now at }
    ensures within { length source.now.lexemes.now ≤ at → result ≡ 0 }
{
    match source.lexemes.get(at) {
        None => 0,
        Some(lexeme) => lexeme.terminal as u8,
    }
}

/// Whether a terminal stands at a place.
#[tactic(auto, using(sw_parse_terminals::proofs::Terminals::positive))]
pub fn is_at(source: &Source, at: usize, terminal: Terminal) -> bool
    ensures test { result ≡ member (terminal_at source.now at) (number_of terminal ∷ []) }
    ensures within { IsTrue result → at < length source.now.lexemes.now }
{
    number_at(source, at) == terminal as u8
}

/// What was made, or want of memory as a reader answers it.
pub fn found<T: Drop>(outcome: Result<T, Memory>) -> Result<T, ReadError>
    ensures made { IfOk result (λ value. outcome ≡ Ok value) }
    ensures memory { IfErr result (λ error. error ≡ ReadError.Memory) }
{
    match outcome {
        Ok(value) => Ok(value),
        Err(Memory) => Err(ReadError::Memory),
    }
}
