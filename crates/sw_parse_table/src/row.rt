// Sets of terminals that are numbered in a row.
ghost use Rattle.std.specs.Prelude.{◌≡◌, length, ◌<◌, IsTrue};
ghost use Rattle.sw_parse_grammar.specs.Grammar.{member, without};
ghost use Rattle.sw_parse_table.specs.Sets.{starts, endings, literals};
ghost use Rattle.sw_parse_table.specs.Sources.{terminal_at};

use crate::{Source, number_at};
use sw_parse_terminals::Terminal;

/// Whether a value begins at a place.
#[tactic(auto, using(crate::proofs::Rows::starts_row))]
pub fn begins_value(source: &Source, at: usize) -> bool
    ensures test { result ≡ member (terminal_at source.now at) starts }
    ensures within { IsTrue result → at < length source.now.lexemes.now }
{
    let number = number_at(source, at);
    Terminal::Number as u8 <= number && number <= Terminal::Ending as u8
}

/// Whether a value goes on at a place: another begins there, and what ends values doesn't stand there.
#[tactic(auto, using(crate::proofs::Rows::goes_on_row))]
pub fn goes_on(source: &Source, at: usize) -> bool
    ensures test { result ≡ member (terminal_at source.now at) (without endings starts) }
    ensures within { IsTrue result → at < length source.now.lexemes.now }
{
    let number = number_at(source, at);
    Terminal::Number as u8 <= number && number <= Terminal::Not as u8
}

/// Whether a literal begins at a place.
#[tactic(auto, using(crate::proofs::Rows::literals_row))]
pub fn begins_literal(source: &Source, at: usize) -> bool
    ensures test { result ≡ member (terminal_at source.now at) literals }
    ensures within { IsTrue result → at < length source.now.lexemes.now }
{
    let number = number_at(source, at);
    Terminal::Number as u8 <= number && number <= Terminal::UrlTemplate as u8
}
