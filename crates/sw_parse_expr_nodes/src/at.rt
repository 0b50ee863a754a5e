// Which terminal stands at a place.
ghost use Rattle.std.specs.Prelude.{◌≡◌, ◌∷◌, [], ◌++◌, length, ◌<◌, IsTrue};
ghost use Rattle.sw_parse_grammar.specs.Grammar.{member, keep, skip, without};
ghost use Rattle.sw_parse_grammar.specs.Readers.{Answers};
ghost use Rattle.sw_parse_terminals.specs.declared.terminal.Terminal.TheVariants.{DollarNamed};
ghost use Rattle.sw_parse_terminals.specs.Numbers.{number_of, just};
ghost use Rattle.sw_parse_table.specs.Parts.{Place};
ghost use Rattle.sw_parse_table.specs.Sources.{terminal_at};
ghost use Rattle.sw_parse_table.specs.Sets.{starts, prefixes, dollars, numbers, constants, bangs, parens_opening, words, operators};
ghost use Rattle.sw_parse_table.specs.Values.{ends_with_comma};
ghost use Rattle.sw_parse_table.specs.Reads.{reader, Reads};

use sw_parse_grammar::ReadError;
use sw_parse_table::{Precedence, Source, begins_value, is_at};
use sw_parse_terminals::Terminal;

/// The place behind a token that has to stand here.
#[tactic(auto, unfolding(sw_parse_grammar::specs::Readers::parse))]
pub fn skipped(
    source: &Source,
    levels: u8,
    at: usize,
    terminal: Terminal,
) -> Result<usize, ReadError>
    ensures { Answers (λ _. []) (λ next. next) result (reader source.now levels (skip (number_of terminal ∷ [])) at) }
{
    if is_at(source, at, terminal) {
        Ok(at + 1)
    } else {
        Err(ReadError::Unexpected(at))
    }
}

/// The place of a token that has to stand here, and the one behind it.
#[tactic(auto, unfolding(sw_parse_grammar::specs::Readers::parse))]
pub fn kept(
    source: &Source,
    levels: u8,
    at: usize,
    terminal: Terminal,
) -> Result<(usize, usize), ReadError>
    ensures { Reads (λ place. Place place ∷ []) result (reader source.now levels (keep (number_of terminal ∷ [])) at) }
{
    if is_at(source, at, terminal) {
        Ok((at, at + 1))
    } else {
        Err(ReadError::Unexpected(at))
    }
}

/// An error that leaves no use for what was read before it.
pub fn given_up<T: Drop, E: Drop>(read: T, error: E) -> E
    ensures { result ≡ error }
{
    drop(read);
    error
}

/// Whether a number begins at a place, with its sign or without one.
pub fn is_number(source: &Source, at: usize) -> bool
    ensures test { result ≡ member (terminal_at source.now at) numbers }
    ensures within { IsTrue result → at < length source.now.lexemes.now }
{
    is_at(source, at, Terminal::Sign) || is_at(source, at, Terminal::Number)
}

/// Whether `true`, `false` or `null` stands at a place.
pub fn is_constant(source: &Source, at: usize) -> bool
    ensures test { result ≡ member (terminal_at source.now at) constants }
    ensures within { IsTrue result → at < length source.now.lexemes.now }
{
    is_at(source, at, Terminal::True)
        || is_at(source, at, Terminal::False)
        || is_at(source, at, Terminal::Null)
}

/// Whether a word begins at a place.
pub fn begins_word(source: &Source, at: usize) -> bool
    ensures test { result ≡ member (terminal_at source.now at) words }
    ensures within { IsTrue result → at < length source.now.lexemes.now }
{
    is_at(source, at, Terminal::Word)
        || is_at(source, at, Terminal::WordMinus)
        || is_at(source, at, Terminal::WordInsert)
}

/// Whether a sign before an operand stands at a place.
pub fn is_prefix(source: &Source, at: usize) -> bool
    ensures test { result ≡ member (terminal_at source.now at) prefixes }
    ensures within { IsTrue result → at < length source.now.lexemes.now }
{
    is_at(source, at, Terminal::PrefixPlus)
        || is_at(source, at, Terminal::PrefixMinus)
        || is_at(source, at, Terminal::PrefixSlash)
        || is_at(source, at, Terminal::Not)
}

/// Whether `$` stands at a place.
pub fn is_dollar(source: &Source, at: usize) -> bool
    ensures test { result ≡ member (terminal_at source.now at) dollars }
    ensures within { IsTrue result → at < length source.now.lexemes.now }
{
    is_at(source, at, Terminal::Dollar) || is_at(source, at, Terminal::DollarNamed)
}

/// Whether `!` stands at a place.
pub fn is_bang(source: &Source, at: usize) -> bool
    ensures test { result ≡ member (terminal_at source.now at) bangs }
    ensures within { IsTrue result → at < length source.now.lexemes.now }
{
    is_at(source, at, Terminal::Bang) || is_at(source, at, Terminal::Ending)
}

/// Whether `(` that begins an operand stands at a place.
pub fn is_paren(source: &Source, at: usize) -> bool
    ensures test { result ≡ member (terminal_at source.now at) parens_opening }
    ensures within { IsTrue result → at < length source.now.lexemes.now }
{
    is_at(source, at, Terminal::Paren) || is_at(source, at, Terminal::ConditionParen)
}

/// Whether an argument begins at a place.
#[tactic(auto, using(sw_parse_table::proofs::Rows::argument_row))]
pub fn begins_argument(source: &Source, at: usize) -> bool
    ensures test { result ≡ member (terminal_at source.now at) (just DollarNamed ++ without (just DollarNamed) starts) }
    ensures within { IsTrue result → at < length source.now.lexemes.now }
{
    begins_value(source, at)
}

/// Whether an operator that binds so stands at a place.
pub fn is_operator(source: &Source, at: usize, precedence: Precedence) -> bool
    ensures test { result ≡ member (terminal_at source.now at) (operators precedence) }
    ensures within { IsTrue result → at < length source.now.lexemes.now }
{
    match precedence {
        Precedence::Product => {
            is_at(source, at, Terminal::Times)
                || is_at(source, at, Terminal::Divide)
                || is_at(source, at, Terminal::Modulo)
        }
        Precedence::Sum => {
            is_at(source, at, Terminal::Plus) || is_at(source, at, Terminal::Minus)
        }
        Precedence::Relation => {
            is_at(source, at, Terminal::Less)
                || is_at(source, at, Terminal::LessEqual)
                || is_at(source, at, Terminal::Greater)
                || is_at(source, at, Terminal::GreaterEqual)
        }
        Precedence::Equality => {
            is_at(source, at, Terminal::Equal) || is_at(source, at, Terminal::NotEqual)
        }
        Precedence::And => is_at(source, at, Terminal::And),
        Precedence::Or => is_at(source, at, Terminal::Or),
    }
}

/// Whether the token before a place is a comma.
#[tactic(auto, unfolding(sw_parse_table::specs::Values::ends_with_comma))]
pub fn ends_with_comma(source: &Source, at: usize) -> bool
    ensures { result ≡ ends_with_comma source.now at }
{
    is_at(source, at.saturating_sub(1), Terminal::Comma)
}
