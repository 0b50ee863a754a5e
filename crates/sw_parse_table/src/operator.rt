// The operators, signs and constants that terminals stand for.
ghost use Rattle.std.specs.Prelude.{◌≡◌};
ghost use Rattle.sw_parse_table.specs.Operators.{operator_of, sign_of, constant_of, operator_at, sign_at, constant_at};

use crate::Source;
use sw_parse_terminals::Terminal;
use sw_tree::{Constant, Operator, Sign};

/// How operators bind, those that bind most first.
#[derive(Clone, Copy, Debug, PartialEq, Eq)]
pub enum Precedence {
    /// `*`, `/` and `%`
    Product,
    /// `+` and `-`
    Sum,
    /// `<`, `<=`, `>` and `>=`
    Relation,
    /// `==` and `!=`
    Equality,
    /// `and`
    And,
    /// `or`
    Or,
}

fn operator_of(terminal: Terminal) -> Operator
    ensures { result ≡ operator_of terminal }
{
    match terminal {
        Terminal::Or => Operator::Or,
        Terminal::And => Operator::And,
        Terminal::Equal => Operator::Equal,
        Terminal::NotEqual => Operator::NotEqual,
        Terminal::Less => Operator::Less,
        Terminal::LessEqual => Operator::LessEqual,
        Terminal::Greater => Operator::Greater,
        Terminal::GreaterEqual => Operator::GreaterEqual,
        Terminal::Plus => Operator::Plus,
        Terminal::Minus => Operator::Minus,
        Terminal::Times => Operator::Times,
        Terminal::Divide => Operator::Divide,
        _ => Operator::Modulo,
    }
}

/// The operator that stands at a place. Where none does it is `%`, as a definition has to say something.
pub fn operator_at(source: &Source, at: usize) -> Operator
    ensures { result ≡ operator_at source.now at }
{
    match source.lexemes.get(at) {
        None => Operator::Modulo,
        Some(lexeme) => operator_of(lexeme.terminal),
    }
}

fn sign_of(terminal: Terminal) -> Sign
    ensures { result ≡ sign_of terminal }
{
    match terminal {
        Terminal::PrefixPlus => Sign::Plus,
        Terminal::PrefixMinus => Sign::Minus,
        Terminal::PrefixSlash => Sign::Slash,
        _ => Sign::Not,
    }
}

/// The sign that stands at a place before an operand. Where none does it is `not`.
pub fn sign_at(source: &Source, at: usize) -> Sign
    ensures { result ≡ sign_at source.now at }
{
    match source.lexemes.get(at) {
        None => Sign::Not,
        Some(lexeme) => sign_of(lexeme.terminal),
    }
}

fn constant_of(terminal: Terminal) -> Constant
    ensures { result ≡ constant_of terminal }
{
    match terminal {
        Terminal::True => Constant::True,
        Terminal::False => Constant::False,
        _ => Constant::Null,
    }
}

/// The constant that stands at a place. Where none does it is `null`.
pub fn constant_at(source: &Source, at: usize) -> Constant
    ensures { result ≡ constant_at source.now at }
{
    match source.lexemes.get(at) {
        None => Constant::Null,
        Some(lexeme) => constant_of(lexeme.terminal),
    }
}
