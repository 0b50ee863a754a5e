// What the grammar sees of a sheet's tokens.
ghost use Rattle.std.specs.Prelude.{◌≡◌, ◌≤◌, IfOk, All, length};
ghost use Rattle.sw_parse_terminals.specs.Lies.{LexemeLies};
ghost use Rattle.sw_parse_lexemes.specs.Lexemes.{lexemes_of, value_lexemes_of};

use crate::pass::{before_value, beginning, lexemes_by};
use crate::plains::plains_of;
use crate::state::Mode;
use std::alloc::Global;
use sw_parse_terminals::Lexeme;
use sw_text::{List, Memory};
use sw_tokens::Tokens;

/// What the grammar sees of a sheet's tokens, in time that is linear in its text: each token's terminal at its place,
/// without comments that are white space, and where it lies.
#[tactic(auto, unfolding(crate::specs::Lexemes::lexemes_of))]
pub fn lexemes_of(alloc: Global, tokens: &Tokens) -> Result<List<Lexeme>, Memory>
    ensures lexemes { IfOk result (λ lexemes. lexemes ≡ lexemes_of tokens.now.sheet.bytes tokens.now.list) }
    ensures lie { IfOk result (λ lexemes. All (LexemeLies tokens.now.sheet.bytes) lexemes) }
{
    let plains = plains_of(alloc, tokens)?;
    let lexemes = lexemes_by(alloc, plains.as_slice(), beginning(alloc), 0)?;
    Ok(List::from_vec(lexemes))
}

/// The same of the tokens from a place on, where a value is read from there in a mode.
#[tactic(auto, unfolding(crate::specs::Lexemes::value_lexemes_of))]
pub fn value_lexemes_of(
    alloc: Global,
    tokens: &Tokens,
    mode: Mode,
    at: usize,
) -> Result<List<Lexeme>, Memory>
    requires { at ≤ length tokens.now.list }
    ensures lexemes { IfOk result (λ lexemes. lexemes
        ≡ value_lexemes_of tokens.now.sheet.bytes tokens.now.list mode at) }
    ensures lie { IfOk result (λ lexemes. All (LexemeLies tokens.now.sheet.bytes) lexemes) }
{
    let plains = plains_of(alloc, tokens)?;
    let lexemes = lexemes_by(alloc, plains.as_slice(), before_value(alloc, mode), at)?;
    Ok(List::from_vec(lexemes))
}
