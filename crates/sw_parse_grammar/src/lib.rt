//! The theory of a grammar that is given as data: what its table derives and begins, how deep its brackets nest, and
//! the one reader that is right for every table that one kind of token decides. It stands on nothing; a reader states
//! its table here as a definition, and hands its answers up.
#![tactic(auto)]

ghost use Rattle.std.specs.Prelude.{◌≡◌};

use std::alloc::{AllocError, AllocFailed};

/// Why a reader gave no value.
#[derive(Debug, Drop)]
pub enum ReadError {
    /// There was no memory for the value.
    Memory,
    /// The place of the first token with which the text can't go on, or the
    /// number of tokens where the text ends too early.
    Unexpected(usize),
    /// The place of the first token that opens a level more than may be open.
    TooDeep(usize),
}

impl From<AllocError> for ReadError {
    ghost use Rattle.std.specs.Prelude.{◌≡◌};
    ghost use Rattle.sw_parse_grammar.specs.declared.ReadError.TheVariants.{Memory};

    ghost from_gives = { λ _ e. e ≡ Memory };

    fn from(_e: AllocError) -> ReadError {
        ReadError::Memory
    }
}

impl<T: Drop> From<AllocFailed<T>> for ReadError {
    ghost use Rattle.std.specs.Prelude.{◌≡◌};
    ghost use Rattle.sw_parse_grammar.specs.declared.ReadError.TheVariants.{Memory};

    ghost from_gives = { λ _ e. e ≡ Memory };

    fn from(_e: AllocFailed<T>) -> ReadError {
        ReadError::Memory
    }
}
