// Tokens that are laid.
ghost use Rattle.std.specs.Prelude.{◌≡◌, ◌∷◌, ◌++◌, [], None, IfOk, Ok};
ghost use Rattle.sw_parse_layout.specs.Laid.{sign_at, told_token, nothing, refused_at, earlier, both};

use std::alloc::Global;
use sw_text::{List, Memory};
use sw_tokens::{Token, TokenKind};

/// Tokens, and where the first begins that is refused.
#[derive(Debug, Drop)]
pub struct Laid {
    pub tokens: List<Token>,
    pub refused: Option<u32>,
}

pub(crate) fn sign_at(kind: TokenKind, at: u32) -> Token
    ensures { result ≡ sign_at kind at }
{
    Token {
        kind,
        from: at,
        to: at,
        spaced: true,
    }
}

pub(crate) fn told_token(kind: TokenKind, from: u32, to: u32) -> Token
    ensures { result ≡ told_token kind from to }
{
    Token {
        kind,
        from,
        to,
        spaced: false,
    }
}

pub(crate) fn nothing(alloc: Global) -> Laid
    ensures { result ≡ nothing }
{
    Laid {
        tokens: List::new(alloc),
        refused: None,
    }
}

pub(crate) fn one(alloc: Global, token: Token) -> Result<Laid, Memory>
    ensures { IfOk result (λ laid. laid ≡ record { tokens = token ∷ []; refused = None }) }
{
    let mut tokens = List::new(alloc);
    tokens.push(token)?;
    Ok(Laid {
        tokens,
        refused: None,
    })
}

/// Tokens and further tokens, each moved.
pub(crate) fn joined(mut tokens: List<Token>, more: List<Token>) -> Result<List<Token>, Memory>
    ensures { IfOk result (λ all. all ≡ tokens ++ more) }
{
    let mut all = tokens.into_vec();
    let mut further = more.into_vec();
    all.append(&mut further)?;
    Ok(List::from_vec(all))
}

pub(crate) fn refused_at(refused: bool, at: u32) -> Option<u32>
    ensures { result ≡ refused_at refused at }
{
    if refused { Some(at) } else { None }
}

fn earlier(first: Option<u32>, later: Option<u32>) -> Option<u32>
    ensures { result ≡ earlier first later }
{
    match first {
        Some(at) => Some(at),
        None => later,
    }
}

/// What is laid, and what comes behind it.
pub(crate) fn both(laid: Laid, more: Laid) -> Result<Laid, Memory>
    ensures { IfOk result (λ all. all ≡ both laid more) }
{
    let refused = earlier(laid.refused, more.refused);
    Ok(Laid {
        tokens: joined(laid.tokens, more.tokens)?,
        refused,
    })
}
