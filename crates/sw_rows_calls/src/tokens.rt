// Calls on the tokens of a text: `tokens a { b: c }` gives them all, `css a { b: c }` those of plain CSS, `token 0 ; a`
// the one at a place, `none a` the list without any.
use crate::places::{ends, sheet};
use std::alloc::{AllocError, Global};
use sw_rows_files::{Refusal, TextWriter};
use sw_text::{List, Shared, SheetText};
use sw_tokens::{Fault10, Syntax, Token, TokenKind, Tokens};

/// The tokens with their offsets in bytes, or `!` and the place of the fault. `NoCall` for another name, or a text that
/// isn't of the call's form; `Memory` exactly where none was found.
pub fn answer(alloc: Global, name: &str, text: &str) -> Result<String, Refusal> {
    match name {
        "tokens" => all(alloc, text, Syntax::Scss),
        "css" => all(alloc, text, Syntax::Css),
        "token" => one(alloc, text),
        "none" => without(alloc, text),
        _ => Err(Refusal::NoCall),
    }
}

/// A text as that of a sheet.
pub fn shared(alloc: Global, text: &str) -> Result<Shared<SheetText>, Refusal> {
    let sheet = sheet(alloc, text)?;
    Ok(Shared::new(alloc, sheet)?)
}

fn all(alloc: Global, text: &str, syntax: Syntax) -> Result<String, Refusal> {
    let sheet = shared(alloc, text)?;
    told(alloc, Tokens::of_syntax(alloc, &sheet, syntax))
}

/// The tokens, or where the fault stands.
pub fn told(alloc: Global, tokens: Result<Tokens, Fault10>) -> Result<String, Refusal> {
    match tokens {
        Ok(tokens) => listed(alloc, &tokens),
        Err(Fault10::Memory) => Err(Refusal::Memory),
        Err(Fault10::Fault(fault)) => {
            let ends = ends(alloc, &fault.span)?;
            Ok(format!(in alloc; "! {ends}")?)
        }
    }
}

fn one(alloc: Global, text: &str) -> Result<String, Refusal> {
    let (at, text) = text.split_once(" ; ").unwrap_or((text, ""));
    let at = at.parse::<usize>()?;
    let tokens = tokens(alloc, text)?;
    match tokens.get(at) {
        Some(token) => shown(alloc, token),
        None => Ok(String::from_str(alloc, "none")?),
    }
}

/// The tokens of a text that has them.
pub fn tokens(alloc: Global, text: &str) -> Result<Tokens, Refusal> {
    let sheet = shared(alloc, text)?;
    match Tokens::of(alloc, &sheet) {
        Ok(tokens) => Ok(tokens),
        Err(Fault10::Memory) => Err(Refusal::Memory),
        Err(Fault10::Fault(_)) => Err(Refusal::NoCall),
    }
}

fn without(alloc: Global, text: &str) -> Result<String, Refusal> {
    let sheet = shared(alloc, text)?;
    let tokens = Tokens::from_list(&sheet, List::new(alloc))?;
    let (count, text) = (tokens.len(), tokens.sheet().text());
    Ok(format!(in alloc; "{count} of {text}")?)
}

fn listed(alloc: Global, tokens: &Tokens) -> Result<String, Refusal> {
    let mut writer = TextWriter::new(alloc);
    for at in 0..tokens.len() {
        if let Some(token) = tokens.get(at) {
            writer.text(if at == 0 { "" } else { " " });
            writer.add(shown(alloc, token));
        }
    }
    writer.written()
}

// A token as its kind and its offsets, with `_` before it where white space or a comment stands.
fn shown(alloc: Global, token: &Token) -> Result<String, Refusal> {
    let mark = if token.spaced { "_" } else { "" };
    let kind = kind(alloc, &token.kind)?;
    let (from, to) = (token.from, token.to);
    Ok(format!(in alloc; "{mark}{kind}{from}-{to}")?)
}

// A kind, with the text of one that has a text.
fn kind(alloc: Global, kind: &TokenKind) -> Result<String, AllocError> {
    match kind {
        TokenKind::Quoted(text) => format!(in alloc; "Quoted<{}>", text.as_str()),
        TokenKind::Text(text) => format!(in alloc; "Text<{}>", text.as_str()),
        plain => format!(in alloc; "{plain:?}"),
    }
}
