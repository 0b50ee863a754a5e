// Calls on what the tokens of a sheet are at their places: `lexemes a { b: c }` gives their terminals, `places a` where
// they lie, `value Ends 1 ; a b` the terminals where a value is read from a place on.
use crate::tokens::tokens;
use std::alloc::Global;
use sw_parse_lexemes::{Mode, lexemes_of, value_lexemes_of};
use sw_parse_terminals::Lexeme;
use sw_rows_files::{Refusal, TextWriter};

/// The terminals, or their places, with a space between two. `NoCall` for another name, a text that has a fault or a
/// place behind the end; `Memory` exactly where none was found.
pub fn answer(alloc: Global, name: &str, text: &str) -> Result<String, Refusal> {
    match name {
        "lexemes" => terminals(alloc, text),
        "places" => places(alloc, text),
        "value" => value(alloc, text),
        _ => Err(Refusal::NoCall),
    }
}

fn terminals(alloc: Global, text: &str) -> Result<String, Refusal> {
    let tokens = tokens(alloc, text)?;
    let lexemes = lexemes_of(alloc, &tokens)?;
    named(alloc, lexemes.as_slice())
}

fn places(alloc: Global, text: &str) -> Result<String, Refusal> {
    let tokens = tokens(alloc, text)?;
    let lexemes = lexemes_of(alloc, &tokens)?;
    placed(alloc, lexemes.as_slice())
}

fn value(alloc: Global, text: &str) -> Result<String, Refusal> {
    let (how, text) = text.split_once(" ; ").unwrap_or((text, ""));
    let (mode, at) = how.split_once(" ").unwrap_or((how, ""));
    let (mode, at) = (mode_of(mode)?, at.parse::<usize>()?);
    let tokens = tokens(alloc, text)?;
    if at > tokens.len() {
        return Err(Refusal::NoCall);
    }
    let lexemes = value_lexemes_of(alloc, &tokens, mode, at)?;
    named(alloc, lexemes.as_slice())
}

fn mode_of(name: &str) -> Result<Mode, Refusal> {
    match name {
        "Ends" => Ok(Mode::Ends),
        "BoundEnds" => Ok(Mode::BoundEnds),
        _ => Err(Refusal::NoCall),
    }
}

// The terminals, with `~` before one that a comment stands before.
fn named(alloc: Global, lexemes: &[Lexeme]) -> Result<String, Refusal> {
    let mut writer = TextWriter::new(alloc);
    for (at, lexeme) in lexemes.iter().enumerate() {
        writer.text(if at == 0 { "" } else { " " });
        writer.add(name(alloc, lexeme));
    }
    writer.written()
}

fn name(alloc: Global, lexeme: &Lexeme) -> Result<String, Refusal> {
    let mark = if lexeme.commented { "~" } else { "" };
    let terminal = lexeme.terminal;
    Ok(format!(in alloc; "{mark}{terminal:?}")?)
}

// The token, the offsets and the ends of each.
fn placed(alloc: Global, lexemes: &[Lexeme]) -> Result<String, Refusal> {
    let mut writer = TextWriter::new(alloc);
    for (at, lexeme) in lexemes.iter().enumerate() {
        writer.text(if at == 0 { "" } else { " " });
        writer.add(place(alloc, lexeme));
    }
    writer.written()
}

fn place(alloc: Global, lexeme: &Lexeme) -> Result<String, Refusal> {
    let (token, from, to) = (lexeme.token, lexeme.from, lexeme.to);
    let (start, end) = (lexeme.start, lexeme.end);
    let (line, column) = (start.line, start.column);
    let (last, behind) = (end.line, end.column);
    Ok(format!(in alloc; "{token}:{from}-{to}:{line}.{column}-{last}.{behind}")?)
}
