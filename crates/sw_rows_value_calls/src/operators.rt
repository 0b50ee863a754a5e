// Calls of operators: `operate 1in + 96px`, `prefix - 1px`, `prefix not null`, `plain 1/2`.
use crate::reader::{Reader, values_of};
use crate::values::told;
use std::alloc::Global;
use sw_ops::{Op1, Op2, binary, plain, unary};
use sw_rows_files::Refusal;
use sw_text::List;

/// What an operator gives, for a reader, or its fault by name (docs/LANGUAGE.md, Operators). `NoCall` for another name
/// or sign, or values that can't be read; `Memory` exactly where none was found.
pub fn answer(alloc: Global, name: &str, text: &str) -> Result<String, Refusal> {
    match name {
        "operate" => operated(alloc, text),
        "prefix" => prefixed(alloc, text),
        "plain" => without_sides(alloc, text),
        _ => Err(Refusal::NoCall),
    }
}

fn operated(alloc: Global, text: &str) -> Result<String, Refusal> {
    let mut reader = Reader::new(text);
    let mut sides = List::new(alloc);
    reader.read_into(alloc, &mut sides)?;
    reader.took(" ");
    let op = with_two(reader.word())?;
    reader.took(" ");
    reader.read_into(alloc, &mut sides)?;
    match sides.as_slice() {
        [left, right] if reader.is_done() => told(alloc, binary(alloc, op, left, right)),
        _ => Err(Refusal::NoCall),
    }
}

fn prefixed(alloc: Global, text: &str) -> Result<String, Refusal> {
    let (sign, text) = text.split_once(' ').unwrap_or((text, ""));
    let op = with_one(sign)?;
    match values_of(alloc, text)?.as_slice() {
        [value] => told(alloc, unary(alloc, op, value)),
        _ => Err(Refusal::NoCall),
    }
}

fn without_sides(alloc: Global, text: &str) -> Result<String, Refusal> {
    match values_of(alloc, text)?.as_slice() {
        [value] => told(alloc, plain(value)),
        _ => Err(Refusal::NoCall),
    }
}

fn with_two(sign: &str) -> Result<Op2, Refusal> {
    Ok(match sign {
        "+" => Op2::Add,
        "-" => Op2::Sub,
        "*" => Op2::Mul,
        "/" => Op2::Div,
        "%" => Op2::Rem,
        "<" => Op2::Less,
        "<=" => Op2::LessEqual,
        ">" => Op2::Greater,
        ">=" => Op2::GreaterEqual,
        "==" => Op2::Equal,
        "!=" => Op2::NotEqual,
        _ => return Err(Refusal::NoCall),
    })
}

fn with_one(sign: &str) -> Result<Op1, Refusal> {
    Ok(match sign {
        "+" => Op1::Plus,
        "-" => Op1::Minus,
        "/" => Op1::Slash,
        "not" => Op1::Not,
        _ => return Err(Refusal::NoCall),
    })
}
