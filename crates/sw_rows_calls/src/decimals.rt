// Calls on decimals: `number 1.50`, `decimal 1 / 3`, `floor -2.5`, `whole 3`, `order 1 ; 2`.
use std::alloc::Global;
use sw_fixed::{Fixed, NumberFault};
use sw_rows_files::{Refusal, answer_of, order_name, text_of};

/// What a call on decimals gives, or the fault's name where a number can't be read or computed. `NoCall` for another
/// name, or a text that isn't of the call's form; `Memory` exactly where none was found.
pub fn answer(alloc: Global, name: &str, text: &str) -> Result<String, Refusal> {
    match name {
        "decimal" => written(alloc, computed(alloc, text)?),
        "from_whole" => written(alloc, Fixed::from_whole(text.parse::<i64>()?)),
        "order" => order(alloc, text),
        _ => turned(alloc, name, decimal(alloc, text)?),
    }
}

fn turned(alloc: Global, name: &str, number: Fixed) -> Result<String, Refusal> {
    match name {
        "number" => written(alloc, number),
        "floor" => written(alloc, number.floor()),
        "ceil" => written(alloc, number.ceil()),
        "round" => written(alloc, number.round()),
        "negate" => written(alloc, number.negate()),
        "absolute" => written(alloc, number.absolute()),
        "whole" => whole(alloc, number),
        _ => Err(Refusal::NoCall),
    }
}

/// The sides of a sign that has a space on both, and the sign.
pub fn sides(text: &str) -> Option<(&str, &str, &str)> {
    for sign in [" + ", " - ", " * ", " / ", " % "] {
        if let Some((left, right)) = text.split_once(sign) {
            return Some((left, sign.trim(), right));
        }
    }
    None
}

/// A decimal as it is read.
pub fn decimal(alloc: Global, text: &str) -> Result<Fixed, Refusal> {
    answer_of(alloc, Fixed::read(text))
}

fn computed(alloc: Global, text: &str) -> Result<Fixed, Refusal> {
    let Some((left, sign, right)) = sides(text) else {
        return Err(Refusal::NoCall);
    };
    let (left, right) = (decimal(alloc, left)?, decimal(alloc, right)?);
    answer_of(alloc, operated(sign, left, right))
}

fn operated(sign: &str, left: Fixed, right: Fixed) -> Result<Fixed, NumberFault> {
    match sign {
        "+" => left.add(right),
        "-" => left.sub(right),
        "*" => left.mul(right),
        "/" => left.div(right),
        _ => left.modulo(right),
    }
}

fn order(alloc: Global, text: &str) -> Result<String, Refusal> {
    let (left, right) = text.split_once(" ; ").unwrap_or((text, ""));
    let (left, right) = (decimal(alloc, left)?, decimal(alloc, right)?);
    order_name(alloc, left.cmp(right))
}

fn whole(alloc: Global, number: Fixed) -> Result<String, Refusal> {
    match number.whole() {
        Some(count) => Ok(format!(in alloc; "{count}")?),
        None => Ok(String::from_str(alloc, "none")?),
    }
}

/// A decimal as it is written.
pub fn written(alloc: Global, value: Fixed) -> Result<String, Refusal> {
    let mut bytes = Vec::new(alloc);
    value.write_into(&mut bytes)?;
    text_of(alloc, &bytes)
}
