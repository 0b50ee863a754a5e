// Calls on numbers with units: `compute 1 in + 96 px`, `convert 1 in ; px`, `compare 1 in ; 96 px`,
// `equal 1 in ; 96 px`, `compatible in ; px`.
use crate::decimals::{decimal, sides, written};
use std::alloc::Global;
use sw_fixed::NumberFault;
use sw_rows_files::{Refusal, TextWriter, answer_of, names, order_name, yes_or_no};
use sw_units::{
    Number, UnitNames, Units, add, compare, compatible, convert, div, equal, modulo, mul, sub,
};

/// What a call on numbers gives, or the fault's name where one can't be read or computed. `NoCall` for another name or
/// without a sign to compute; `Memory` exactly where none was found.
pub fn answer(alloc: Global, name: &str, text: &str) -> Result<String, Refusal> {
    let (left, right) = text.split_once(" ; ").unwrap_or((text, ""));
    match name {
        "compute" => shown(alloc, &computed(alloc, text)?),
        "convert" => converted(alloc, left, right),
        "compare" => compared(alloc, left, right),
        "equal" => are_equal(alloc, left, right),
        "compatible" => are_compatible(alloc, left, right),
        _ => Err(Refusal::NoCall),
    }
}

// Two numbers with the sign between them.
fn computed(alloc: Global, text: &str) -> Result<Number, Refusal> {
    let Some((left, sign, right)) = sides(text) else {
        return Err(Refusal::NoCall);
    };
    let left = number(alloc, left)?;
    let right = number(alloc, right)?;
    answer_of(alloc, operated(sign, &left, &right))
}

fn operated(sign: &str, left: &Number, right: &Number) -> Result<Number, NumberFault> {
    match sign {
        "+" => add(left, right),
        "-" => sub(left, right),
        "*" => mul(left, right),
        "/" => div(left, right),
        _ => modulo(left, right),
    }
}

fn converted(alloc: Global, left: &str, right: &str) -> Result<String, Refusal> {
    let units = units(alloc, right)?;
    let number = number(alloc, left)?;
    written(alloc, answer_of(alloc, convert(&number, &units))?)
}

fn compared(alloc: Global, left: &str, right: &str) -> Result<String, Refusal> {
    let left = number(alloc, left)?;
    let right = number(alloc, right)?;
    order_name(alloc, answer_of(alloc, compare(&left, &right))?)
}

fn are_equal(alloc: Global, left: &str, right: &str) -> Result<String, Refusal> {
    let left = number(alloc, left)?.share()?;
    let are_equal = equal(&left, &number(alloc, right)?);
    yes_or_no(alloc, are_equal)
}

fn are_compatible(alloc: Global, left: &str, right: &str) -> Result<String, Refusal> {
    let left = units(alloc, left)?.share()?;
    let are_compatible = compatible(&left, &units(alloc, right)?);
    yes_or_no(alloc, are_compatible)
}

// A number, alone or with its units behind a space: `6 px*px`, `1 px/s`.
fn number(alloc: Global, text: &str) -> Result<Number, Refusal> {
    let (value, after) = text.split_once(' ').unwrap_or((text, ""));
    let value = decimal(alloc, value)?;
    Ok(Number::plain(value, units(alloc, after)?))
}

fn units(alloc: Global, text: &str) -> Result<Units, Refusal> {
    let (over, under) = text.split_once('/').unwrap_or((text, ""));
    let over = names(alloc, over, '*')?;
    let under = names(alloc, under, '*')?;
    answer_of(alloc, Units::of(&over, &under))
}

fn shown(alloc: Global, number: &Number) -> Result<String, Refusal> {
    let mut writer = TextWriter::new(alloc);
    writer.add(written(alloc, number.value));
    if !number.units.is_unitless() {
        writer.text(" ");
        add_names(&mut writer, &number.units.over);
    }
    if !number.units.under.is_empty() {
        writer.text("/");
        add_names(&mut writer, &number.units.under);
    }
    writer.written()
}

fn add_names(writer: &mut TextWriter, names: &UnitNames) {
    match names {
        UnitNames::Empty => {}
        UnitNames::One(name) => writer.text(name.as_str()),
        UnitNames::Two(one, other) => {
            writer.text(one.as_str());
            writer.text("*");
            writer.text(other.as_str());
        }
    }
}
