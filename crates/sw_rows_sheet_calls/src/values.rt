// Calls on values: `value Expr ; 1 + 2` writes the value of a form that a text begins with, and the place of the token
// behind it; `marks Expr ; 1 + 2` the same with the span of each part that has one; `deep 127 ; (1)` where so many
// levels of brackets are open.
use crate::expr::add_expr;
use crate::sheets::{refused, text_of_sheet};
use crate::writer::Writer;
use std::alloc::Global;
use sw_expr_parse::{Form, ReadEnd, read_expr};
use sw_rows_files::Refusal;
use sw_tokens::{Fault10, Tokens};
use sw_tree::Expr;

// The most levels of brackets that may be open.
const LEVELS: u8 = 128;

/// The value in prefix form, ` | ` and the number of the token behind it, or the fault. `NoCall` for another name or
/// form, more than 128 levels or a text with no tokens; `Memory` exactly where none was found.
pub fn answer(alloc: Global, name: &str, text: &str) -> Result<String, Refusal> {
    let (how, text) = text.split_once(" ; ").unwrap_or((text, ""));
    match name {
        "value" => value(alloc, form_of(how)?, text, false),
        "marks" => value(alloc, form_of(how)?, text, true),
        "deep" => deep(alloc, how.parse::<u8>()?, text),
        _ => Err(Refusal::NoCall),
    }
}

fn form_of(name: &str) -> Result<Form, Refusal> {
    match name {
        "Expr" => Ok(Form::Expr),
        "Space" => Ok(Form::Space),
        "Bound" => Ok(Form::Bound),
        "Sum" => Ok(Form::Sum),
        _ => Err(Refusal::NoCall),
    }
}

fn tokens_of(alloc: Global, text: &str) -> Result<Tokens, Refusal> {
    let text = text_of_sheet(alloc, text)?;
    match Tokens::of(alloc, &text) {
        Ok(tokens) => Ok(tokens),
        Err(Fault10::Memory) => Err(Refusal::Memory),
        Err(Fault10::Fault(_)) => Err(Refusal::NoCall),
    }
}

fn value(alloc: Global, form: Form, text: &str, marks: bool) -> Result<String, Refusal> {
    let tokens = tokens_of(alloc, text)?;
    told(alloc, read_expr(alloc, &tokens, form, 0, 0), marks)
}

fn deep(alloc: Global, depth: u8, text: &str) -> Result<String, Refusal> {
    if depth > LEVELS {
        return Err(Refusal::NoCall);
    }
    let tokens = tokens_of(alloc, text)?;
    told(
        alloc,
        read_expr(alloc, &tokens, Form::Expr, 0, depth),
        false,
    )
}

fn told(
    alloc: Global,
    value: Result<(Expr, usize), ReadEnd>,
    marks: bool,
) -> Result<String, Refusal> {
    match value {
        Ok((value, place)) => written(alloc, &value, place, marks),
        Err(end) => Err(refused(alloc, &end)),
    }
}

fn written(alloc: Global, value: &Expr, place: usize, marks: bool) -> Result<String, Refusal> {
    let mut writer = Writer::new(alloc, marks);
    add_expr(&mut writer, value);
    writer.text(" | ");
    writer.place(place);
    writer.written()
}
