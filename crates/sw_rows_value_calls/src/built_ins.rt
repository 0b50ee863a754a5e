// Calls on built-in modules and functions, of the module of a URL or, with `-`, of none: `find sass:math function
// ceil`, `variable sass:math pi`, `member sass:math 0`, `params - rgb 1 alpha`, `call - rgb ; 1 ; 2 ; 3`.
use crate::functions::{arguments, parts};
use crate::values::told;
use std::alloc::Global;
use sw_builtins::{BuiltIn, Found, call, find, member, params, variable};
use sw_fixed::Fixed;
use sw_rows_files::{Refusal, TextWriter, names, text_of};
use sw_tree::{Constant, Expr, ExprKind, Kind, Number, Param, Params, Parts};

/// What a built-in module has, or a function's value; the fault's name where it gives none. `NoCall` for another name,
/// or a text that isn't of the call's form; `Memory` exactly where none was found.
pub fn answer(alloc: Global, name: &str, text: &str) -> Result<String, Refusal> {
    let (url, rest) = text.split_once(' ').unwrap_or((text, ""));
    match name {
        "find" => found(alloc, url, rest),
        "variable" => value_of(alloc, url, rest),
        "member" => member_at(alloc, url, rest),
        "params" => params_of(alloc, url, rest),
        "call" => called(alloc, url, rest),
        _ => Err(Refusal::NoCall),
    }
}

fn of_module(url: &str) -> Option<&str> {
    if url == "-" { None } else { Some(url) }
}

fn kind_of(name: &str) -> Result<Kind, Refusal> {
    match name {
        "variable" => Ok(Kind::Variable),
        "function" => Ok(Kind::Function),
        "mixin" => Ok(Kind::Mixin),
        _ => Err(Refusal::NoCall),
    }
}

fn kind_name(kind: Kind) -> &'static str {
    match kind {
        Kind::Variable => "variable",
        Kind::Function => "function",
        Kind::Mixin => "mixin",
    }
}

fn found(alloc: Global, url: &str, text: &str) -> Result<String, Refusal> {
    let (kind, name) = text.split_once(' ').unwrap_or((text, ""));
    let meaning = match find(of_module(url), kind_of(kind)?, name) {
        Found::Known(_) => "known",
        Found::LeftOut => "left out",
        Found::NoSuch => "none",
    };
    Ok(String::from_str(alloc, meaning)?)
}

fn written(alloc: Global, value: Fixed) -> Result<String, Refusal> {
    let mut bytes = Vec::new(alloc);
    value.write_into(&mut bytes)?;
    text_of(alloc, &bytes)
}

fn value_of(alloc: Global, url: &str, name: &str) -> Result<String, Refusal> {
    match variable(url, name) {
        Some(value) => written(alloc, value),
        None => Ok(String::from_str(alloc, "none")?),
    }
}

fn member_at(alloc: Global, url: &str, text: &str) -> Result<String, Refusal> {
    match member(url, text.parse::<usize>()?) {
        Some((kind, name)) => {
            let kind = kind_name(kind);
            Ok(format!(in alloc; "{kind} {name}")?)
        }
        None => Ok(String::from_str(alloc, "none")?),
    }
}

fn function(url: &str, name: &str) -> Result<BuiltIn, Refusal> {
    match find(of_module(url), Kind::Function, name) {
        Found::Known(built_in) => Ok(built_in),
        Found::LeftOut => Err(Refusal::NoCall),
        Found::NoSuch => Err(Refusal::NoCall),
    }
}

fn called(alloc: Global, url: &str, text: &str) -> Result<String, Refusal> {
    let (name, args) = parts(text);
    let built_in = function(url, name)?;
    let args = arguments(alloc, args)?;
    told(alloc, call(alloc, built_in, &args))
}

// ---- parameter lists

// A function's name, how many arguments have none, and the names of the others.
fn params_of(alloc: Global, url: &str, text: &str) -> Result<String, Refusal> {
    let (name, rest) = text.split_once(' ').unwrap_or((text, ""));
    let (count, others) = rest.split_once(' ').unwrap_or((rest, ""));
    let (function, count) = (function(url, name)?, count.parse::<usize>()?);
    let others = names(alloc, others, ' ')?;
    list_text(alloc, &params(alloc, function, count, &others)?)
}

fn list_text(alloc: Global, list: &Params) -> Result<String, Refusal> {
    let mut writer = TextWriter::new(alloc);
    for item in list.items.as_slice() {
        add_separator(&mut writer);
        add_param(alloc, &mut writer, item);
    }
    if let Some(rest) = &list.rest {
        add_separator(&mut writer);
        writer.text("$");
        writer.text(rest.as_str());
        writer.text("...");
    }
    writer.written()
}

fn add_separator(writer: &mut TextWriter) {
    if !writer.is_empty() {
        writer.text(", ");
    }
}

fn add_param(alloc: Global, writer: &mut TextWriter, param: &Param) {
    writer.text("$");
    writer.text(param.name.as_str());
    if let Some(default) = &param.default {
        writer.text(": ");
        add_default(alloc, writer, default);
    }
}

fn add_default(alloc: Global, writer: &mut TextWriter, default: &Expr) {
    match &default.kind {
        ExprKind::Number(number) => add_number(alloc, writer, number),
        ExprKind::Constant(Constant::Null) => writer.text("null"),
        ExprKind::Word(Parts::Plain(word)) => writer.text(word.as_str()),
        _ => writer.refuse(Refusal::NoCall),
    }
}

fn add_number(alloc: Global, writer: &mut TextWriter, number: &Number) {
    match number.value {
        Some(value) => writer.add(written(alloc, value)),
        None => writer.refuse(Refusal::NoCall),
    }
    writer.text(number.unit.as_str());
}
