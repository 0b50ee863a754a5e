// Calls of built-in functions: `call div ; 1px ; 2`, `known div`. The arguments are the values of the parameters, in
// their order; that of a parameter with `...` is an argument list.
use crate::reader::Reader;
use crate::values::{DEPTH, told};
use std::alloc::Global;
use sw_fn_call::Argument;
use sw_rows_files::{Refusal, yes_or_no};
use sw_text::Name;

/// A function's name, and the text of its arguments, which is empty without a ` ; `.
pub fn parts(text: &str) -> (&str, &str) {
    text.split_once(" ; ").unwrap_or((text, ""))
}

fn push_argument(
    alloc: Global,
    args: &mut Vec<Argument>,
    reader: &mut Reader,
) -> Result<(), Refusal> {
    let name = Name::new(alloc, "")?;
    args.push((name, reader.value(alloc, DEPTH)?))?;
    reader.took(" ; ");
    Ok(())
}

/// The values that a text writes with ` ; ` between two, as arguments without names. `NoCall` where one can't be read,
/// the fault's name where there is no such value; `Memory` exactly where none was found.
pub fn arguments(alloc: Global, text: &str) -> Result<Vec<Argument>, Refusal> {
    let mut args = Vec::new(alloc);
    let mut reader = Reader::new(text);
    for _ in 0..text.len() {
        if reader.is_done() {
            return Ok(args);
        }
        push_argument(alloc, &mut args, &mut reader)?;
    }
    Ok(args)
}

/// Whether `sass:math` has a function, or what it gives (docs/LANGUAGE.md, Functions); its fault by name. `NoCall` for
/// another call or function; `Memory` exactly where none was found.
pub fn math(alloc: Global, name: &str, text: &str) -> Result<String, Refusal> {
    let (function, args) = parts(text);
    match (name, sw_fn_math::Function::by_name(function)) {
        ("known", function) => yes_or_no(alloc, function.is_some()),
        ("call", Some(function)) => {
            let args = arguments(alloc, args)?;
            told(alloc, sw_fn_math::call(alloc, function, &args))
        }
        _ => Err(Refusal::NoCall),
    }
}

/// Whether `sass:string` has a function, or what it gives (docs/LANGUAGE.md, Functions); its fault by name. `NoCall`
/// for another call or function; `Memory` exactly where none was found.
pub fn text(alloc: Global, name: &str, text: &str) -> Result<String, Refusal> {
    let (function, args) = parts(text);
    match (name, sw_fn_text::Function::by_name(function)) {
        ("known", function) => yes_or_no(alloc, function.is_some()),
        ("call", Some(function)) => {
            let args = arguments(alloc, args)?;
            told(alloc, sw_fn_text::call(alloc, function, &args))
        }
        _ => Err(Refusal::NoCall),
    }
}

/// Whether `sass:list` has a function, or what it gives (docs/LANGUAGE.md, Functions); its fault by name. `NoCall` for
/// another call or function; `Memory` exactly where none was found.
pub fn lists(alloc: Global, name: &str, text: &str) -> Result<String, Refusal> {
    let (function, args) = parts(text);
    match (name, sw_fn_list::Function::by_name(function)) {
        ("known", function) => yes_or_no(alloc, function.is_some()),
        ("call", Some(function)) => {
            let args = arguments(alloc, args)?;
            told(alloc, sw_fn_list::call(alloc, function, &args))
        }
        _ => Err(Refusal::NoCall),
    }
}

/// Whether `sass:map` has a function, or what it gives (docs/LANGUAGE.md, Functions); its fault by name. `NoCall` for
/// another call or function; `Memory` exactly where none was found.
pub fn maps(alloc: Global, name: &str, text: &str) -> Result<String, Refusal> {
    let (function, args) = parts(text);
    match (name, sw_fn_map::Function::by_name(function)) {
        ("known", function) => yes_or_no(alloc, function.is_some()),
        ("call", Some(function)) => {
            let args = arguments(alloc, args)?;
            told(alloc, sw_fn_map::call(alloc, function, &args))
        }
        _ => Err(Refusal::NoCall),
    }
}

/// Whether `sass:color`, or with `global` no module, has a function, or what it gives; its fault by name. `NoCall` for
/// another call or function; `Memory` exactly where none was found.
pub fn colours(alloc: Global, name: &str, text: &str) -> Result<String, Refusal> {
    let (function, args) = parts(text);
    match (name, colour_function(function)) {
        ("known", _) => { yes_or_no(alloc, sw_fn_colour::Function::by_name(function).is_some()) }
        ("global", _) => {
            yes_or_no(
                alloc,
                sw_fn_colour::Function::by_global_name(function).is_some(),
            )
        }
        ("call", Some(function)) => {
            let args = arguments(alloc, args)?;
            told(alloc, sw_fn_colour::call(alloc, function, &args))
        }
        _ => Err(Refusal::NoCall),
    }
}

// A function of the module, or one that stands in none.
fn colour_function(name: &str) -> Option<sw_fn_colour::Function> {
    match sw_fn_colour::Function::by_name(name) {
        Some(function) => Some(function),
        None => sw_fn_colour::Function::by_global_name(name),
    }
}
