// Calls on scopes and arguments: `bind $a, $b: default, $rest... ; 1, $b: 2, (x y)...`, and scripts as
// `scope block | declare x 1 | look x`.
use crate::reader::Reader;
use crate::values::{DEPTH, inspected};
use std::alloc::Global;
use sw_rows_files::{Refusal, TextWriter, answer_of};
use sw_scope::{FrameKind, Mark, Origin, Passed, Scopes, Slot, bind};
use sw_text::{List, Name, Span};
use sw_tree::{Expr, ExprKind, Param, Params};
use sw_values::{Node, Value};

/// `bind` gives the parameters with what fills each; any other name runs the text as a script. The fault by name,
/// `NoCall` for what can't be read; `Memory` exactly where none was found.
pub fn answer(alloc: Global, name: &str, text: &str) -> Result<String, Refusal> {
    if name == "bind" {
        bound(alloc, text)
    } else {
        seen(alloc, text)
    }
}

fn bound(alloc: Global, text: &str) -> Result<String, Refusal> {
    let (params, arguments) = text.split_once(" ; ").unwrap_or((text, ""));
    let params = params_of(alloc, params)?;
    let passed = passed(alloc, arguments)?;
    let slots = answer_of(alloc, bind(alloc, &params, &passed))?;
    slots_text(alloc, slots.as_slice())
}

// Parameters, of which the one of the rest is the last.
fn params_of(alloc: Global, text: &str) -> Result<Params, Refusal> {
    let mut items = List::new(alloc);
    for part in text.split(", ") {
        let name = part.strip_prefix('$').unwrap_or("");
        if let Some(rest) = name.strip_suffix("...") {
            let rest = Some(Name::new(alloc, rest)?);
            return Ok(Params { items, rest });
        }
        if !name.is_empty() {
            items.push(param(alloc, name)?)?;
        }
    }
    Ok(Params { items, rest: None })
}

fn param(alloc: Global, text: &str) -> Result<Param, Refusal> {
    let (name, default) = text.split_once(": ").unwrap_or((text, ""));
    let name = Name::new(alloc, name)?;
    if default.is_empty() {
        return Ok(Param {
            name,
            default: None,
        });
    }
    let default = Some(variable(alloc, default)?);
    Ok(Param { name, default })
}

fn variable(alloc: Global, name: &str) -> Result<Expr, Refusal> {
    let name = Name::new(alloc, name)?;
    let span = Span::start_of(&name)?;
    let kind = ExprKind::Variable(name);
    Ok(Expr { kind, span })
}

fn passed(alloc: Global, text: &str) -> Result<Passed, Refusal> {
    let mut passed = Passed::new(alloc);
    let mut reader = Reader::new(text);
    for _ in 0..text.len() {
        if reader.is_done() {
            return Ok(passed);
        }
        pass(alloc, &mut passed, &mut reader)?;
        reader.took(", ");
    }
    Ok(passed)
}

fn pass(alloc: Global, passed: &mut Passed, reader: &mut Reader) -> Result<(), Refusal> {
    match reader.name() {
        Some(name) => pass_named(alloc, passed, name, reader),
        None => pass_plain(alloc, passed, reader),
    }
}

fn pass_named(
    alloc: Global,
    passed: &mut Passed,
    name: &str,
    reader: &mut Reader,
) -> Result<(), Refusal> {
    let name = Name::new(alloc, name)?;
    let value = reader.value(alloc, DEPTH)?;
    Ok(passed.pass_named(name, value)?)
}

fn pass_plain(alloc: Global, passed: &mut Passed, reader: &mut Reader) -> Result<(), Refusal> {
    let value = reader.value(alloc, DEPTH)?;
    if reader.took("...") || reader.took(" ...") {
        Ok(passed.spread(alloc, &value)?)
    } else {
        Ok(passed.pass(value)?)
    }
}

fn slots_text(alloc: Global, slots: &[(Name, Slot)]) -> Result<String, Refusal> {
    let mut writer = TextWriter::new(alloc);
    for slot in slots {
        writer.text(if writer.is_empty() { "$" } else { " | $" });
        writer.text(slot.0.as_str());
        writer.text(": ");
        add_slot(alloc, &mut writer, &slot.1);
    }
    if writer.is_empty() {
        writer.text("nothing");
    }
    writer.written()
}

fn add_slot(alloc: Global, writer: &mut TextWriter, slot: &Slot) {
    match slot {
        Slot::Filled(value) => add_value(alloc, writer, value),
        Slot::Default(place) => {
            writer.text("default ");
            writer.shown(place);
        }
    }
}

fn add_value(alloc: Global, writer: &mut TextWriter, value: &Value) {
    match value.node() {
        Node::Args { items, named } => {
            add_arguments(
                alloc,
                writer,
                items.get().as_slice(),
                named.get().as_slice(),
            );
        }
        _ => writer.add(inspected(alloc, value)),
    }
}

// An argument list as rows write one.
fn add_arguments(alloc: Global, writer: &mut TextWriter, items: &[Value], named: &[(Name, Value)]) {
    writer.text("args(");
    let mut between = "";
    for item in items {
        writer.text(between);
        writer.add(inspected(alloc, item));
        between = ", ";
    }
    for variable in named {
        writer.text(between);
        writer.text("$");
        writer.text(variable.0.as_str());
        writer.text(": ");
        writer.add(inspected(alloc, &variable.1));
        between = ", ";
    }
    writer.text(")");
}

// Scopes in the middle of a script, the marks that were noted, and what was seen so far.
#[derive(Drop)]
struct Script {
    scopes: Scopes,
    marks: Vec<(Name, Option<Mark>)>,
    seen: TextWriter,
}

fn seen(alloc: Global, steps: &str) -> Result<String, Refusal> {
    let mut script = Script {
        scopes: Scopes::new(alloc),
        marks: Vec::new(alloc),
        seen: TextWriter::new(alloc),
    };
    for step in steps.split(" | ") {
        frame_step(alloc, &mut script, step)?;
    }
    let Script { seen, .. } = script;
    seen.written()
}

fn frame_step(alloc: Global, script: &mut Script, step: &str) -> Result<(), Refusal> {
    let (name, rest) = step.split_once(' ').unwrap_or((step, ""));
    match name {
        "block" | "flow" => Ok(script.scopes.push(kind(name))?),
        "pop" => {
            script.scopes.pop();
            Ok(())
        }
        "mark" => {
            let mark = script.scopes.mark();
            Ok(script.marks.push((Name::new(alloc, rest)?, mark))?)
        }
        "on" => stand(script, rest),
        _ => variable_step(alloc, script, name, rest),
    }
}

fn kind(name: &str) -> FrameKind {
    if name == "flow" {
        FrameKind::Flow
    } else {
        FrameKind::Block
    }
}

// A frame on the mark of a name.
fn stand(script: &mut Script, rest: &str) -> Result<(), Refusal> {
    let (name, kind_name) = rest.split_once(' ').unwrap_or((rest, ""));
    for mark in &script.marks {
        if mark.0.as_str() == name {
            return Ok(script.scopes.on(mark.1, kind(kind_name))?);
        }
    }
    Err(Refusal::NoCall)
}

fn variable_step(
    alloc: Global,
    script: &mut Script,
    step: &str,
    rest: &str,
) -> Result<(), Refusal> {
    let (name, text) = rest.split_once(' ').unwrap_or((rest, ""));
    match step {
        "look" => look(alloc, script, Origin::Own, name),
        "look_other" => look(alloc, script, Origin::Other, name),
        "look_top" => look_top(alloc, script, name),
        _ => assign(alloc, &mut script.scopes, step, name, text),
    }
}

fn look(alloc: Global, script: &mut Script, origin: Origin, name: &str) -> Result<(), Refusal> {
    let name = Name::new(alloc, name)?;
    tell(alloc, &mut script.seen, script.scopes.look(origin, &name));
    Ok(())
}

fn look_top(alloc: Global, script: &mut Script, name: &str) -> Result<(), Refusal> {
    let name = Name::new(alloc, name)?;
    tell(alloc, &mut script.seen, script.scopes.look_top(&name));
    Ok(())
}

fn tell(alloc: Global, seen: &mut TextWriter, value: Option<&Value>) {
    if !seen.is_empty() {
        seen.text(" ");
    }
    match value {
        Some(value) => seen.add(inspected(alloc, value)),
        None => seen.text("none"),
    }
}

fn assign(
    alloc: Global,
    scopes: &mut Scopes,
    step: &str,
    name: &str,
    text: &str,
) -> Result<(), Refusal> {
    let name = Name::new(alloc, name)?;
    let value = Reader::new(text).value(alloc, DEPTH)?;
    give(scopes, step, name, value)
}

fn give(scopes: &mut Scopes, step: &str, name: Name, value: Value) -> Result<(), Refusal> {
    let given = match step {
        "declare" => scopes.declare(name, value),
        "set" => scopes.set(Origin::Own, name, value),
        "set_other" => scopes.set(Origin::Other, name, value),
        "set_top" => scopes.set_top(name, value),
        _ => return Err(Refusal::NoCall),
    };
    Ok(given?)
}
