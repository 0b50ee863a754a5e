// What a body asked, and how it ended, as a line to print.
use std::alloc::{AllocError, Global};
use sw_css_tree::Line;
use sw_text::Fault;
use sw_world::{End, Finish, Pairs, Question};

/// How many questions the world answered, all questions with what each is about, and the end.
pub fn line(alloc: Global, answered: u32, seen: &Pairs, end: &End) -> Result<String, AllocError> {
    let mut line = format!(in alloc; "{answered} answered")?;
    let mut gap = ": ";
    for at in 0..seen.len() {
        line.push_str(gap)?;
        line.push_str(question(alloc, &seen.pair(at).0)?.as_str())?;
        gap = ", ";
    }
    line.push_str("; ")?;
    line.push_str(ending(alloc, end)?.as_str())?;
    Ok(line)
}

fn question(alloc: Global, op: &Question) -> Result<String, AllocError> {
    match op {
        Question::Find { name, .. } => format!(in alloc; "find {}", name.as_str()),
        Question::Get { name, .. } => format!(in alloc; "get {}", name.as_str()),
        Question::Put { name, .. } => format!(in alloc; "put {}", name.as_str()),
        Question::Say { text, .. } => format!(in alloc; "say {}", text.as_str()),
        Question::Call { name, .. } => format!(in alloc; "call {}", name.as_str()),
        Question::Load { url, .. } => format!(in alloc; "load {}", url.as_str()),
    }
}

fn ending(alloc: Global, end: &End) -> Result<String, AllocError> {
    match end {
        End::Done(finish) => left(alloc, finish.get()),
        End::Fault(fault) => place(alloc, fault),
    }
}

// The variables and the declarations that a body leaves behind.
fn left(alloc: Global, finish: &Finish) -> Result<String, AllocError> {
    let mut text = String::from_str(alloc, "done")?;
    for place in 0..finish.variables.len() {
        if let Some((name, _)) = finish.variables.at(place) {
            text.push_str(", $")?;
            text.push_str(name.as_str())?;
        }
    }
    for block in finish.css.get().blocks() {
        add_declarations(block.lines.as_slice(), &mut text)?;
    }
    Ok(text)
}

fn add_declarations(lines: &[Line], text: &mut String) -> Result<(), AllocError> {
    for line in lines {
        if let Line::Declaration { property, value } = line {
            text.push_str(", ")?;
            text.push_str(property.as_str())?;
            text.push_str(": ")?;
            text.push_str(value.as_str())?;
        }
    }
    Ok(())
}

fn place(alloc: Global, fault: &Fault) -> Result<String, AllocError> {
    let code = fault.code.number();
    let path = fault.span.file.as_str();
    let (line, column) = (fault.span.from.line, fault.span.from.column);
    format!(in alloc; "error {code} at {path} {line}:{column}")
}
