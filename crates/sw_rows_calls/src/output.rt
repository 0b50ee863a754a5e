// Calls on the output of modules: `output rule a | declare b c | close ; import "x.css"` gives the page, `parts` joins
// it.
use std::alloc::Global;
use sw_css_print::{Printed, join, print, print_one};
use sw_css_tree::CssTree;
use sw_rows_files::{Refusal, TextWriter, add_unescaped, answer_of, text_of};
use sw_text::{Name, Shared};

/// Modules are parted by ` ; `, and the calls that one makes by ` | `.
pub fn answer(alloc: Global, name: &str, text: &str) -> Result<String, Refusal> {
    let bytes = if name == "parts" {
        joined(alloc, text)?
    } else {
        printed(alloc, text)?
    };
    escaped(alloc, &bytes)
}

fn printed(alloc: Global, text: &str) -> Result<Vec<u8>, Refusal> {
    let mut trees = Vec::new(alloc);
    for module in text.split(" ; ") {
        trees.push(shared_tree(alloc, module)?)?;
    }
    Ok(print(alloc, trees.as_slice())?)
}

fn joined(alloc: Global, text: &str) -> Result<Vec<u8>, Refusal> {
    let mut parts = Vec::new(alloc);
    for module in text.split(" ; ") {
        parts.push(shared_part(alloc, module)?)?;
    }
    Ok(join(alloc, parts.as_slice())?)
}

fn shared_tree(alloc: Global, calls: &str) -> Result<Shared<CssTree>, Refusal> {
    Ok(Shared::new(alloc, tree(alloc, calls)?)?)
}

fn shared_part(alloc: Global, calls: &str) -> Result<Shared<Printed>, Refusal> {
    let part = print_one(alloc, &tree(alloc, calls)?)?;
    Ok(Shared::new(alloc, part)?)
}

// The output of a module that makes these calls. `next` begins another statement.
fn tree(alloc: Global, calls: &str) -> Result<CssTree, Refusal> {
    let mut tree = CssTree::new(alloc);
    let mut statement = 0usize;
    for call in calls.split(" | ") {
        if call == "next" {
            statement = statement.saturating_add(1);
            begin(&mut tree, statement)?;
        } else {
            make(alloc, &mut tree, call)?;
        }
    }
    Ok(tree)
}

fn begin(tree: &mut CssTree, statement: usize) -> Result<(), Refusal> {
    if tree.is_open() {
        return Err(Refusal::NoCall);
    }
    tree.statement(statement);
    Ok(())
}

// One call: its name, and its texts with escapes.
fn make(alloc: Global, tree: &mut CssTree, call: &str) -> Result<(), Refusal> {
    let (name, rest) = call.split_once(' ').unwrap_or((call, ""));
    match name {
        "root" => answer_of(alloc, tree.open_root()),
        "close" => close(tree),
        "message" => answer_of(alloc, tree.message(rest.parse::<u32>()?)),
        "rule" | "comment" | "import" => make_of_one(alloc, tree, name, rest),
        _ => make_of_two(alloc, tree, name, rest),
    }
}

// A call that takes a text.
fn make_of_one(alloc: Global, tree: &mut CssTree, name: &str, rest: &str) -> Result<(), Refusal> {
    let text = text(alloc, rest)?;
    let made = match name {
        "rule" => tree.open_rule(text),
        "comment" => tree.comment(text),
        _ => tree.import(text),
    };
    answer_of(alloc, made)
}

// A call that takes two texts, with a space between them.
fn make_of_two(alloc: Global, tree: &mut CssTree, name: &str, rest: &str) -> Result<(), Refusal> {
    let (one, other) = rest.split_once(' ').unwrap_or((rest, ""));
    let one = text(alloc, one)?;
    let other = text(alloc, other)?;
    let made = match name {
        "at" => tree.open_at(one, other),
        "bubble" => tree.bubble(one, other),
        "line" => tree.at(one, other),
        "declare" if tree.is_open() => tree.declare(one, other),
        _ => return Err(Refusal::NoCall),
    };
    answer_of(alloc, made)
}

fn close(tree: &mut CssTree) -> Result<(), Refusal> {
    if !tree.is_open() {
        return Err(Refusal::NoCall);
    }
    tree.close();
    Ok(())
}

fn text(alloc: Global, escaped: &str) -> Result<Name, Refusal> {
    let mut bytes = Vec::new(alloc);
    add_unescaped(escaped, &mut bytes)?;
    let text = text_of(alloc, &bytes)?;
    Ok(Name::new(alloc, text.as_str())?)
}

// Each line feed is written `\n`, and the empty page `nothing`.
fn escaped(alloc: Global, bytes: &[u8]) -> Result<String, Refusal> {
    if bytes.is_empty() {
        return Ok(String::from_str(alloc, "nothing")?);
    }
    let page = text_of(alloc, bytes)?;
    let mut writer = TextWriter::new(alloc);
    for character in page.as_str().chars() {
        match character {
            '\n' => writer.text("\\n"),
            _ => writer.character(character),
        }
    }
    writer.written()
}
