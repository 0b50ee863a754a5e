// Writing heads, lines and blocks into one buffer.
ghost use Rattle.std.specs.Prelude.{◌≡◌, ◌++◌, drop, OnOk};
ghost use Rattle.sw_css_print.specs.Page.{indent, head, import_text, line_text, lines_text, begun, ended, shared};

use sw_css_tree::{Line, Wrapper};
use sw_text::{Memory, Name};

/// Two spaces for each at-rule or rule around. `Memory` exactly where none was found.
pub fn put_indent(out: &mut Vec<u8>, depth: usize) -> Result<(), Memory>
    ensures { OnOk result (out.new.items ≡ out.old.items ++ indent depth) }
{
    for _at in 0..depth {
        out.extend_from_slice(b"  ")?;
    }
    Ok(())
}

/// The head of an at-rule: `@name`, and a space and the prelude unless that is empty.
/// After `Memory`, which comes exactly where none was found, `out` may hold a part.
pub fn put_head(out: &mut Vec<u8>, name: &Name, prelude: &Name) -> Result<(), Memory>
    ensures { OnOk result (out.new.items ≡ out.old.items ++ head name.now prelude.now) }
{
    out.extend_from_slice(b"@")?;
    out.extend_from_slice(name.as_str().as_bytes())?;
    if !prelude.as_str().is_empty() {
        out.extend_from_slice(b" ")?;
        out.extend_from_slice(prelude.as_str().as_bytes())?;
    }
    Ok(())
}

/// A plain import on a line, not indented: `@import`, what stands behind it, and `;`.
/// After `Memory`, which comes exactly where none was found, `out` may hold a part.
pub fn put_import(out: &mut Vec<u8>, text: &Name) -> Result<(), Memory>
    ensures { OnOk result (out.new.items ≡ out.old.items ++ import_text text.now) }
{
    out.extend_from_slice(b"@import ")?;
    out.extend_from_slice(text.as_str().as_bytes())?;
    out.extend_from_slice(b";\n")?;
    Ok(())
}

fn put_line(out: &mut Vec<u8>, line: &Line) -> Result<(), Memory>
    ensures { OnOk result (out.new.items ≡ out.old.items ++ line_text line.now) }
{
    match line {
        Line::Declaration { property, value } => {
            out.extend_from_slice(property.as_str().as_bytes())?;
            out.extend_from_slice(b": ")?;
            out.extend_from_slice(value.as_str().as_bytes())?;
            out.extend_from_slice(b";\n")?;
            Ok(())
        }
        Line::Comment { text } => {
            out.extend_from_slice(text.as_str().as_bytes())?;
            out.extend_from_slice(b"\n")?;
            Ok(())
        }
        Line::At { name, prelude } => {
            put_head(out, name, prelude)?;
            out.extend_from_slice(b";\n")?;
            Ok(())
        }
        Line::Import { text } => put_import(out, text),
    }
}

/// Lines in their order, each indented by two spaces for each level of `depth`.
/// After `Memory`, which comes exactly where none was found, `out` may hold a part.
pub fn put_lines(out: &mut Vec<u8>, depth: usize, lines: &[Line]) -> Result<(), Memory>
    ensures { OnOk result (out.new.items ≡ out.old.items ++ lines_text depth lines.now) }
{
    for line in lines {
        put_indent(out, depth)?;
        put_line(out, line)?;
    }
    Ok(())
}

/// The at-rules from this depth on begin, the outermost first: each is an indented line that ends with `{`.
/// After `Memory`, which comes exactly where none was found, `out` may hold a part.
pub fn put_begun(out: &mut Vec<u8>, depth: usize, wrappers: &[Wrapper]) -> Result<(), Memory>
    ensures { OnOk result (out.new.items ≡ out.old.items ++ begun depth (drop depth wrappers.now)) }
{
    for at in depth..wrappers.len() {
        put_indent(out, at)?;
        put_head(out, &wrappers[at].name, &wrappers[at].prelude)?;
        out.extend_from_slice(b" {\n")?;
    }
    Ok(())
}

/// The at-rules from depth `low` up to `high`, which isn't among them, end, the innermost first: each with a `}` line.
/// After `Memory`, which comes exactly where none was found, `out` may hold a part.
pub fn put_ended(out: &mut Vec<u8>, low: usize, high: usize) -> Result<(), Memory>
    ensures { OnOk result (out.new.items ≡ out.old.items ++ ended low high) }
{
    let mut depth = high;
    while depth > low {
        depth -= 1;
        put_indent(out, depth)?;
        out.extend_from_slice(b"}\n")?;
    }
    Ok(())
}

/// How many at-rules lead both; two are the same where their numbers are.
pub fn shared(one: &[Wrapper], other: &[Wrapper]) -> usize
    ensures { result ≡ shared one.now other.now }
{
    let mut count = 0;
    while count < one.len() && count < other.len() && one[count].number == other[count].number {
        count += 1;
    }
    count
}
