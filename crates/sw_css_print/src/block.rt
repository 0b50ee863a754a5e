// Writing one block within the at-rules that are open.
ghost use Rattle.std.specs.Prelude.{◌≡◌, ◌++◌, ◌-◌, drop, length, codes, OnOk, ◌<◌, ◌^◌};
ghost use Rattle.sw_css_print.specs.Page.{around, body, empties, rule_text, block_text};

use crate::line::{put_begun, put_ended, put_head, put_indent, put_lines, shared};
use sw_css_tree::{Block, Line, Wrapper};
use sw_text::{Memory, Name};

/// The at-rules that are open where a block is written: all round it, but not the innermost where it has no lines, for
/// that one is written as one line with `{}`.
pub fn around(block: &Block) -> &[Wrapper]
    ensures { result.now ≡ around block.now }
{
    let wrappers = block.wrappers.get().as_slice();
    if !block.lines.as_slice().is_empty() {
        return wrappers;
    }
    &wrappers[..wrappers.len().saturating_sub(1)]
}

fn put_empties(out: &mut Vec<u8>, depth: usize, wrappers: &[Wrapper]) -> Result<(), Memory>
    ensures { OnOk result (out.new.items ≡ out.old.items ++ empties depth (drop depth wrappers.now)) }
{
    for at in depth..wrappers.len() {
        put_indent(out, at)?;
        put_head(out, &wrappers[at].name, &wrappers[at].prelude)?;
        out.extend_from_slice(b" {}\n")?;
    }
    Ok(())
}

fn put_rule(out: &mut Vec<u8>, depth: usize, selector: &Name, lines: &[Line]) -> Result<(), Memory>
    requires { depth < 2 ^ 63 }
    ensures { OnOk result (out.new.items ≡ out.old.items ++ rule_text depth selector.now lines.now) }
{
    put_indent(out, depth)?;
    out.extend_from_slice(selector.as_str().as_bytes())?;
    out.extend_from_slice(b" {\n")?;
    put_lines(out, depth + 1, lines)?;
    put_indent(out, depth)?;
    out.extend_from_slice(b"}\n")?;
    Ok(())
}

fn put_body(out: &mut Vec<u8>, block: &Block) -> Result<(), Memory>
    ensures { OnOk result (out.new.items ≡ out.old.items ++ body block.now) }
{
    let wrappers = block.wrappers.get().as_slice();
    let lines = block.lines.as_slice();
    if lines.is_empty() {
        return put_empties(out, wrappers.len().saturating_sub(1), wrappers);
    }
    match &block.selector {
        None => put_lines(out, wrappers.len(), lines),
        Some(selector) => put_rule(out, wrappers.len(), selector, lines),
    }
}

/// Puts a block where these at-rules are open: those that it stands outside of end, and those around it begin.
pub fn put_block(out: &mut Vec<u8>, before: &[Wrapper], block: &Block) -> Result<(), Memory>
    ensures { OnOk result (out.new.items ≡ out.old.items ++ block_text before.now block.now) }
{
    let around = around(block);
    let both = shared(before, around);
    put_ended(out, both, before.len())?;
    put_begun(out, both, around)?;
    put_body(out, block)
}
