// The page of several outputs, from their parts.
ghost use Rattle.std.specs.Prelude.{◌≡◌, ◌++◌, List, map, IfOk, OnOk};
ghost use Rattle.std.specs.List.{list_any, flat_map};
ghost use Rattle.sw_css_tree.specs.Output.{Output};
ghost use Rattle.sw_css_print.specs.Page.{gap, charset, print};
ghost use Rattle.sw_css_print.specs.Parts.{print_one, join, body_joined, rests_after, after_imports};

use crate::Printed;
use crate::group::put_gap;
use crate::part::print_one;
use std::alloc::Global;
use sw_css_tree::CssTree;
use sw_text::{Memory, Shared};

/// The bytes of these outputs, in order: the imports of all, then the rest of all.
pub fn print(alloc: Global, trees: &[Shared<CssTree>]) -> Result<Vec<u8>, Memory>
    ensures { IfOk result (λ bytes. bytes.items ≡ print trees.now) }
{
    let parts = parts(alloc, trees)?;
    join(alloc, parts.as_slice())
}

fn parts(alloc: Global, trees: &[Shared<CssTree>]) -> Result<Vec<Shared<Printed>>, Memory>
    ensures { IfOk result (λ parts. parts.items ≡ map print_one trees.now) }
{
    let mut parts = Vec::new(alloc);
    for tree in trees {
        let printed = print_one(alloc, tree.get())?;
        parts.push(Shared::new(alloc, printed)?)?;
    }
    Ok(parts)
}

/// The bytes of the outputs of which these are the parts. Each part is copied once.
pub fn join(alloc: Global, parts: &[Shared<Printed>]) -> Result<Vec<u8>, Memory>
    ensures bytes { IfOk result (λ bytes. bytes.items ≡ join parts.now) }
    ensures page { IfOk result (λ bytes. (trees : List Output) → parts.now ≡ map print_one trees
        → bytes.items ≡ print trees) }
{
    let mut out = Vec::new(alloc);
    out.reserve(size(parts))?;
    put_page(&mut out, parts)?;
    Ok(out)
}

// No less than the bytes of the parts, with a blank line before each.
fn size(parts: &[Shared<Printed>]) -> usize {
    let mut size = 0usize;
    for part in parts {
        let part = part.get();
        size = size
            .saturating_add(part.imports.len())
            .saturating_add(part.rest.len())
            .saturating_add(1);
    }
    size
}

fn put_page(out: &mut Vec<u8>, parts: &[Shared<Printed>]) -> Result<(), Memory>
    ensures { OnOk result (out.new.items ≡ out.old.items ++ join parts.now) }
{
    put_charset(out, is_wide(parts))?;
    put_body(out, parts)
}

fn is_wide(parts: &[Shared<Printed>]) -> bool
    ensures { result ≡ list_any (λ part. part.wide) parts.now }
{
    parts.iter().any(|part| part.get().wide)
}

// Puts the line that names the encoding, where a character past ASCII is written.
fn put_charset(out: &mut Vec<u8>, wide: bool) -> Result<(), Memory>
    ensures { OnOk result (out.new.items ≡ out.old.items ++ charset wide) }
{
    if wide {
        out.extend_from_slice(b"@charset \"UTF-8\";\n")?;
    }
    Ok(())
}

fn put_body(out: &mut Vec<u8>, parts: &[Shared<Printed>]) -> Result<(), Memory>
    ensures { OnOk result (out.new.items ≡ out.old.items ++ body_joined parts.now) }
{
    let before = out.as_slice().len();
    put_imports(out, parts)?;
    let last = after_imports(out.as_slice().len() - before);
    put_rests(out, last, parts)
}

// Imports aren't a comment.
fn after_imports(len: usize) -> Option<bool>
    ensures { result ≡ after_imports len }
{
    if len > 0 { Some(false) } else { None }
}

fn put_imports(out: &mut Vec<u8>, parts: &[Shared<Printed>]) -> Result<(), Memory>
    ensures { OnOk result (out.new.items ≡ out.old.items ++ flat_map (λ part. part.imports) parts.now) }
{
    for part in parts {
        out.extend_from_slice(part.get().imports.as_slice())?;
    }
    Ok(())
}

fn put_rests(out: &mut Vec<u8>, last: Option<bool>, parts: &[Shared<Printed>]) -> Result<(), Memory>
    ensures { OnOk result (out.new.items ≡ out.old.items ++ rests_after last parts.now) }
{
    let mut last = last;
    for part in parts {
        let part = part.get();
        if !part.rest.is_empty() {
            put_gap(out, last, part.opens)?;
            out.extend_from_slice(part.rest.as_slice())?;
            last = Some(part.shuts);
        }
    }
    Ok(())
}
