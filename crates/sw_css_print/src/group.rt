// Writing the blocks of one output in groups, one for each top-level statement.
ghost use Rattle.std.specs.Prelude.{◌≡◌, ◌++◌, ◌<◌, ◌≤◌, [], ◌∷◌, Some, map, filter, length, take, drop, IfOk, OnOk, MatchResult};
ghost use Rattle.sw_css_tree.specs.Output.{is_written};
ghost use Rattle.sw_css_print.specs.Page.{blocks_text, filled, is_entered, is_one_comment, is_comment, group_of, grouped, group_len, run_len, page, gap};
ghost use Rattle.sw_css_print.specs.Parts.{opens_of, shuts_of};

use crate::block::{around, put_block};
use crate::line::{put_ended, shared};
use std::alloc::Global;
use sw_css_tree::{Block, Line, Wrapper};
use sw_text::Memory;

/// Puts the groups of these blocks, with blank lines between them, and tells whether the last one is a comment.
pub fn put_groups(out: &mut Vec<u8>, blocks: &[&Block]) -> Result<bool, Memory>
    ensures bytes { OnOk result (out.new.items
        ≡ out.old.items ++ page (map group_of (grouped (map (λ b. b.now) blocks.now)))) }
    ensures shuts { IfOk result (λ shuts. shuts ≡ shuts_of (map group_of (grouped (map (λ b. b.now) blocks.now)))) }
{
    let mut last = None;
    let mut start = 0;
    while start < blocks.len() {
        let rest = &blocks[start..];
        let len = group_len(rest);
        let comment = put_group(out, last, &rest[..len])?;
        last = Some(comment);
        start += len;
    }
    Ok(last.unwrap_or(false))
}

// Puts one group behind others, and tells whether it is a comment.
fn put_group(out: &mut Vec<u8>, last: Option<bool>, group: &[&Block]) -> Result<bool, Memory>
    ensures bytes { OnOk result (out.new.items
        ≡ out.old.items ++ (gap last (is_comment (map (λ b. b.now) group.now))
        ++ blocks_text [] (map (λ b. b.now) group.now))) }
    ensures comment { IfOk result (λ comment. comment ≡ is_comment (map (λ b. b.now) group.now)) }
{
    let comment = is_comment(group);
    put_gap(out, last, comment)?;
    put_blocks(out, group)?;
    Ok(comment)
}

/// Whether the first group of these blocks is a comment.
pub fn first_is_comment(blocks: &[&Block]) -> bool
    ensures { result ≡ opens_of (map group_of (grouped (map (λ b. b.now) blocks.now))) }
{
    if blocks.is_empty() {
        return false;
    }
    is_comment(&blocks[..group_len(blocks)])
}

// How many blocks the first group has.
fn group_len(blocks: &[&Block]) -> usize
    ensures len { result ≡ group_len (map (λ b. b.now) blocks.now) }
    ensures within { result ≤ length blocks.now }
{
    match blocks {
        [] => 0,
        [first, others @ ..] => 1 + run_len(first.statement, others),
    }
}

// How many blocks are of this statement, up to the first that isn't.
fn run_len(statement: usize, blocks: &[&Block]) -> usize
    ensures len { result ≡ run_len statement (map (λ b. b.now) blocks.now) }
    ensures within { result ≤ length blocks.now }
{
    let mut len = 0;
    while len < blocks.len() && statement == blocks[len].statement {
        len += 1;
    }
    len
}

/// Puts a blank line between two groups that aren't both comments.
pub fn put_gap(out: &mut Vec<u8>, last: Option<bool>, next: bool) -> Result<(), Memory>
    ensures { OnOk result (out.new.items ≡ out.old.items ++ gap last next) }
{
    if let Some(comment) = last {
        if !(comment && next) {
            out.extend_from_slice(b"\n")?;
        }
    }
    Ok(())
}

// One comment at the top level and nothing else.
fn is_comment(blocks: &[&Block]) -> bool
    ensures { result ≡ is_comment (map (λ b. b.now) blocks.now) }
{
    match blocks {
        [block] => {
            block.wrappers.get().as_slice().is_empty()
                && (is_one_comment(block.lines.as_slice()) && block.selector.is_none())
        }
        _ => false,
    }
}

fn is_one_comment(lines: &[Line]) -> bool
    ensures { result ≡ is_one_comment lines.now }
{
    match lines {
        [Line::Comment { .. }] => true,
        _ => false,
    }
}

/// Puts blocks, of which the at-rules that neighbours share are written once.
pub fn put_blocks(out: &mut Vec<u8>, blocks: &[&Block]) -> Result<(), Memory>
    ensures { OnOk result (out.new.items ≡ out.old.items ++ blocks_text [] (map (λ b. b.now) blocks.now)) }
{
    let mut before: &[Wrapper] = &[];
    for block in blocks {
        put_block(out, before, block)?;
        before = around(block);
    }
    put_ended(out, 0, before.len())
}

/// The blocks that are written, without the own ones of at-rules that hold something.
pub fn kept<'a>(alloc: Global, blocks: &'a [Block]) -> Result<Vec<&'a Block>, Memory>
    ensures { IfOk result (λ kept. map (λ b. b.now) kept.items ≡ filled (filter is_written blocks.now)) }
{
    let written = written(alloc, blocks)?;
    filled(alloc, written.as_slice())
}

fn written<'a>(alloc: Global, blocks: &'a [Block]) -> Result<Vec<&'a Block>, Memory>
    ensures { IfOk result (λ kept. map (λ b. b.now) kept.items ≡ filter is_written blocks.now) }
{
    let mut kept = Vec::new(alloc);
    for block in blocks {
        if block.is_written() {
            kept.push(block)?;
        }
    }
    Ok(kept)
}

fn filled<'a>(alloc: Global, blocks: &[&'a Block]) -> Result<Vec<&'a Block>, Memory>
    ensures { IfOk result (λ kept. map (λ b. b.now) kept.items ≡ filled (map (λ b. b.now) blocks.now)) }
{
    let mut kept = Vec::new(alloc);
    for at in 0..blocks.len() {
        if blocks[at].lines.as_slice().is_empty() && is_entered(blocks[at], &blocks[at + 1..]) {
            continue;
        }
        kept.push(blocks[at])?;
    }
    Ok(kept)
}

// The next block stands in the at-rule that this one is the own block of.
fn is_entered(block: &Block, rest: &[&Block]) -> bool
    ensures { result ≡ is_entered block.now (map (λ b. b.now) rest.now) }
{
    match rest.first() {
        None => false,
        Some(next) => {
            let wrappers = block.wrappers.get().as_slice();
            block.statement == next.statement
                && wrappers.len() <= shared(wrappers, next.wrappers.get().as_slice())
        }
    }
}
