// The blocks that a line opens and closes.
ghost use Rattle.std.specs.Prelude.{◌≡◌, ◌+◌, ◌-◌, ◌<◌, ◌≤◌, ◌^◌, ◌++◌, [], ◌∷◌, length, IfOk};
ghost use Rattle.sw_parse_layout.specs.Laid.{sign_at, refused_at};
ghost use Rattle.sw_parse_layout.specs.Blocks.{top_depth, shut_blocks, due_sign, indent_at, class_of, is_mixed, indent_after, entered, line_laid, line_blocks};

use crate::laid::{Laid, joined, refused_at, sign_at};
use crate::lines::Margin;
use std::alloc::Global;
use sw_text::{List, Memory};
use sw_text_scan::{Class, byte_at, run_end, signs};
use sw_tokens::{Token, TokenKind};

/// What a sheet's lines are indented with.
#[derive(Clone, Copy, Debug, PartialEq, Eq)]
pub enum Indent {
    Spaces,
    Tabs,
}

/// What the lines so far opened.
#[derive(Debug, Drop)]
pub struct Blocks {
    /// The depths of the open blocks, the innermost last.
    pub depths: List<usize>,
    /// The sheet's indentation, once a line has one.
    pub indent: Option<Indent>,
    /// No line yet.
    pub first: bool,
    /// The line before is a statement that isn't ended yet.
    pub due: bool,
}

/// The signs that close blocks, and the blocks that stay open.
#[derive(Debug, Drop)]
pub struct Shut {
    pub tokens: List<Token>,
    pub depths: List<usize>,
}

/// The signs that a line of some depth brings, the blocks that are open in it, and whether its depth is refused.
#[derive(Debug, Drop)]
pub struct Entry {
    pub tokens: List<Token>,
    pub depths: List<usize>,
    pub wrong: bool,
}

#[tactic(auto, unfolding(crate::specs::Blocks::top_depth))]
fn top_depth(depths: &[usize]) -> usize
    ensures { result ≡ top_depth depths.now }
{
    if depths.is_empty() {
        return 0;
    }
    match depths.get(depths.len() - 1) {
        None => 0,
        Some(depth) => *depth,
    }
}

/// The deeper blocks are closed, the innermost first.
#[tactic(auto, using(crate::proofs::Shutting::shut_step, crate::proofs::Shutting::shut_done, crate::proofs::Shutting::shut_spent), unfolding(crate::specs::Blocks::shut_blocks))]
pub(crate) fn shut_blocks(
    alloc: Global,
    end: u32,
    depth: usize,
    mut depths: List<usize>,
) -> Result<Shut, Memory>
    ensures { IfOk result (λ shut_ones. shut_ones ≡ shut_blocks end depth depths) }
{
    let mut tokens = List::new(alloc);
    let count = depths.len();
    'shutting: for _block in 0..count {
        if !(depth < top_depth(depths.as_slice())) {
            return Ok(Shut { tokens, depths });
        }
        tokens.push(sign_at(TokenKind::CloseBrace, end))?;
        depths.truncate(depths.len().saturating_sub(1));
    }
    Ok(Shut { tokens, depths })
}

/// A `;`, if one is due.
pub(crate) fn due_sign(alloc: Global, due: bool, end: u32) -> Result<List<Token>, Memory>
    ensures { IfOk result (λ tokens. tokens ≡ due_sign due end) }
{
    let mut tokens = List::new(alloc);
    if due {
        tokens.push(sign_at(TokenKind::Semicolon, end))?;
    }
    Ok(tokens)
}

fn indent_at(indent: Option<Indent>, byte: u16) -> Indent
    ensures { result ≡ indent_at indent byte }
{
    match indent {
        Some(indent) => indent,
        None => if byte == signs::TAB {
            Indent::Tabs
        } else {
            Indent::Spaces
        },
    }
}

fn class_of(indent: Indent) -> Class
    ensures { result ≡ class_of indent }
{
    match indent {
        Indent::Tabs => Class::Tab,
        Indent::Spaces => Class::Space,
    }
}

#[tactic(auto, unfolding(crate::specs::Blocks::is_mixed))]
fn is_mixed(bytes: &[u8], indent: Option<Indent>, start: usize, at: usize) -> bool
    requires { start ≤ length bytes.now }
    ensures { result ≡ is_mixed bytes.now indent start at }
{
    let class = class_of(indent_at(indent, byte_at(bytes, start)));
    run_end(bytes, class, start) < at
}

#[tactic(auto, unfolding(crate::specs::Blocks::indent_after))]
fn indent_after(bytes: &[u8], indent: Option<Indent>, start: usize, at: usize) -> Option<Indent>
    ensures { result ≡ indent_after bytes.now indent start at }
{
    if start == at {
        return indent;
    }
    Some(indent_at(indent, byte_at(bytes, start)))
}

/// What a line of some depth brings, whose text begins at a place.
#[tactic(auto, unfolding(crate::specs::Blocks::entered))]
fn entered(alloc: Global, blocks: Blocks, end: u32, depth: usize, at: u32) -> Result<Entry, Memory>
    ensures { IfOk result (λ entry. entry ≡ entered blocks end depth at) }
{
    let Blocks {
        mut depths,
        first,
        due,
        ..
    } = blocks;
    if first {
        return Ok(Entry {
            tokens: List::new(alloc),
            depths,
            wrong: 0 < depth,
        });
    }
    if top_depth(depths.as_slice()) < depth {
        let mut tokens = List::new(alloc);
        tokens.push(sign_at(TokenKind::OpenBrace, at))?;
        depths.push(depth)?;
        return Ok(Entry {
            tokens,
            depths,
            wrong: false,
        });
    }
    let tokens = due_sign(alloc, due, end)?;
    let closed = shut_blocks(alloc, end, depth, depths)?;
    let wrong = top_depth(closed.depths.as_slice()) != depth;
    Ok(Entry {
        tokens: joined(tokens, closed.tokens)?,
        depths: closed.depths,
        wrong,
    })
}

/// What a line lays before its own tokens, and the blocks that are open in it.
#[derive(Debug, Drop)]
pub struct Begun {
    pub laid: Laid,
    pub blocks: Blocks,
}

/// What a line brings, behind a line whose last token ends at `end`.
#[tactic(auto, unfolding(crate::specs::Blocks::line_laid, crate::specs::Blocks::line_blocks))]
pub(crate) fn line_begun(
    alloc: Global,
    bytes: &[u8],
    blocks: Blocks,
    end: u32,
    line: Margin,
    due: bool,
) -> Result<Begun, Memory>
    requires short { length bytes.now < 2 ^ 32 }
    requires order { line.start ≤ line.text }
    requires within { line.text ≤ length bytes.now }
    ensures laid { IfOk result (λ begun. begun.laid ≡ line_laid bytes.now blocks end line.start line.text) }
    ensures blocks { IfOk result (λ begun. begun.blocks ≡ line_blocks bytes.now blocks end line.start line.text due) }
{
    let mixed = is_mixed(bytes, blocks.indent, line.start, line.text);
    let indent = indent_after(bytes, blocks.indent, line.start, line.text);
    let entry = entered(alloc, blocks, end, line.text - line.start, line.text as u32)?;
    let refused = refused_at(entry.wrong || mixed, line.text as u32);
    Ok(Begun {
        laid: Laid {
            tokens: entry.tokens,
            refused,
        },
        blocks: Blocks {
            depths: entry.depths,
            indent,
            first: false,
            due,
        },
    })
}
