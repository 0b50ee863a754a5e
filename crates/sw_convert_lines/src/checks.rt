// Whether lines can hold a statement.
ghost use Rattle.std.specs.Prelude.{◌≡◌, map, Some, true, false, OnOk, IfOk, IfErr};
ghost use Rattle.sw_convert_lines.specs.Layout.{has_none, is_held_block, are_held};
ghost use Rattle.sw_convert_lines.specs.Lines.{IsFault, branch_word, condition_of, condition_block, else_block, blocks_of, optional_lines, in_lines};

use crate::ConvertFault;
use crate::held::is_held;
use std::alloc::Global;
use sw_convert_written::{put, put_expr};
use sw_text::{List, Memory, Span};
use sw_tree::{Branch, Statement};

/// Refuses the statement that stands there, unless lines can hold it.
pub fn check(span: &Span, held: bool) -> Result<(), ConvertFault>
    ensures held { OnOk result (held ≡ true) }
    ensures fault { IfErr result (λ fault. (held ≡ false) × IsFault (Some span.now) fault) }
{
    if held {
        return Ok(());
    }
    Err(ConvertFault::NotIndentable(span.share()?))
}

/// Whether a block has no statements.
pub fn has_none(block: &[Statement]) -> bool
    ensures { result ≡ has_none (map in_lines block.now) }
{
    match block {
        [] => true,
        [_, ..] => false,
    }
}

/// Whether there are no conditions.
pub fn are_none(branches: &[Branch]) -> bool
    ensures { result ≡ has_none (map condition_of branches.now) }
{
    match branches {
        [] => true,
        [_, ..] => false,
    }
}

/// The word before a condition.
pub fn branch_word(first: bool) -> &'static [u8]
    ensures { result.now ≡ branch_word first }
{
    if first { b"@if " } else { b"@else if " }
}

// Whether lines can hold a condition with its block.
fn is_held_condition(alloc: Global, first: bool, branch: &Branch) -> Result<bool, Memory>
    ensures { IfOk result (λ held. held ≡ is_held_block (condition_block first (condition_of branch.now))) }
{
    let mut head = Vec::new(alloc);
    put(&mut head, branch_word(first))?;
    put_expr(&mut head, &branch.condition)?;
    Ok(is_held(alloc, false, head.as_slice())? && !has_none(branch.block.as_slice()))
}

fn is_held_else(alloc: Global, otherwise: &Option<List<Statement>>) -> Result<bool, Memory>
    ensures { IfOk result (λ held. held ≡ are_held (else_block (optional_lines otherwise.now))) }
{
    match otherwise {
        None => Ok(true),
        Some(block) => Ok(is_held(alloc, false, b"@else")? && !has_none(block.as_slice())),
    }
}

/// Whether lines can hold all conditions with their blocks, and an `@else`.
pub fn are_held(
    alloc: Global,
    branches: &[Branch],
    otherwise: &Option<List<Statement>>,
) -> Result<bool, Memory>
    ensures { IfOk result (λ held. held
        ≡ are_held (blocks_of true (map condition_of branches.now) (optional_lines otherwise.now))) }
{
    let mut first = true;
    'branches: for branch in branches {
        if !is_held_condition(alloc, first, branch)? {
            return Ok(false);
        }
        first = false;
    }
    is_held_else(alloc, otherwise)
}
