// How many bytes the texts of an output have: the limit is shared by all its parts.
ghost use Rattle.std.specs.Prelude.{◌≡◌, ◌+◌, ◌<◌, ◌≤◌, [], ◌∷◌, IfOk, MatchResult};
ghost use Rattle.sw_css_tree.specs.Output.{line_size, target_size, most};
ghost use Rattle.sw_css_tree.specs.declared.fault.TreeFault.TheVariants as F;

use crate::{Line, Target, TreeFault};
use std::alloc::Global;
use sw_text::{List, Memory};

const MOST: u32 = 16_777_216;

/// The lines of a block that begins with this one.
pub fn one_line(alloc: Global, line: Line) -> Result<List<Line>, Memory>
    ensures { IfOk result (λ lines. lines ≡ line ∷ []) }
{
    let mut lines = List::new(alloc);
    lines.push(line)?;
    Ok(lines)
}

/// The bytes of a line's texts.
pub fn line_size(line: &Line) -> usize
    ensures { result ≡ line_size line.now }
{
    match line {
        Line::Declaration { property, value } => property.as_str().len() + value.as_str().len(),
        Line::Comment { text } => text.as_str().len(),
        Line::At { name, prelude } => name.as_str().len() + prelude.as_str().len(),
        Line::Import { text } => text.as_str().len(),
    }
}

/// The bytes of the selector that is opened for a line.
pub fn target_size(target: &Target) -> usize
    ensures { result ≡ target_size target.now }
{
    match target {
        Target::New(Some(selector)) => selector.as_str().len(),
        _ => 0,
    }
}

/// The bytes with so many more.
pub fn more(bytes: u32, more: usize) -> Result<u32, TreeFault>
    requires { bytes ≤ most }
    ensures { MatchResult result (λ n. (n ≡ bytes + more) × (n ≤ most))
        (λ fault. (fault ≡ F.TooLarge) × (most < bytes + more)) }
{
    if more > (MOST - bytes) as usize {
        return Err(TreeFault::TooLarge);
    }
    Ok(bytes + more as u32)
}
