// What is kept of one output.
ghost use Rattle.std.specs.Prelude.{◌≡◌, ◌++◌, IfOk};
ghost use Rattle.sw_css_print.specs.Page.{imports_text, past_ascii};
ghost use Rattle.sw_css_print.specs.Parts.{print_one};

use crate::group::{first_is_comment, kept, put_groups};
use crate::line::put_import;
use std::alloc::Global;
use sw_css_tree::CssTree;
use sw_text::{List, Memory, Name};

/// The bytes of one output, from which those of several are joined.
#[derive(Debug, Drop)]
pub struct Printed {
    /// The plain imports of the top level.
    pub imports: List<u8>,
    /// All else.
    pub rest: List<u8>,
    /// Whether the first group of the rest is a comment at the top level.
    pub opens: bool,
    /// Whether the last group of the rest is one.
    pub shuts: bool,
    /// Whether a character past ASCII stands in either.
    pub wide: bool,
}

/// The part of one output.
pub fn print_one(alloc: Global, tree: &CssTree) -> Result<Printed, Memory>
    ensures { IfOk result (λ printed. printed ≡ print_one tree.now) }
{
    let imports = imports_text(alloc, tree.imports())?;
    let blocks = kept(alloc, tree.blocks())?;
    let mut rest = Vec::new(alloc);
    let shuts = put_groups(&mut rest, blocks.as_slice())?;
    let opens = first_is_comment(blocks.as_slice());
    let wide = past_ascii(imports.as_slice()) || past_ascii(rest.as_slice());
    Ok(Printed {
        imports: List::from_vec(imports),
        rest: List::from_vec(rest),
        opens,
        shuts,
        wide,
    })
}

fn imports_text(alloc: Global, texts: &[Name]) -> Result<Vec<u8>, Memory>
    ensures { IfOk result (λ bytes. bytes.items ≡ imports_text texts.now) }
{
    let mut out = Vec::new(alloc);
    for text in texts {
        put_import(&mut out, text)?;
    }
    Ok(out)
}

fn past_ascii(bytes: &[u8]) -> bool
    ensures { result ≡ past_ascii bytes.now }
{
    bytes.iter().any(|b| *b >= 128)
}
