// Writing whole sheets in lines.
ghost use Rattle.std.specs.Prelude.{◌≡◌, ◌++◌, map, None, OnOk, IfOk, IfErr};
ghost use Rattle.sw_convert_written.specs.Statements.{marked};
ghost use Rattle.sw_convert_lines.specs.Layout.{first_refused};
ghost use Rattle.sw_convert_lines.specs.Lines.{IsFault, in_lines, blank_before, top_lines, indented_text, refused_at};

use crate::ConvertFault;
use crate::lines::Lines;
use crate::statement::put_statement;
use std::alloc::Global;
use sw_convert_written::{has_block, put, put_mark};
use sw_text::{List, Memory};
use sw_tree::{Sheet, Statement};

/// The text of a sheet in lines. `NotIndentable` exactly where lines can't hold a statement of it, with the place of the
/// first one in the order of the text.
pub fn indented_text(alloc: Global, sheet: &Sheet) -> Result<List<u8>, ConvertFault>
    ensures text { IfOk result (λ text. text ≡ indented_text sheet.now) }
    ensures held { OnOk result (refused_at sheet.now ≡ None) }
    ensures fault { IfErr result (IsFault (refused_at sheet.now)) }
{
    let mut lines = Lines {
        bytes: Vec::new(alloc),
        alloc,
    };
    put_top(&mut lines, sheet.statements.as_slice())?;
    Ok(put_mark(alloc, lines.bytes)?)
}

// A blank line between two statements that both have a block.
fn put_blank(lines: &mut Lines, statement: &Statement, rest: &[Statement]) -> Result<(), Memory>
    ensures { OnOk result (lines.new.bytes.items
        ≡ lines.old.bytes.items ++ blank_before statement.now rest.now) }
{
    match rest {
        [] => Ok(()),
        [next, ..] => {
            if has_block(statement) && has_block(next) {
                return put(&mut lines.bytes, b"\n");
            }
            Ok(())
        }
    }
}

#[tactic(auto, using(crate::proofs::Tops::top_next, crate::proofs::Tops::refused_next, crate::proofs::Joins::appends))]
fn put_top(lines: &mut Lines, statements: &[Statement]) -> Result<(), ConvertFault>
    ensures text { OnOk result (lines.new.bytes.items
        ≡ lines.old.bytes.items ++ top_lines statements.now) }
    ensures held { OnOk result (first_refused (map in_lines statements.now) ≡ None) }
    ensures fault { IfErr result (IsFault (first_refused (map in_lines statements.now))) }
{
    'statements: for i in 0..statements.len() {
        put_statement(lines, 0, &statements[i])?;
        put_blank(lines, &statements[i], &statements[i + 1..])?;
    }
    Ok(())
}
