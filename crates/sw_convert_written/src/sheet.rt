// Writing whole sheets.
ghost use Rattle.std.specs.Prelude.{◌≡◌, ◌++◌, ◌==◌, map, OnOk, IfOk};
ghost use Rattle.sw_text.specs.Places.{mark_length};
ghost use Rattle.sw_convert_written.specs.Statements.{statement_shown, optional_by, include, shown_optional, passed_of, top_text, marked, sheet_text};
ghost use Rattle.sw_convert_written.specs.Heads.{at_rule_head};

use crate::statement::put_statement;
use std::alloc::Global;
use sw_text::{List, Memory};
use sw_tree::{Sheet, Statement};

/// The text of a sheet in SCSS.
pub fn scss_text(alloc: Global, sheet: &Sheet) -> Result<List<u8>, Memory>
    ensures { IfOk result (λ text. text ≡ sheet_text sheet.now) }
{
    let mut out = Vec::new(alloc);
    put_top(&mut out, sheet.statements.as_slice())?;
    put_mark(alloc, out)
}

/// Whether a statement has a block.
#[tactic(auto, using(crate::proofs::UnrolledStatements::variable_flat, crate::proofs::UnrolledStatements::assignment_flat, crate::proofs::UnrolledStatements::declaration_flat, crate::proofs::UnrolledStatements::custom_flat, crate::proofs::UnrolledStatements::use_flat, crate::proofs::UnrolledStatements::forward_flat, crate::proofs::UnrolledStatements::content_flat, crate::proofs::UnrolledStatements::return_flat, crate::proofs::UnrolledStatements::say_flat, crate::proofs::UnrolledStatements::import_flat, crate::proofs::UnrolledStatements::extend_flat, crate::proofs::UnrolledStatements::charset_flat, crate::proofs::UnrolledStatements::comment_flat, crate::proofs::UnrolledStatements::callable_nests, crate::proofs::UnrolledStatements::at_root_nests, crate::proofs::UnrolledStatements::each_nests, crate::proofs::UnrolledStatements::for_nests, crate::proofs::UnrolledStatements::media_nests, crate::proofs::UnrolledStatements::properties_nests, crate::proofs::UnrolledStatements::rule_nests, crate::proofs::UnrolledStatements::supports_nests, crate::proofs::UnrolledStatements::while_nests, crate::proofs::UnrolledStatements::at_rule_block, crate::proofs::UnrolledStatements::include_block, crate::proofs::UnrolledStatements::if_nests))]
pub fn has_block(statement: &Statement) -> bool
    ensures { result ≡ (statement_shown statement.now).block }
{
    match statement {
        Statement::Variable(_) => false,
        Statement::Assignment(_) => false,
        Statement::Declaration(_) => false,
        Statement::Properties(_) => true,
        Statement::Custom(_) => false,
        Statement::Rule(_) => true,
        Statement::Use(_) => false,
        Statement::Forward(_) => false,
        Statement::Callable(_) => true,
        Statement::Include { content, .. } => match content {
            None => false,
            Some(_) => true,
        },
        Statement::Content(_) => false,
        Statement::Return(_) => false,
        Statement::Say(_) => false,
        Statement::If { .. } => true,
        Statement::Each(_) => true,
        Statement::For(_) => true,
        Statement::While(_) => true,
        Statement::Media(_) => true,
        Statement::Supports(_) => true,
        Statement::AtRoot(_) => true,
        Statement::Charset(_) => false,
        Statement::Import(_) => false,
        Statement::Extend(_) => false,
        Statement::AtRule(rule) => match &rule.block {
            None => false,
            Some(_) => true,
        },
        Statement::Comment(_) => false,
    }
}

#[tactic(auto, using(crate::proofs::Tops::top_last, crate::proofs::Tops::top_more))]
fn put_top(out: &mut Vec<u8>, statements: &[Statement]) -> Result<(), Memory>
    ensures { OnOk result (out.new.items ≡ out.old.items ++ top_text (map statement_shown statements.now)) }
{
    'statements: for i in 0..statements.len() {
        put_statement(out, 0, &statements[i])?;
        if i + 1 < statements.len() && has_block(&statements[i]) && has_block(&statements[i + 1]) {
            out.push(b'\n')?;
        }
    }
    Ok(())
}

fn begins_marked(text: &[u8]) -> bool
    ensures { result ≡ (mark_length text.now == 3) }
{
    match text {
        [a, b, c, ..] => *a == 239 && (*b == 187 && *c == 191),
        _ => false,
    }
}

/// A text as the text of a sheet: a sheet's first byte order mark is no part of it, so a text that begins with one gets
/// another.
pub fn put_mark(alloc: Global, text: Vec<u8>) -> Result<List<u8>, Memory>
    ensures { IfOk result (λ whole. whole ≡ marked text.items) }
{
    if !begins_marked(text.as_slice()) {
        return Ok(List::from_vec(text));
    }
    let mut out = Vec::new(alloc);
    out.push(239)?;
    out.push(187)?;
    out.push(191)?;
    out.extend_from_slice(text.as_slice())?;
    Ok(List::from_vec(out))
}
