// Writing statements with their blocks. All of it is one circle of calls over the tree.
ghost use Rattle.std.specs.Prelude.{◌≡◌, ◌++◌, ◌+◌, ◌≤◌, length, drop, map, OnOk, IfOk, codes, true};
ghost use Rattle.sw_convert_written.specs.Statements.{indent, behind_head, inner_text, optional_by, include, branch_word, branch_indent, branches_text, else_text, statement_shown, shown_optional, passed_of, branch_shown};
ghost use Rattle.sw_convert_written.specs.Heads.{at_rule_head};

use crate::bytes::put;
use crate::escapes::put_space;
use crate::expr::put_expr;
use crate::heads::{
    put_assignment, put_at_root_head, put_at_rule_head, put_charset, put_comment, put_custom,
    put_declaration, put_each_head, put_extend, put_for_head, put_import, put_media_head,
    put_properties_head, put_return, put_say, put_supports_head, put_variable, put_while_head,
};
use crate::members::{
    put_callable_head, put_content, put_forward, put_include, put_use, put_using,
};
use crate::rules::put_selector;
use sw_text::{Memory, Shared};
use sw_tree::{AtRule, Branch, Content, Mixin, Statement};

/// Puts two spaces for each block around.
pub fn put_indent(out: &mut Vec<u8>, level: usize) -> Result<(), Memory>
    ensures { OnOk result (out.new.items ≡ out.old.items ++ indent level) }
{
    'levels: for _at in 0..level {
        put(out, b"  ")?;
    }
    Ok(())
}

fn branch_word(first: bool) -> &'static [u8]
    ensures { result.now ≡ branch_word first }
{
    if first { b"@if " } else { b"@else if " }
}

fn put_branch_indent(out: &mut Vec<u8>, level: usize, first: bool) -> Result<(), Memory>
    ensures { OnOk result (out.new.items ≡ out.old.items ++ branch_indent level first) }
{
    if first {
        return Ok(());
    }
    put_indent(out, level)
}

// A level more. No memory holds a tree with so many.
fn deeper(level: usize) -> Result<usize, Memory>
    ensures { IfOk result (λ inner. inner ≡ level + 1) }
{
    match level.checked_add(1) {
        Some(inner) => Ok(inner),
        None => Err(Memory),
    }
}

/// Puts a statement behind the indent of its first line.
#[cycle(write)]
#[tactic(auto, using(crate::proofs::Joins::appends, crate::proofs::UnrolledStatements::variable_line, crate::proofs::UnrolledStatements::assignment_line, crate::proofs::UnrolledStatements::declaration_line, crate::proofs::UnrolledStatements::custom_line, crate::proofs::UnrolledStatements::use_line, crate::proofs::UnrolledStatements::forward_line, crate::proofs::UnrolledStatements::content_line, crate::proofs::UnrolledStatements::return_line, crate::proofs::UnrolledStatements::say_line, crate::proofs::UnrolledStatements::import_line, crate::proofs::UnrolledStatements::extend_line, crate::proofs::UnrolledStatements::charset_line, crate::proofs::UnrolledStatements::comment_line, crate::proofs::UnrolledStatements::at_rule_lines, crate::proofs::UnrolledStatements::include_lines, crate::proofs::UnrolledStatements::if_lines))]
pub fn put_statement(out: &mut Vec<u8>, level: usize, statement: &Statement) -> Result<(), Memory>
    ensures { OnOk result (out.new.items ≡ out.old.items ++ (statement_shown statement.now).text level) }
{
    let from = out.len();
    match statement {
        Statement::Variable(x) => put_variable(out, x, b";\n"),
        Statement::Assignment(x) => put_assignment(out, x, b";\n"),
        Statement::Declaration(x) => put_declaration(out, x, b";\n"),
        Statement::Properties(x) => {
            put_properties_head(out, x)?;
            put_block(out, level, from, x.block.as_slice())
        }
        Statement::Custom(x) => put_custom(out, x, b";\n"),
        Statement::Rule(x) => {
            put_selector(out, &x.selector)?;
            put_block(out, level, from, x.block.as_slice())
        }
        Statement::Use(x) => put_use(out, x, b";\n"),
        Statement::Forward(x) => put_forward(out, x, b";\n"),
        Statement::Callable(x) => {
            put_callable_head(out, x.get())?;
            put_block(out, level, from, x.get().block.as_slice())
        }
        Statement::Include { mixin, content, .. } => put_included(out, level, mixin, content),
        Statement::Content(x) => put_content(out, x, b";\n"),
        Statement::Return(x) => put_return(out, &x.value, b";\n"),
        Statement::Say(x) => put_say(out, x, b";\n"),
        Statement::If {
            branches,
            otherwise,
            ..
        } => {
            put_branches(out, level, branches.as_slice())?;
            match otherwise {
                None => Ok(()),
                Some(block) => put_else(out, level, block.as_slice()),
            }
        }
        Statement::Each(x) => {
            put_each_head(out, x)?;
            put_block(out, level, from, x.block.as_slice())
        }
        Statement::For(x) => {
            put_for_head(out, x)?;
            put_block(out, level, from, x.block.as_slice())
        }
        Statement::While(x) => {
            put_while_head(out, &x.condition)?;
            put_block(out, level, from, x.block.as_slice())
        }
        Statement::Media(x) => {
            put_media_head(out, &x.queries)?;
            put_block(out, level, from, x.block.as_slice())
        }
        Statement::Supports(x) => {
            put_supports_head(out, &x.condition)?;
            put_block(out, level, from, x.block.as_slice())
        }
        Statement::AtRoot(x) => {
            put_at_root_head(out, &x.selector)?;
            put_block(out, level, from, x.block.as_slice())
        }
        Statement::Charset(_) => put_charset(out, b";\n"),
        Statement::Import(x) => put_import(out, &x.text, b";\n"),
        Statement::Extend(x) => put_extend(out, &x.text, b";\n"),
        Statement::AtRule(x) => put_at_rule(out, level, x),
        Statement::Comment(x) => put_comment(out, x),
    }
}

// A block behind its head, which was written from a place on.
#[cycle(write)]
#[tactic(auto, using(crate::proofs::Joins::appends))]
fn put_block(
    out: &mut Vec<u8>,
    level: usize,
    from: usize,
    block: &[Statement],
) -> Result<(), Memory>
    requires { from ≤ length out.old.items }
    ensures { OnOk result (out.new.items
        ≡ out.old.items ++ behind_head level (drop from out.old.items) (map statement_shown block.now)) }
{
    put_space(out, from)?;
    put(out, b"{\n")?;
    put_inner(out, deeper(level)?, block)?;
    put_indent(out, level)?;
    put(out, b"}\n")
}

#[cycle(write)]
fn put_inner(out: &mut Vec<u8>, level: usize, block: &[Statement]) -> Result<(), Memory>
    ensures { OnOk result (out.new.items ≡ out.old.items ++ inner_text level (map statement_shown block.now)) }
{
    'statements: for statement in block {
        put_indent(out, level)?;
        put_statement(out, level, statement)?;
    }
    Ok(())
}

#[cycle(write)]
#[tactic(auto, using(crate::proofs::Joins::appends))]
fn put_included(
    out: &mut Vec<u8>,
    level: usize,
    mixin: &Mixin,
    content: &Option<Shared<Content>>,
) -> Result<(), Memory>
    ensures { OnOk result (out.new.items ≡ out.old.items ++ (include mixin.now (passed_of content.now)).text level) }
{
    let from = out.len();
    put_include(out, mixin)?;
    match content {
        None => put(out, b";\n"),
        Some(content) => {
            put_using(out, from, &content.get().params)?;
            put_block(out, level, from, content.get().block.as_slice())
        }
    }
}

#[cycle(write)]
#[tactic(auto, using(crate::proofs::Joins::appends))]
fn put_at_rule(out: &mut Vec<u8>, level: usize, rule: &AtRule) -> Result<(), Memory>
    ensures { OnOk result (out.new.items
        ≡ out.old.items ++ (optional_by (at_rule_head rule.now.name rule.now.prelude) (shown_optional rule.now.block)).text level) }
{
    let from = out.len();
    put_at_rule_head(out, rule)?;
    match &rule.block {
        None => put(out, b";\n"),
        Some(block) => put_block(out, level, from, block.as_slice()),
    }
}

#[cycle(write)]
#[tactic(auto, using(crate::proofs::Joins::appends))]
fn put_branches(out: &mut Vec<u8>, level: usize, branches: &[Branch]) -> Result<(), Memory>
    ensures { OnOk result (out.new.items
        ≡ out.old.items ++ branches_text level true (map branch_shown branches.now)) }
{
    let mut first = true;
    'branches: for branch in branches {
        put_branch_indent(out, level, first)?;
        let from = out.len();
        put(out, branch_word(first))?;
        put_expr(out, &branch.condition)?;
        put_block(out, level, from, branch.block.as_slice())?;
        first = false;
    }
    Ok(())
}

#[cycle(write)]
#[tactic(auto, using(crate::proofs::Joins::appends))]
fn put_else(out: &mut Vec<u8>, level: usize, block: &[Statement]) -> Result<(), Memory>
    ensures { OnOk result (out.new.items ≡ out.old.items ++ else_text level (map statement_shown block.now)) }
{
    put_indent(out, level)?;
    let from = out.len();
    put(out, b"@else")?;
    put_block(out, level, from, block)
}
