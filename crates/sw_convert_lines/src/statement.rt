// Writing statements with their blocks in lines. All of it is one circle of calls over the tree.
ghost use Rattle.std.specs.Prelude.{◌≡◌, ◌++◌, ◌+◌, ◌≤◌, length, drop, map, None, OnOk, IfErr, codes, true};
ghost use Rattle.sw_convert_lines.specs.Layout.{line_behind, inner_text, block_text, first_refused, line, blocked};
ghost use Rattle.sw_convert_written.specs.Expressions.{expr_text};
ghost use Rattle.sw_convert_written.specs.Heads.{include_text, using_params};
ghost use Rattle.sw_convert_written.specs.Statements.{branch_indent};
ghost use Rattle.sw_convert_lines.specs.RawTexts.{selector_line};
ghost use Rattle.sw_convert_lines.specs.Lines.{IsFault, head_of, selector_head, at_rule_line, branch_word, conditions_text, refused_conditions, else_text, condition_of, include, optional_by, optional_lines, passed_of, in_lines};

use crate::ConvertFault;
use crate::checks::{are_held, are_none, check, has_none};
use crate::heads::{
    deeper, end_line, put_at_root_line, put_at_rule_line, put_branch_head, put_branch_indent,
    put_charset_line, put_comment, put_custom_line, put_include_head, put_include_line,
    put_line_end, put_selector_head,
};
use crate::held::is_held;
use crate::lines::Lines;
use crate::texts::put_line;
use sw_convert_written::{
    put, put_assignment, put_callable_head, put_content, put_declaration, put_each_head,
    put_for_head, put_forward, put_indent, put_media_head, put_properties_head, put_return,
    put_say, put_use, put_variable, put_while_head,
};
use sw_text::{List, Shared, Span};
use sw_tree::{AtRule, Branch, Content, Mixin, Rule, Statement};

/// Puts a statement behind the indent of its first line, unless lines can't hold it.
#[cycle(write)]
#[tactic(auto, using(crate::proofs::Joins::appends, crate::proofs::Joins::nothing_more, crate::proofs::UnrolledStatements::variable_in_text, crate::proofs::UnrolledStatements::variable_in_refused, crate::proofs::UnrolledStatements::assignment_in_text, crate::proofs::UnrolledStatements::assignment_in_refused, crate::proofs::UnrolledStatements::declaration_in_text, crate::proofs::UnrolledStatements::declaration_in_refused, crate::proofs::UnrolledStatements::custom_in_text, crate::proofs::UnrolledStatements::custom_in_refused, crate::proofs::UnrolledStatements::use_in_text, crate::proofs::UnrolledStatements::use_in_refused, crate::proofs::UnrolledStatements::forward_in_text, crate::proofs::UnrolledStatements::forward_in_refused, crate::proofs::UnrolledStatements::content_in_text, crate::proofs::UnrolledStatements::content_in_refused, crate::proofs::UnrolledStatements::return_in_text, crate::proofs::UnrolledStatements::return_in_refused, crate::proofs::UnrolledStatements::say_in_text, crate::proofs::UnrolledStatements::say_in_refused, crate::proofs::UnrolledStatements::import_in_text, crate::proofs::UnrolledStatements::import_in_refused, crate::proofs::UnrolledStatements::extend_in_text, crate::proofs::UnrolledStatements::extend_in_refused, crate::proofs::UnrolledStatements::charset_in_text, crate::proofs::UnrolledStatements::charset_in_refused, crate::proofs::UnrolledStatements::comment_in_text, crate::proofs::UnrolledStatements::comment_in_refused, crate::proofs::UnrolledStatements::callable_in_text, crate::proofs::UnrolledStatements::callable_in_refused, crate::proofs::UnrolledStatements::at_root_in_text, crate::proofs::UnrolledStatements::at_root_in_refused, crate::proofs::UnrolledStatements::each_in_text, crate::proofs::UnrolledStatements::each_in_refused, crate::proofs::UnrolledStatements::for_in_text, crate::proofs::UnrolledStatements::for_in_refused, crate::proofs::UnrolledStatements::media_in_text, crate::proofs::UnrolledStatements::media_in_refused, crate::proofs::UnrolledStatements::properties_in_text, crate::proofs::UnrolledStatements::properties_in_refused, crate::proofs::UnrolledStatements::rule_in_text, crate::proofs::UnrolledStatements::rule_in_refused, crate::proofs::UnrolledStatements::supports_in_text, crate::proofs::UnrolledStatements::supports_in_refused, crate::proofs::UnrolledStatements::while_in_text, crate::proofs::UnrolledStatements::while_in_refused, crate::proofs::UnrolledStatements::at_rule_in_text, crate::proofs::UnrolledStatements::at_rule_in_refused, crate::proofs::UnrolledStatements::include_in_text, crate::proofs::UnrolledStatements::include_in_refused, crate::proofs::UnrolledStatements::if_in_text, crate::proofs::UnrolledStatements::if_in_refused))]
pub fn put_statement(
    lines: &mut Lines,
    level: usize,
    statement: &Statement,
) -> Result<(), ConvertFault>
    ensures text { OnOk result (lines.new.bytes.items
        ≡ lines.old.bytes.items ++ (in_lines statement.now).text level) }
    ensures held { OnOk result ((in_lines statement.now).refused ≡ None) }
    ensures fault { IfErr result (IsFault (in_lines statement.now).refused) }
{
    let from = lines.bytes.len();
    match statement {
        Statement::Variable(x) => {
            put_variable(&mut lines.bytes, x, b"")?;
            end_line(lines, from, &x.span)
        }
        Statement::Assignment(x) => {
            put_assignment(&mut lines.bytes, x, b"")?;
            end_line(lines, from, &x.span)
        }
        Statement::Declaration(x) => {
            put_declaration(&mut lines.bytes, x, b"")?;
            end_line(lines, from, &x.span)
        }
        Statement::Properties(x) => {
            put_properties_head(&mut lines.bytes, x)?;
            put_block(lines, level, from, &x.span, x.block.as_slice())
        }
        Statement::Custom(x) => put_custom_line(lines, x),
        Statement::Rule(x) => put_rule(lines, level, x),
        Statement::Use(x) => {
            put_use(&mut lines.bytes, x, b"")?;
            end_line(lines, from, &x.span)
        }
        Statement::Forward(x) => {
            put_forward(&mut lines.bytes, x, b"")?;
            end_line(lines, from, &x.span)
        }
        Statement::Callable(x) => {
            put_callable_head(&mut lines.bytes, x.get())?;
            put_block(lines, level, from, &x.get().span, x.get().block.as_slice())
        }
        Statement::Include {
            mixin,
            content,
            span,
        } => put_included(lines, level, span, mixin, content),
        Statement::Content(x) => {
            put_content(&mut lines.bytes, x, b"")?;
            end_line(lines, from, &x.span)
        }
        Statement::Return(x) => {
            put_return(&mut lines.bytes, &x.value, b"")?;
            end_line(lines, from, &x.span)
        }
        Statement::Say(x) => {
            put_say(&mut lines.bytes, x, b"")?;
            end_line(lines, from, &x.span)
        }
        Statement::If {
            branches,
            otherwise,
            span,
        } => {
            let held = are_held(lines.alloc, branches.as_slice(), otherwise)?;
            check(span, held)?;
            put_conditions(lines, level, branches.as_slice())?;
            match otherwise {
                None => Ok(()),
                Some(block) => {
                    put_else(
                        lines,
                        level,
                        are_none(branches.as_slice()),
                        block.as_slice(),
                    )
                }
            }
        }
        Statement::Each(x) => {
            put_each_head(&mut lines.bytes, x)?;
            put_block(lines, level, from, &x.span, x.block.as_slice())
        }
        Statement::For(x) => {
            put_for_head(&mut lines.bytes, x)?;
            put_block(lines, level, from, &x.span, x.block.as_slice())
        }
        Statement::While(x) => {
            put_while_head(&mut lines.bytes, &x.condition)?;
            put_block(lines, level, from, &x.span, x.block.as_slice())
        }
        Statement::Media(x) => {
            put_media_head(&mut lines.bytes, &x.queries)?;
            put_block(lines, level, from, &x.span, x.block.as_slice())
        }
        Statement::Supports(x) => {
            put(&mut lines.bytes, b"@supports ")?;
            put_line(&mut lines.bytes, &x.condition)?;
            put_block(lines, level, from, &x.span, x.block.as_slice())
        }
        Statement::AtRoot(x) => {
            put_at_root_line(&mut lines.bytes, &x.selector)?;
            put_block(lines, level, from, &x.span, x.block.as_slice())
        }
        Statement::Charset(span) => put_charset_line(lines, span),
        Statement::Import(x) => {
            put(&mut lines.bytes, b"@import ")?;
            put_line(&mut lines.bytes, &x.text)?;
            end_line(lines, from, &x.span)
        }
        Statement::Extend(x) => {
            put(&mut lines.bytes, b"@extend ")?;
            put_line(&mut lines.bytes, &x.text)?;
            end_line(lines, from, &x.span)
        }
        Statement::AtRule(x) => put_at_rule(lines, level, x),
        Statement::Comment(x) => put_comment(lines, level, x),
    }
}

// A block behind its head, which was written from a place on.
#[cycle(write)]
#[tactic(auto, using(crate::proofs::Joins::appends))]
fn put_block(
    lines: &mut Lines,
    level: usize,
    from: usize,
    span: &Span,
    block: &[Statement],
) -> Result<(), ConvertFault>
    requires { from ≤ length lines.old.bytes.items }
    ensures text { OnOk result (lines.new.bytes.items ≡ lines.old.bytes.items
        ++ (line_behind (drop from lines.old.bytes.items) ++ inner_text (level + 1) (map in_lines block.now))) }
    ensures held { OnOk result ((blocked span.now
        (record { head = head_of (drop from lines.old.bytes.items); inner = map in_lines block.now })).refused ≡ None) }
    ensures fault { IfErr result (IsFault (blocked span.now
        (record { head = head_of (drop from lines.old.bytes.items); inner = map in_lines block.now })).refused) }
{
    let held = is_held(lines.alloc, false, &lines.bytes[from..])? && !has_none(block);
    check(span, held)?;
    put_line_end(&mut lines.bytes, from)?;
    put_inner(lines, level, block)
}

// The statements of a block, in so many blocks around it, behind the line of its head.
#[cycle(write)]
#[tactic(auto, using(crate::proofs::Joins::appends))]
fn put_inner(lines: &mut Lines, level: usize, block: &[Statement]) -> Result<(), ConvertFault>
    ensures text { OnOk result (lines.new.bytes.items
        ≡ lines.old.bytes.items ++ inner_text (level + 1) (map in_lines block.now)) }
    ensures held { OnOk result (first_refused (map in_lines block.now) ≡ None) }
    ensures fault { IfErr result (IsFault (first_refused (map in_lines block.now))) }
{
    let inner = deeper(level)?;
    'statements: for statement in block {
        put_indent(&mut lines.bytes, inner)?;
        put_statement(lines, inner, statement)?;
    }
    Ok(())
}

#[cycle(write)]
#[tactic(auto, using(crate::proofs::Joins::appends, crate::proofs::Rules::rule_held, crate::proofs::Rules::rule_refused))]
fn put_rule(lines: &mut Lines, level: usize, rule: &Rule) -> Result<(), ConvertFault>
    ensures text { OnOk result (lines.new.bytes.items ≡ lines.old.bytes.items
        ++ block_text level (selector_line rule.now.selector) (map in_lines rule.now.block)) }
    ensures held { OnOk result ((blocked rule.now.span
        (record { head = selector_head rule.now.selector; inner = map in_lines rule.now.block })).refused ≡ None) }
    ensures fault { IfErr result (IsFault (blocked rule.now.span
        (record { head = selector_head rule.now.selector; inner = map in_lines rule.now.block })).refused) }
{
    let from = lines.bytes.len();
    put_selector_head(lines, &rule.span, &rule.selector)?;
    put_block(lines, level, from, &rule.span, rule.block.as_slice())
}

#[cycle(write)]
fn put_included(
    lines: &mut Lines,
    level: usize,
    span: &Span,
    mixin: &Mixin,
    content: &Option<Shared<Content>>,
) -> Result<(), ConvertFault>
    ensures text { OnOk result (lines.new.bytes.items
        ≡ lines.old.bytes.items ++ (include span.now mixin.now (passed_of content.now)).text level) }
    ensures held { OnOk result ((include span.now mixin.now (passed_of content.now)).refused ≡ None) }
    ensures fault { IfErr result (IsFault (include span.now mixin.now (passed_of content.now)).refused) }
{
    match content {
        None => put_include_line(lines, span, mixin),
        Some(content) => put_content_block(lines, level, span, mixin, content.get()),
    }
}

// An include with its content block.
#[cycle(write)]
#[tactic(auto, using(crate::proofs::Joins::appends))]
fn put_content_block(
    lines: &mut Lines,
    level: usize,
    span: &Span,
    mixin: &Mixin,
    content: &Content,
) -> Result<(), ConvertFault>
    ensures text { OnOk result (lines.new.bytes.items ≡ lines.old.bytes.items
        ++ block_text level (using_params content.now.params (include_text mixin.now)) (map in_lines content.now.block)) }
    ensures held { OnOk result ((blocked span.now (record {
      head = head_of (using_params content.now.params (include_text mixin.now));
      inner = map in_lines content.now.block;
    })).refused ≡ None) }
    ensures fault { IfErr result (IsFault (blocked span.now (record {
      head = head_of (using_params content.now.params (include_text mixin.now));
      inner = map in_lines content.now.block;
    })).refused) }
{
    let from = lines.bytes.len();
    put_include_head(&mut lines.bytes, mixin, &content.params)?;
    put_block(lines, level, from, span, content.block.as_slice())
}

#[cycle(write)]
#[tactic(auto, using(crate::proofs::Joins::appends))]
fn put_at_rule(lines: &mut Lines, level: usize, rule: &AtRule) -> Result<(), ConvertFault>
    ensures text { OnOk result (lines.new.bytes.items ≡ lines.old.bytes.items
        ++ (optional_by rule.now.span (head_of (at_rule_line rule.now.name rule.now.prelude)) (optional_lines rule.now.block)).text level) }
    ensures held { OnOk result
        ((optional_by rule.now.span (head_of (at_rule_line rule.now.name rule.now.prelude)) (optional_lines rule.now.block)).refused ≡ None) }
    ensures fault { IfErr result (IsFault
        (optional_by rule.now.span (head_of (at_rule_line rule.now.name rule.now.prelude)) (optional_lines rule.now.block)).refused) }
{
    let from = lines.bytes.len();
    put_at_rule_line(&mut lines.bytes, rule)?;
    match &rule.block {
        None => end_line(lines, from, &rule.span),
        Some(block) => put_block(lines, level, from, &rule.span, block.as_slice()),
    }
}

// Conditions with their blocks, each on lines of its own.
#[cycle(write)]
fn put_conditions(lines: &mut Lines, level: usize, branches: &[Branch]) -> Result<(), ConvertFault>
    ensures text { OnOk result (lines.new.bytes.items
        ≡ lines.old.bytes.items ++ conditions_text level true (map condition_of branches.now)) }
    ensures held { OnOk result (refused_conditions (map condition_of branches.now) ≡ None) }
    ensures fault { IfErr result (IsFault (refused_conditions (map condition_of branches.now))) }
{
    let mut first = true;
    'branches: for branch in branches {
        put_condition(lines, level, first, branch)?;
        first = false;
    }
    Ok(())
}

#[cycle(write)]
#[tactic(auto, using(crate::proofs::Joins::appends))]
fn put_condition(
    lines: &mut Lines,
    level: usize,
    first: bool,
    branch: &Branch,
) -> Result<(), ConvertFault>
    ensures text { OnOk result (lines.new.bytes.items ≡ lines.old.bytes.items ++ (branch_indent level first
        ++ block_text level (branch_word first ++ expr_text branch.now.condition) (map in_lines branch.now.block))) }
    ensures held { OnOk result (first_refused (map in_lines branch.now.block) ≡ None) }
    ensures fault { IfErr result (IsFault (first_refused (map in_lines branch.now.block))) }
{
    put_branch_indent(lines, level, first)?;
    let from = lines.bytes.len();
    put_branch_head(lines, first, &branch.condition)?;
    put_line_end(&mut lines.bytes, from)?;
    put_inner(lines, level, branch.block.as_slice())
}

// An `@else` with its block.
#[cycle(write)]
#[tactic(auto, using(crate::proofs::Joins::appends))]
fn put_else(
    lines: &mut Lines,
    level: usize,
    first: bool,
    block: &[Statement],
) -> Result<(), ConvertFault>
    ensures text { OnOk result (lines.new.bytes.items
        ≡ lines.old.bytes.items ++ else_text level first (map in_lines block.now)) }
    ensures held { OnOk result (first_refused (map in_lines block.now) ≡ None) }
    ensures fault { IfErr result (IsFault (first_refused (map in_lines block.now))) }
{
    put_branch_indent(lines, level, first)?;
    let from = lines.bytes.len();
    put(&mut lines.bytes, b"@else")?;
    put_line_end(&mut lines.bytes, from)?;
    put_inner(lines, level, block)
}
