// Statements up to their end or to their first block, as far as lines hold them otherwise than SCSS.
ghost use Rattle.std.specs.Prelude.{◌≡◌, ◌++◌, ◌+◌, ◌≤◌, length, drop, None, false, OnOk, IfOk, IfErr, codes};
ghost use Rattle.sw_convert_written.specs.Expressions.{expr_text};
ghost use Rattle.sw_convert_written.specs.Heads.{include_text, using_params};
ghost use Rattle.sw_convert_written.specs.Statements.{branch_indent};
ghost use Rattle.sw_convert_lines.specs.Comments.{comment_lines};
ghost use Rattle.sw_convert_lines.specs.Held.{begins_member};
ghost use Rattle.sw_convert_lines.specs.RawTexts.{selector_line};
ghost use Rattle.sw_convert_lines.specs.Layout.{line, line_behind};
ghost use Rattle.sw_convert_lines.specs.Lines.{IsFault, IsMember, head_of, charset_text, custom_head, comment, at_root_line, prelude_line, at_rule_line, branch_word};

use crate::ConvertFault;
use crate::checks::{branch_word, check};
use crate::comments::put_comment_lines;
use crate::held::{begins_member, breaks_value, is_held};
use crate::lines::Lines;
use crate::texts::{put_line, put_selector_line, put_spaced_line};
use sw_convert_written::{
    ends_unclosed, put, put_apart, put_custom, put_expr, put_include, put_indent, put_plain,
    put_space, put_using,
};
use sw_text::{Memory, Span};
use sw_tree::{AtRule, Custom, Expr, Mixin, Params, Text};

/// A level more. No memory holds a tree with so many.
pub fn deeper(level: usize) -> Result<usize, Memory>
    ensures { IfOk result (λ inner. inner ≡ level + 1) }
{
    match level.checked_add(1) {
        Some(inner) => Ok(inner),
        None => Err(Memory),
    }
}

/// Ends the line of a text that was written from a place on. An escape that is open at its end would take the line break.
pub fn put_line_end(out: &mut Vec<u8>, from: usize) -> Result<(), Memory>
    requires { from ≤ length out.old.items }
    ensures { OnOk result (out.new.items ≡ out.old.items ++ line_behind (drop from out.old.items)) }
{
    if ends_unclosed(&out[from..]) {
        put_apart(out)?;
    }
    put(out, b"\n")
}

/// Ends a statement without a block, which was written from a place on.
pub fn end_line(lines: &mut Lines, from: usize, span: &Span) -> Result<(), ConvertFault>
    requires { from ≤ length lines.old.bytes.items }
    ensures text { OnOk result (lines.new.bytes.items
        ≡ lines.old.bytes.items ++ line_behind (drop from lines.old.bytes.items)) }
    ensures held { OnOk result ((line span.now (head_of (drop from lines.old.bytes.items))).refused ≡ None) }
    ensures fault { IfErr result (IsFault (line span.now (head_of (drop from lines.old.bytes.items))).refused) }
{
    let held = is_held(lines.alloc, false, &lines.bytes[from..])?;
    check(span, held)?;
    put_line_end(&mut lines.bytes, from)?;
    Ok(())
}

/// Puts a custom property.
#[tactic(auto, using(crate::proofs::Joins::appends))]
pub fn put_custom_line(lines: &mut Lines, custom: &Custom) -> Result<(), ConvertFault>
    ensures text { OnOk result (lines.new.bytes.items
        ≡ lines.old.bytes.items ++ ((custom_head custom.now).text ++ line_behind (custom_head custom.now).text)) }
    ensures held { OnOk result ((line custom.now.span (custom_head custom.now)).refused ≡ None) }
    ensures fault { IfErr result (IsFault (line custom.now.span (custom_head custom.now)).refused) }
{
    let from = lines.bytes.len();
    put_custom(&mut lines.bytes, custom, b"")?;
    check(&custom.span, !breaks_value(&custom.value))?;
    let held = is_held(lines.alloc, true, &lines.bytes[from..])?;
    check(&custom.span, held)?;
    put_line_end(&mut lines.bytes, from)?;
    Ok(())
}

/// Puts a loud comment.
#[tactic(auto, using(crate::proofs::Joins::appends))]
pub fn put_comment(lines: &mut Lines, level: usize, text: &Text) -> Result<(), ConvertFault>
    ensures text { OnOk result (lines.new.bytes.items
        ≡ lines.old.bytes.items ++ (comment text.now.span (comment_lines text.now.parts)).text level) }
    ensures held { OnOk result ((comment text.now.span (comment_lines text.now.parts)).refused ≡ None) }
    ensures fault { IfErr result (IsFault (comment text.now.span (comment_lines text.now.parts)).refused) }
{
    let held = put_comment_lines(&mut lines.bytes, level, text)?;
    check(&text.span, held)?;
    put(&mut lines.bytes, b"\n")?;
    Ok(())
}

/// Puts what stands before the block of an `@at-root`.
pub fn put_at_root_line(out: &mut Vec<u8>, selector: &Option<Text>) -> Result<(), Memory>
    ensures { OnOk result (out.new.items ≡ out.old.items ++ at_root_line selector.now) }
{
    put(out, b"@at-root")?;
    put_spaced_line(out, selector)
}

// What stands behind the name of an at-rule, which was written from a place on.
fn put_prelude_line(out: &mut Vec<u8>, from: usize, prelude: &Option<Text>) -> Result<(), Memory>
    requires { from ≤ length out.old.items }
    ensures { OnOk result (out.new.items ≡ out.old.items ++ prelude_line prelude.now (drop from out.old.items)) }
{
    match prelude {
        None => Ok(()),
        Some(prelude) => {
            put_space(out, from)?;
            put_line(out, prelude)
        }
    }
}

/// Puts an at-rule up to its end or its block.
#[tactic(auto, using(crate::proofs::Joins::appends))]
pub fn put_at_rule_line(out: &mut Vec<u8>, rule: &AtRule) -> Result<(), Memory>
    ensures { OnOk result (out.new.items ≡ out.old.items ++ at_rule_line rule.now.name rule.now.prelude) }
{
    let from = out.len();
    put_plain(out, &rule.name)?;
    put_prelude_line(out, from, &rule.prelude)
}

/// Puts the indent of a condition, but not that of the first one.
pub fn put_branch_indent(lines: &mut Lines, level: usize, first: bool) -> Result<(), Memory>
    ensures { OnOk result (lines.new.bytes.items ≡ lines.old.bytes.items ++ branch_indent level first) }
{
    if first {
        return Ok(());
    }
    put_indent(&mut lines.bytes, level)
}

/// Puts an `@if` or an `@else if` with its condition.
#[tactic(auto, using(crate::proofs::Joins::appends))]
pub fn put_branch_head(lines: &mut Lines, first: bool, condition: &Expr) -> Result<(), Memory>
    ensures { OnOk result (lines.new.bytes.items
        ≡ lines.old.bytes.items ++ (branch_word first ++ expr_text condition.now)) }
{
    put(&mut lines.bytes, branch_word(first))?;
    put_expr(&mut lines.bytes, condition)
}

/// Puts an `@include` with the parameters of its content block, where that has any.
#[tactic(auto, using(crate::proofs::Joins::appends))]
pub fn put_include_head(out: &mut Vec<u8>, mixin: &Mixin, params: &Params) -> Result<(), Memory>
    ensures { OnOk result (out.new.items ≡ out.old.items ++ using_params params.now (include_text mixin.now)) }
{
    let from = out.len();
    put_include(out, mixin)?;
    put_using(out, from, params)
}

/// Puts an `@include` without a content block.
#[tactic(auto, using(crate::proofs::Joins::appends))]
pub fn put_include_line(lines: &mut Lines, span: &Span, mixin: &Mixin) -> Result<(), ConvertFault>
    ensures text { OnOk result (lines.new.bytes.items
        ≡ lines.old.bytes.items ++ (include_text mixin.now ++ line_behind (include_text mixin.now))) }
    ensures held { OnOk result ((line span.now (head_of (include_text mixin.now))).refused ≡ None) }
    ensures fault { IfErr result (IsFault (line span.now (head_of (include_text mixin.now))).refused) }
{
    let from = lines.bytes.len();
    put_include(&mut lines.bytes, mixin)?;
    end_line(lines, from, span)
}

// Puts a statement of this text.
#[tactic(auto, using(crate::proofs::Joins::appends))]
fn put_text_line(lines: &mut Lines, text: &[u8], span: &Span) -> Result<(), ConvertFault>
    ensures text { OnOk result (lines.new.bytes.items ≡ lines.old.bytes.items ++ (text.now ++ line_behind text.now)) }
    ensures held { OnOk result ((line span.now (head_of text.now)).refused ≡ None) }
    ensures fault { IfErr result (IsFault (line span.now (head_of text.now)).refused) }
{
    let from = lines.bytes.len();
    put(&mut lines.bytes, text)?;
    end_line(lines, from, span)
}

/// Puts what stands before the block of a rule, unless it begins as a mixin or an include.
#[tactic(auto, using(crate::proofs::Joins::appends))]
pub fn put_selector_head(
    lines: &mut Lines,
    span: &Span,
    selector: &Text,
) -> Result<(), ConvertFault>
    ensures text { OnOk result (lines.new.bytes.items ≡ lines.old.bytes.items ++ selector_line selector.now) }
    ensures held { OnOk result (begins_member (selector_line selector.now) ≡ false) }
    ensures fault { IfErr result (λ fault. IsMember (begins_member (selector_line selector.now)) span.now fault) }
{
    let from = lines.bytes.len();
    put_selector_line(&mut lines.bytes, selector)?;
    check(span, !begins_member(&lines.bytes[from..]))
}

/// Puts a `@charset`.
#[tactic(auto, unfolding(crate::specs::Lines::charset_text))]
pub fn put_charset_line(lines: &mut Lines, span: &Span) -> Result<(), ConvertFault>
    ensures text { OnOk result (lines.new.bytes.items
        ≡ lines.old.bytes.items ++ (charset_text ++ line_behind charset_text)) }
    ensures held { OnOk result ((line span.now (head_of charset_text)).refused ≡ None) }
    ensures fault { IfErr result (IsFault (line span.now (head_of charset_text)).refused) }
{
    put_text_line(lines, b"@charset \"UTF-8\"", span)
}
