// Writing statements up to their end or their first block: texts, variables, declarations and flow.
ghost use Rattle.std.specs.Prelude.{◌≡◌, ◌++◌, ◌≤◌, length, drop, map, OnOk, codes, true};
ghost use Rattle.sw_convert_written.specs.Heads.{plain_text, raw_text, queries_text, spaced_raw, spaced_value, word_behind, flag_behind, variable_text, assignment_text, declaration_text, custom_text, properties_head, say_word, say_text, each_head, end_word, for_head, at_root_head, prelude_behind, at_rule_head};
ghost use Rattle.sw_convert_written.specs.Names.{dollar_name};
ghost use Rattle.sw_convert_written.specs.Expressions.{with_commas, expr_text};

use crate::Manner;
use crate::bytes::put;
use crate::commas::put_comma;
use crate::escapes::{put_break, put_space};
use crate::expr::{put_expr, put_parts, put_qualified};
use crate::names::put_dollar_name;
use sw_text::{Memory, Name};
use sw_tree::{
    Assignment, AtRule, Bounds, Custom, Declaration, Each, Expr, For, Level, Properties, Say, Text,
    Variable,
};

/// Puts the text of a name or a comment.
pub fn put_plain(out: &mut Vec<u8>, text: &Text) -> Result<(), Memory>
    ensures { OnOk result (out.new.items ≡ out.old.items ++ plain_text text.now) }
{
    put_parts(out, &text.parts, Manner::Joined)
}

/// Puts raw text.
#[tactic(auto, using(crate::proofs::Joins::appends))]
pub fn put_raw(out: &mut Vec<u8>, text: &Text) -> Result<(), Memory>
    ensures { OnOk result (out.new.items ≡ out.old.items ++ raw_text text.now) }
{
    let from = out.len();
    put_parts(out, &text.parts, Manner::Seamed)?;
    put_break(out, from)
}

/// Puts a space and raw text, where there is any.
pub fn put_spaced_raw(out: &mut Vec<u8>, text: &Option<Text>) -> Result<(), Memory>
    ensures { OnOk result (out.new.items ≡ out.old.items ++ spaced_raw text.now) }
{
    match text {
        None => Ok(()),
        Some(text) => {
            out.push(b' ')?;
            put_raw(out, text)
        }
    }
}

fn put_spaced_value(out: &mut Vec<u8>, value: &Option<Expr>) -> Result<(), Memory>
    ensures { OnOk result (out.new.items ≡ out.old.items ++ spaced_value value.now) }
{
    match value {
        None => Ok(()),
        Some(value) => {
            out.push(b' ')?;
            put_expr(out, value)
        }
    }
}

/// Puts a word behind what was written from a place on.
pub fn put_word(out: &mut Vec<u8>, from: usize, word: &[u8]) -> Result<(), Memory>
    requires { from ≤ length out.old.items }
    ensures { OnOk result (out.new.items ≡ out.old.items ++ word_behind word.now (drop from out.old.items)) }
{
    put_space(out, from)?;
    out.extend_from_slice(word)?;
    Ok(())
}

/// Puts a flag behind what was written from a place on, where it's written.
pub fn put_flag(out: &mut Vec<u8>, from: usize, written: bool, flag: &[u8]) -> Result<(), Memory>
    requires { from ≤ length out.old.items }
    ensures { OnOk result (out.new.items ≡ out.old.items ++ flag_behind written flag.now (drop from out.old.items)) }
{
    if written {
        put_word(out, from, flag)?;
    }
    Ok(())
}

/// Puts a declaration of a variable.
#[tactic(auto, using(crate::proofs::Joins::appends))]
pub fn put_variable(out: &mut Vec<u8>, variable: &Variable, end: &[u8]) -> Result<(), Memory>
    ensures { OnOk result (out.new.items ≡ out.old.items ++ (variable_text variable.now ++ end.now)) }
{
    let from = out.len();
    put_dollar_name(out, &variable.name)?;
    out.extend_from_slice(b": ")?;
    put_expr(out, &variable.value)?;
    put_flag(out, from, variable.flags.default, b"!default")?;
    put_flag(out, from, variable.flags.global, b"!global")?;
    put(out, end)
}

/// Puts an assignment to a variable of another module.
#[tactic(auto, using(crate::proofs::Joins::appends))]
pub fn put_assignment(out: &mut Vec<u8>, assignment: &Assignment, end: &[u8]) -> Result<(), Memory>
    ensures { OnOk result (out.new.items ≡ out.old.items ++ (assignment_text assignment.now ++ end.now)) }
{
    let from = out.len();
    put_qualified(out, &assignment.target)?;
    out.extend_from_slice(b": ")?;
    put_expr(out, &assignment.value)?;
    put_flag(out, from, assignment.flags.default, b"!default")?;
    put_flag(out, from, assignment.flags.global, b"!global")?;
    put(out, end)
}

/// Puts a declaration of a property.
pub fn put_declaration(
    out: &mut Vec<u8>,
    declaration: &Declaration,
    end: &[u8],
) -> Result<(), Memory>
    ensures { OnOk result (out.new.items ≡ out.old.items ++ (declaration_text declaration.now ++ end.now)) }
{
    put_plain(out, &declaration.property)?;
    out.extend_from_slice(b": ")?;
    put_expr(out, &declaration.value)?;
    put(out, end)
}

/// Puts a custom property.
pub fn put_custom(out: &mut Vec<u8>, custom: &Custom, end: &[u8]) -> Result<(), Memory>
    ensures { OnOk result (out.new.items ≡ out.old.items ++ (custom_text custom.now ++ end.now)) }
{
    put_plain(out, &custom.property)?;
    out.push(b':')?;
    put_spaced_raw(out, &custom.value)?;
    put(out, end)
}

/// Puts what stands before the block of nested properties.
pub fn put_properties_head(out: &mut Vec<u8>, properties: &Properties) -> Result<(), Memory>
    ensures { OnOk result (out.new.items
        ≡ out.old.items ++ properties_head properties.now.property properties.now.value) }
{
    put_plain(out, &properties.property)?;
    out.push(b':')?;
    put_spaced_value(out, &properties.value)
}

fn say_word(level: Level) -> &'static [u8]
    ensures { result.now ≡ say_word level }
{
    match level {
        Level::Warn => b"@warn ",
        Level::Debug => b"@debug ",
        Level::Error => b"@error ",
    }
}

/// Puts a `@warn`, a `@debug` or an `@error`.
pub fn put_say(out: &mut Vec<u8>, say: &Say, end: &[u8]) -> Result<(), Memory>
    ensures { OnOk result (out.new.items ≡ out.old.items ++ (say_text say.now ++ end.now)) }
{
    out.extend_from_slice(say_word(say.level))?;
    put_expr(out, &say.value)?;
    put(out, end)
}

fn put_dollar_names(out: &mut Vec<u8>, names: &[Name]) -> Result<(), Memory>
    ensures { OnOk result (out.new.items ≡ out.old.items ++ with_commas true (map dollar_name names.now)) }
{
    let mut first = true;
    'names: for name in names {
        put_comma(out, first)?;
        put_dollar_name(out, name)?;
        first = false;
    }
    Ok(())
}

/// Puts what stands before the block of an `@each`.
#[tactic(auto, using(crate::proofs::Joins::appends))]
pub fn put_each_head(out: &mut Vec<u8>, each: &Each) -> Result<(), Memory>
    ensures { OnOk result (out.new.items ≡ out.old.items ++ each_head each.now.names each.now.value) }
{
    let from = out.len();
    out.extend_from_slice(b"@each ")?;
    put_dollar_names(out, each.names.as_slice())?;
    put_word(out, from, b"in ")?;
    put_expr(out, &each.value)
}

fn end_word(through: bool) -> &'static [u8]
    ensures { result.now ≡ end_word through }
{
    if through { b"through " } else { b"to " }
}

#[tactic(auto, using(crate::proofs::Joins::appends))]
fn put_bounds(out: &mut Vec<u8>, name: &Name, bounds: &Bounds) -> Result<(), Memory>
    ensures { OnOk result (out.new.items ≡ out.old.items ++ for_head name.now bounds.now) }
{
    let from = out.len();
    out.extend_from_slice(b"@for ")?;
    put_dollar_name(out, name)?;
    put_word(out, from, b"from ")?;
    put_expr(out, &bounds.from)?;
    put_word(out, from, end_word(bounds.through))?;
    put_expr(out, &bounds.to)
}

/// Puts what stands before the block of a `@for`.
pub fn put_for_head(out: &mut Vec<u8>, count: &For) -> Result<(), Memory>
    ensures { OnOk result (out.new.items ≡ out.old.items ++ for_head count.now.name count.now.bounds) }
{
    put_bounds(out, &count.name, count.bounds.get())
}

/// Puts what stands before the block of an `@at-root`.
pub fn put_at_root_head(out: &mut Vec<u8>, selector: &Option<Text>) -> Result<(), Memory>
    ensures { OnOk result (out.new.items ≡ out.old.items ++ at_root_head selector.now) }
{
    out.extend_from_slice(b"@at-root")?;
    put_spaced_raw(out, selector)
}

// What stands behind the name of an at-rule, which was written from a place on.
fn put_prelude(out: &mut Vec<u8>, from: usize, prelude: &Option<Text>) -> Result<(), Memory>
    requires { from ≤ length out.old.items }
    ensures { OnOk result (out.new.items ≡ out.old.items ++ prelude_behind prelude.now (drop from out.old.items)) }
{
    match prelude {
        None => Ok(()),
        Some(prelude) => {
            put_space(out, from)?;
            put_raw(out, prelude)
        }
    }
}

/// Puts an at-rule up to its end or its block.
#[tactic(auto, using(crate::proofs::Joins::appends))]
pub fn put_at_rule_head(out: &mut Vec<u8>, rule: &AtRule) -> Result<(), Memory>
    ensures { OnOk result (out.new.items ≡ out.old.items ++ at_rule_head rule.now.name rule.now.prelude) }
{
    let from = out.len();
    put_plain(out, &rule.name)?;
    put_prelude(out, from, &rule.prelude)
}

/// Puts a `@return`.
pub fn put_return(out: &mut Vec<u8>, value: &Expr, end: &[u8]) -> Result<(), Memory>
    ensures { OnOk result (out.new.items ≡ out.old.items ++ ((codes "@return " ++ expr_text value.now) ++ end.now)) }
{
    out.extend_from_slice(b"@return ")?;
    put_expr(out, value)?;
    put(out, end)
}

/// Puts an `@import`.
pub fn put_import(out: &mut Vec<u8>, text: &Text, end: &[u8]) -> Result<(), Memory>
    ensures { OnOk result (out.new.items ≡ out.old.items ++ ((codes "@import " ++ raw_text text.now) ++ end.now)) }
{
    out.extend_from_slice(b"@import ")?;
    put_raw(out, text)?;
    put(out, end)
}

/// Puts an `@extend`.
pub fn put_extend(out: &mut Vec<u8>, text: &Text, end: &[u8]) -> Result<(), Memory>
    ensures { OnOk result (out.new.items ≡ out.old.items ++ ((codes "@extend " ++ raw_text text.now) ++ end.now)) }
{
    out.extend_from_slice(b"@extend ")?;
    put_raw(out, text)?;
    put(out, end)
}

#[tactic(auto, using(crate::proofs::Joins::appends))]
fn put_ended(out: &mut Vec<u8>, text: &[u8], end: &[u8]) -> Result<(), Memory>
    ensures { OnOk result (out.new.items ≡ out.old.items ++ (text.now ++ end.now)) }
{
    put(out, text)?;
    put(out, end)
}

/// Puts a `@charset`.
pub fn put_charset(out: &mut Vec<u8>, end: &[u8]) -> Result<(), Memory>
    ensures { OnOk result (out.new.items ≡ out.old.items ++ (codes "@charset \"UTF-8\"" ++ end.now)) }
{
    put_ended(out, b"@charset \"UTF-8\"", end)
}

/// Puts a loud comment.
pub fn put_comment(out: &mut Vec<u8>, text: &Text) -> Result<(), Memory>
    ensures { OnOk result (out.new.items ≡ out.old.items ++ (plain_text text.now ++ codes "\n")) }
{
    put_plain(out, text)?;
    out.push(b'\n')?;
    Ok(())
}

/// Puts what stands before the block of a `@while`.
pub fn put_while_head(out: &mut Vec<u8>, condition: &Expr) -> Result<(), Memory>
    ensures { OnOk result (out.new.items ≡ out.old.items ++ (codes "@while " ++ expr_text condition.now)) }
{
    out.extend_from_slice(b"@while ")?;
    put_expr(out, condition)
}

/// Puts what stands before the block of a `@media`.
pub fn put_media_head(out: &mut Vec<u8>, queries: &Text) -> Result<(), Memory>
    ensures { OnOk result (out.new.items ≡ out.old.items ++ (codes "@media " ++ queries_text queries.now)) }
{
    out.extend_from_slice(b"@media ")?;
    put_parts(out, &queries.parts, Manner::Queried)
}

/// Puts what stands before the block of a `@supports`.
pub fn put_supports_head(out: &mut Vec<u8>, condition: &Text) -> Result<(), Memory>
    ensures { OnOk result (out.new.items ≡ out.old.items ++ (codes "@supports " ++ raw_text condition.now)) }
{
    out.extend_from_slice(b"@supports ")?;
    put_raw(out, condition)
}
