// Whether two statements without blocks are equal, with their spans.
ghost use Rattle.std.specs.Prelude.{◌≡◌, IsTrue, ◌↔◌};

use super::expr::{same_arguments, same_expr, same_text};
use super::marks::{same_qualified, same_truth};
use super::part::same_optional_text;
use crate::{
    Assignment, ContentCall, Custom, Declaration, Extend, Flags, Import, Level, Return, Say,
    Variable,
};

fn same_flags(a: Flags, b: Flags) -> bool
    ensures { IsTrue result ↔ (a ≡ b) }
{
    same_truth(a.default, b.default) && same_truth(a.global, b.global)
}

fn same_level(a: Level, b: Level) -> bool
    ensures { IsTrue result ↔ (a ≡ b) }
{
    a == b
}

pub(crate) fn same_variable(a: &Variable, b: &Variable) -> bool
    ensures { IsTrue result ↔ (a.now ≡ b.now) }
{
    a.name.same(&b.name)
        && same_expr(&a.value, &b.value)
        && same_flags(a.flags, b.flags)
        && a.span.same(&b.span)
}

pub(crate) fn same_assignment(a: &Assignment, b: &Assignment) -> bool
    ensures { IsTrue result ↔ (a.now ≡ b.now) }
{
    same_qualified(&a.target, &b.target)
        && a.target_span.same(&b.target_span)
        && same_expr(&a.value, &b.value)
        && same_flags(a.flags, b.flags)
        && a.span.same(&b.span)
}

pub(crate) fn same_declaration(a: &Declaration, b: &Declaration) -> bool
    ensures { IsTrue result ↔ (a.now ≡ b.now) }
{
    same_text(&a.property, &b.property) && same_expr(&a.value, &b.value) && a.span.same(&b.span)
}

pub(crate) fn same_custom(a: &Custom, b: &Custom) -> bool
    ensures { IsTrue result ↔ (a.now ≡ b.now) }
{
    same_text(&a.property, &b.property)
        && same_optional_text(&a.value, &b.value)
        && a.span.same(&b.span)
}

pub(crate) fn same_content_call(a: &ContentCall, b: &ContentCall) -> bool
    ensures { IsTrue result ↔ (a.now ≡ b.now) }
{
    same_arguments(a.arguments.as_slice(), b.arguments.as_slice()) && a.span.same(&b.span)
}

pub(crate) fn same_return(a: &Return, b: &Return) -> bool
    ensures { IsTrue result ↔ (a.now ≡ b.now) }
{
    same_expr(&a.value, &b.value) && a.span.same(&b.span)
}

pub(crate) fn same_say(a: &Say, b: &Say) -> bool
    ensures { IsTrue result ↔ (a.now ≡ b.now) }
{
    same_level(a.level, b.level) && same_expr(&a.value, &b.value) && a.span.same(&b.span)
}

pub(crate) fn same_import(a: &Import, b: &Import) -> bool
    ensures { IsTrue result ↔ (a.now ≡ b.now) }
{
    same_text(&a.text, &b.text) && a.span.same(&b.span)
}

pub(crate) fn same_extend(a: &Extend, b: &Extend) -> bool
    ensures { IsTrue result ↔ (a.now ≡ b.now) }
{
    same_text(&a.text, &b.text) && a.span.same(&b.span)
}
