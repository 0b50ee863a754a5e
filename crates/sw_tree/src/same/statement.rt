// Whether two statements or blocks are equal, with their spans.
ghost use Rattle.std.specs.Prelude.{◌≡◌, IsTrue, ◌↔◌};

use super::expr::{same_expr, same_text};
use super::load::{same_forward, same_use};
use super::marks::same_names;
use super::part::{same_bounds, same_mixin, same_optional_expr, same_optional_text, same_params};
use super::simple::{
    same_assignment, same_content_call, same_custom, same_declaration, same_extend, same_import,
    same_return, same_say, same_variable,
};
use crate::{AtRule, Branch, Callable, Content, Each, For, Kind, Statement};
use sw_text::Shared;

fn same_kind(a: Kind, b: Kind) -> bool
    ensures { IsTrue result ↔ (a ≡ b) }
{
    a == b
}

#[cycle(same)]
fn same_statement(a: &Statement, b: &Statement) -> bool
    ensures { IsTrue result ↔ (a.now ≡ b.now) }
{
    match (a, b) {
        (Statement::Variable(x), Statement::Variable(y)) => same_variable(x, y),
        (Statement::Assignment(x), Statement::Assignment(y)) => same_assignment(x, y),
        (Statement::Declaration(x), Statement::Declaration(y)) => same_declaration(x, y),
        (Statement::Properties(x), Statement::Properties(y)) => {
            same_text(&x.property, &y.property)
                && same_optional_expr(&x.value, &y.value)
                && x.span.same(&y.span)
                && same_block(x.block.as_slice(), y.block.as_slice())
        }
        (Statement::Custom(x), Statement::Custom(y)) => same_custom(x, y),
        (Statement::Rule(x), Statement::Rule(y)) => {
            same_text(&x.selector, &y.selector)
                && x.span.same(&y.span)
                && same_block(x.block.as_slice(), y.block.as_slice())
        }
        (Statement::Use(x), Statement::Use(y)) => same_use(x, y),
        (Statement::Forward(x), Statement::Forward(y)) => same_forward(x, y),
        (Statement::Callable(x), Statement::Callable(y)) => same_callable(x.get(), y.get()),
        (
            Statement::Include {
                mixin,
                content,
                span,
            },
            Statement::Include {
                mixin: other_mixin,
                content: other_content,
                span: other_span,
            },
        ) => {
            same_mixin(mixin, other_mixin)
                && span.same(other_span)
                && same_content(content, other_content)
        }
        (Statement::Content(x), Statement::Content(y)) => same_content_call(x, y),
        (Statement::Return(x), Statement::Return(y)) => same_return(x, y),
        (Statement::Say(x), Statement::Say(y)) => same_say(x, y),
        (
            Statement::If {
                branches,
                otherwise,
                span,
            },
            Statement::If {
                branches: other_branches,
                otherwise: other_otherwise,
                span: other_span,
            },
        ) => {
            span.same(other_span)
                && same_branches(branches.as_slice(), other_branches.as_slice())
                && match (otherwise, other_otherwise) {
                    (Some(x), Some(y)) => same_block(x.as_slice(), y.as_slice()),
                    (None, None) => true,
                    _ => false,
                }
        }
        (Statement::Each(x), Statement::Each(y)) => same_each(x, y),
        (Statement::For(x), Statement::For(y)) => same_for(x, y),
        (Statement::While(x), Statement::While(y)) => {
            same_expr(&x.condition, &y.condition)
                && x.span.same(&y.span)
                && same_block(x.block.as_slice(), y.block.as_slice())
        }
        (Statement::Media(x), Statement::Media(y)) => {
            same_text(&x.queries, &y.queries)
                && x.span.same(&y.span)
                && same_block(x.block.as_slice(), y.block.as_slice())
        }
        (Statement::Supports(x), Statement::Supports(y)) => {
            same_text(&x.condition, &y.condition)
                && x.span.same(&y.span)
                && same_block(x.block.as_slice(), y.block.as_slice())
        }
        (Statement::AtRoot(x), Statement::AtRoot(y)) => {
            same_optional_text(&x.selector, &y.selector)
                && x.span.same(&y.span)
                && same_block(x.block.as_slice(), y.block.as_slice())
        }
        (Statement::Charset(x), Statement::Charset(y)) => x.same(y),
        (Statement::Import(x), Statement::Import(y)) => same_import(x, y),
        (Statement::Extend(x), Statement::Extend(y)) => same_extend(x, y),
        (Statement::AtRule(x), Statement::AtRule(y)) => same_at_rule(x, y),
        (Statement::Comment(x), Statement::Comment(y)) => same_text(x, y),
        _ => false,
    }
}

#[cycle(same)]
pub(crate) fn same_block(xs: &[Statement], ys: &[Statement]) -> bool
    ensures { IsTrue result ↔ (xs.now ≡ ys.now) }
{
    if xs.len() != ys.len() {
        return false;
    }
    'statements: for i in 0..xs.len() {
        if !same_statement(&xs[i], &ys[i]) {
            return false;
        }
    }
    true
}

#[cycle(same)]
fn same_branches(xs: &[Branch], ys: &[Branch]) -> bool
    ensures { IsTrue result ↔ (xs.now ≡ ys.now) }
{
    if xs.len() != ys.len() {
        return false;
    }
    'branches: for i in 0..xs.len() {
        let x = &xs[i];
        let y = &ys[i];
        if !(same_expr(&x.condition, &y.condition)
            && same_block(x.block.as_slice(), y.block.as_slice()))
        {
            return false;
        }
    }
    true
}

#[cycle(same)]
pub(crate) fn same_callable(a: &Callable, b: &Callable) -> bool
    ensures { IsTrue result ↔ (a.now ≡ b.now) }
{
    same_kind(a.kind, b.kind)
        && a.name.same(&b.name)
        && same_params(&a.params, &b.params)
        && a.span.same(&b.span)
        && same_block(a.block.as_slice(), b.block.as_slice())
}

#[cycle(same)]
fn same_content(a: &Option<Shared<Content>>, b: &Option<Shared<Content>>) -> bool
    ensures { IsTrue result ↔ (a.now ≡ b.now) }
{
    match (a, b) {
        (Some(one), Some(other)) => {
            let x = one.get();
            let y = other.get();
            same_params(&x.params, &y.params) && same_block(x.block.as_slice(), y.block.as_slice())
        }
        (None, None) => true,
        _ => false,
    }
}

#[cycle(same)]
fn same_each(a: &Each, b: &Each) -> bool
    ensures { IsTrue result ↔ (a.now ≡ b.now) }
{
    same_names(a.names.as_slice(), b.names.as_slice())
        && same_expr(&a.value, &b.value)
        && a.span.same(&b.span)
        && same_block(a.block.as_slice(), b.block.as_slice())
}

#[cycle(same)]
fn same_for(a: &For, b: &For) -> bool
    ensures { IsTrue result ↔ (a.now ≡ b.now) }
{
    a.name.same(&b.name)
        && same_bounds(a.bounds.get(), b.bounds.get())
        && a.span.same(&b.span)
        && same_block(a.block.as_slice(), b.block.as_slice())
}

#[cycle(same)]
fn same_at_rule(a: &AtRule, b: &AtRule) -> bool
    ensures { IsTrue result ↔ (a.now ≡ b.now) }
{
    same_text(&a.name, &b.name)
        && same_optional_text(&a.prelude, &b.prelude)
        && a.span.same(&b.span)
        && match (&a.block, &b.block) {
            (Some(x), Some(y)) => same_block(x.as_slice(), y.as_slice()),
            (None, None) => true,
            _ => false,
        }
}
