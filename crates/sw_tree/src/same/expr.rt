// Whether two expressions or texts are equal, with their spans.
ghost use Rattle.std.specs.Prelude.{◌≡◌, IsTrue, ◌↔◌};

use super::marks::{
    same_around, same_constant, same_name, same_namespace, same_number, same_operator,
    same_qualified, same_separator, same_signs, same_truth,
};
use crate::{Argument, Callee, Expr, ExprKind, Link, Pair, Parts, Piece, Text};

pub(crate) fn same_text(a: &Text, b: &Text) -> bool
    ensures { IsTrue result ↔ (a.now ≡ b.now) }
{
    a.span.same(&b.span) && same_parts(&a.parts, &b.parts)
}

#[cycle(same)]
pub(crate) fn same_expr(a: &Expr, b: &Expr) -> bool
    ensures { IsTrue result ↔ (a.now ≡ b.now) }
{
    a.span.same(&b.span) && same_kind(&a.kind, &b.kind)
}

#[cycle(same)]
fn same_kind(a: &ExprKind, b: &ExprKind) -> bool
    ensures { IsTrue result ↔ (a.now ≡ b.now) }
{
    match (a, b) {
        (ExprKind::Number(x), ExprKind::Number(y)) => same_number(x, y),
        (ExprKind::Quoted(x), ExprKind::Quoted(y)) => same_parts(x, y),
        (ExprKind::Word(x), ExprKind::Word(y)) => same_parts(x, y),
        (ExprKind::Hash(x), ExprKind::Hash(y)) => x.same(y),
        (ExprKind::Constant(x), ExprKind::Constant(y)) => same_constant(*x, *y),
        (ExprKind::Url(x), ExprKind::Url(y)) => same_parts(x, y),
        (ExprKind::Special(x), ExprKind::Special(y)) => same_parts(x, y),
        (ExprKind::Variable(x), ExprKind::Variable(y)) => x.same(y),
        (ExprKind::Qualified(x), ExprKind::Qualified(y)) => same_qualified(x.get(), y.get()),
        (
            ExprKind::Call { callee, arguments },
            ExprKind::Call {
                callee: other,
                arguments: others,
            },
        ) => {
            same_callee(callee.get(), other.get())
                && same_arguments(arguments.as_slice(), others.as_slice())
        }
        (ExprKind::Parent, ExprKind::Parent) => true,
        (ExprKind::Important, ExprKind::Important) => true,
        (
            ExprKind::Prefixed { signs, operand },
            ExprKind::Prefixed {
                signs: others,
                operand: other,
            },
        ) => {
            same_signs(signs.as_slice(), others.as_slice()) && same_expr(operand.get(), other.get())
        }
        (
            ExprKind::Chain { first, rest },
            ExprKind::Chain {
                first: other,
                rest: others,
            },
        ) => same_expr(first.get(), other.get()) && same_links(rest.as_slice(), others.as_slice()),
        (
            ExprKind::List {
                items,
                separator,
                around,
            },
            ExprKind::List {
                items: others,
                separator: other_separator,
                around: other_around,
            },
        ) => {
            same_separator(*separator, *other_separator)
                && same_around(*around, *other_around)
                && same_exprs(items.as_slice(), others.as_slice())
        }
        (ExprKind::Paren(x), ExprKind::Paren(y)) => same_expr(x.get(), y.get()),
        (ExprKind::Map(x), ExprKind::Map(y)) => same_pairs(x.as_slice(), y.as_slice()),
        _ => false,
    }
}

#[cycle(same)]
fn same_parts(a: &Parts, b: &Parts) -> bool
    ensures { IsTrue result ↔ (a.now ≡ b.now) }
{
    match (a, b) {
        (Parts::Plain(x), Parts::Plain(y)) => x.same(y),
        (Parts::Mixed(x), Parts::Mixed(y)) => same_pieces(x.as_slice(), y.as_slice()),
        _ => false,
    }
}

#[cycle(same)]
fn same_pieces(xs: &[Piece], ys: &[Piece]) -> bool
    ensures { IsTrue result ↔ (xs.now ≡ ys.now) }
{
    if xs.len() != ys.len() {
        return false;
    }
    'pieces: for i in 0..xs.len() {
        let same = match (&xs[i], &ys[i]) {
            (Piece::Text(x), Piece::Text(y)) => x.same(y),
            (Piece::Inserted(x), Piece::Inserted(y)) => same_expr(x, y),
            (Piece::Value(x), Piece::Value(y)) => same_expr(x, y),
            _ => false,
        };
        if !same {
            return false;
        }
    }
    true
}

#[cycle(same)]
fn same_callee(a: &Callee, b: &Callee) -> bool
    ensures { IsTrue result ↔ (a.now ≡ b.now) }
{
    same_namespace(&a.namespace, &b.namespace)
        && a.name.span.same(&b.name.span)
        && same_parts(&a.name.parts, &b.name.parts)
}

#[cycle(same)]
pub(crate) fn same_exprs(xs: &[Expr], ys: &[Expr]) -> bool
    ensures { IsTrue result ↔ (xs.now ≡ ys.now) }
{
    if xs.len() != ys.len() {
        return false;
    }
    'items: for i in 0..xs.len() {
        if !same_expr(&xs[i], &ys[i]) {
            return false;
        }
    }
    true
}

#[cycle(same)]
pub(crate) fn same_arguments(xs: &[Argument], ys: &[Argument]) -> bool
    ensures { IsTrue result ↔ (xs.now ≡ ys.now) }
{
    if xs.len() != ys.len() {
        return false;
    }
    'arguments: for i in 0..xs.len() {
        let x = &xs[i];
        let y = &ys[i];
        if !(same_name(&x.name, &y.name)
            && same_truth(x.spread, y.spread)
            && same_expr(&x.value, &y.value))
        {
            return false;
        }
    }
    true
}

#[cycle(same)]
fn same_links(xs: &[Link], ys: &[Link]) -> bool
    ensures { IsTrue result ↔ (xs.now ≡ ys.now) }
{
    if xs.len() != ys.len() {
        return false;
    }
    'links: for i in 0..xs.len() {
        let x = &xs[i];
        let y = &ys[i];
        if !(same_operator(x.operator, y.operator) && same_expr(&x.operand, &y.operand)) {
            return false;
        }
    }
    true
}

#[cycle(same)]
fn same_pairs(xs: &[Pair], ys: &[Pair]) -> bool
    ensures { IsTrue result ↔ (xs.now ≡ ys.now) }
{
    if xs.len() != ys.len() {
        return false;
    }
    'pairs: for i in 0..xs.len() {
        let x = &xs[i];
        let y = &ys[i];
        if !(same_expr(&x.key, &y.key) && same_expr(&x.value, &y.value)) {
            return false;
        }
    }
    true
}
