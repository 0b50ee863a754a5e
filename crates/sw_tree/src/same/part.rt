// Whether two parts of statements are equal, with their spans.
ghost use Rattle.std.specs.Prelude.{◌≡◌, IsTrue, ◌↔◌};

use super::expr::{same_arguments, same_expr, same_text};
use super::marks::{same_name, same_namespace, same_truth};
use crate::{Bounds, Expr, Mixin, Param, Params, Text};

pub(crate) fn same_optional_expr(a: &Option<Expr>, b: &Option<Expr>) -> bool
    ensures { IsTrue result ↔ (a.now ≡ b.now) }
{
    match (a, b) {
        (Some(x), Some(y)) => same_expr(x, y),
        (None, None) => true,
        _ => false,
    }
}

pub(crate) fn same_optional_text(a: &Option<Text>, b: &Option<Text>) -> bool
    ensures { IsTrue result ↔ (a.now ≡ b.now) }
{
    match (a, b) {
        (Some(x), Some(y)) => same_text(x, y),
        (None, None) => true,
        _ => false,
    }
}

pub(crate) fn same_bounds(a: &Bounds, b: &Bounds) -> bool
    ensures { IsTrue result ↔ (a.now ≡ b.now) }
{
    same_expr(&a.from, &b.from) && same_expr(&a.to, &b.to) && same_truth(a.through, b.through)
}

pub(crate) fn same_mixin(a: &Mixin, b: &Mixin) -> bool
    ensures { IsTrue result ↔ (a.now ≡ b.now) }
{
    same_namespace(&a.namespace, &b.namespace)
        && a.name.same(&b.name)
        && a.name_span.same(&b.name_span)
        && same_arguments(a.arguments.as_slice(), b.arguments.as_slice())
}

fn same_param(a: &Param, b: &Param) -> bool
    ensures { IsTrue result ↔ (a.now ≡ b.now) }
{
    a.name.same(&b.name) && same_optional_expr(&a.default, &b.default)
}

fn same_items(xs: &[Param], ys: &[Param]) -> bool
    ensures { IsTrue result ↔ (xs.now ≡ ys.now) }
{
    if xs.len() != ys.len() {
        return false;
    }
    'items: for i in 0..xs.len() {
        if !same_param(&xs[i], &ys[i]) {
            return false;
        }
    }
    true
}

pub(crate) fn same_params(a: &Params, b: &Params) -> bool
    ensures { IsTrue result ↔ (a.now ≡ b.now) }
{
    same_items(a.items.as_slice(), b.items.as_slice()) && same_name(&a.rest, &b.rest)
}
