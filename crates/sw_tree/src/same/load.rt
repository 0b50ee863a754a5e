// Whether two statements that load modules are equal, with their spans.
ghost use Rattle.std.specs.Prelude.{◌≡◌, IsTrue, ◌↔◌};

use super::expr::same_expr;
use super::marks::{same_name, same_truth};
use crate::{Filter, Forward, Given, Member, Namespace, Url, Use};

fn same_url(a: &Url, b: &Url) -> bool
    ensures { IsTrue result ↔ (a.now ≡ b.now) }
{
    a.text.same(&b.text) && a.span.same(&b.span)
}

fn same_namespace(a: &Namespace, b: &Namespace) -> bool
    ensures { IsTrue result ↔ (a.now ≡ b.now) }
{
    match (a, b) {
        (Namespace::Default(x), Namespace::Default(y)) => x.same(y),
        (Namespace::Written(x), Namespace::Written(y)) => x.same(y),
        (Namespace::Without, Namespace::Without) => true,
        _ => false,
    }
}

fn same_given(a: &Given, b: &Given) -> bool
    ensures { IsTrue result ↔ (a.now ≡ b.now) }
{
    a.name.same(&b.name)
        && a.name_span.same(&b.name_span)
        && same_expr(&a.value, &b.value)
        && same_truth(a.default, b.default)
}

fn same_configuration(xs: &[Given], ys: &[Given]) -> bool
    ensures { IsTrue result ↔ (xs.now ≡ ys.now) }
{
    if xs.len() != ys.len() {
        return false;
    }
    'variables: for i in 0..xs.len() {
        if !same_given(&xs[i], &ys[i]) {
            return false;
        }
    }
    true
}

fn same_member(a: &Member, b: &Member) -> bool
    ensures { IsTrue result ↔ (a.now ≡ b.now) }
{
    same_truth(a.variable, b.variable) && a.name.same(&b.name)
}

fn same_members(xs: &[Member], ys: &[Member]) -> bool
    ensures { IsTrue result ↔ (xs.now ≡ ys.now) }
{
    if xs.len() != ys.len() {
        return false;
    }
    'members: for i in 0..xs.len() {
        if !same_member(&xs[i], &ys[i]) {
            return false;
        }
    }
    true
}

fn same_filter(a: &Filter, b: &Filter) -> bool
    ensures { IsTrue result ↔ (a.now ≡ b.now) }
{
    match (a, b) {
        (Filter::All, Filter::All) => true,
        (Filter::Show(x), Filter::Show(y)) => same_members(x.as_slice(), y.as_slice()),
        (Filter::Hide(x), Filter::Hide(y)) => same_members(x.as_slice(), y.as_slice()),
        _ => false,
    }
}

pub(crate) fn same_use(a: &Use, b: &Use) -> bool
    ensures { IsTrue result ↔ (a.now ≡ b.now) }
{
    same_url(&a.url, &b.url)
        && same_namespace(&a.namespace, &b.namespace)
        && same_configuration(a.configuration.as_slice(), b.configuration.as_slice())
        && a.span.same(&b.span)
}

pub(crate) fn same_forward(a: &Forward, b: &Forward) -> bool
    ensures { IsTrue result ↔ (a.now ≡ b.now) }
{
    same_url(&a.url, &b.url)
        && same_name(&a.prefix, &b.prefix)
        && same_filter(&a.filter, &b.filter)
        && same_configuration(a.configuration.as_slice(), b.configuration.as_slice())
        && a.span.same(&b.span)
}
