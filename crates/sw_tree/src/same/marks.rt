// Whether two marks, numbers or names of a tree are equal.
ghost use Rattle.std.specs.Prelude.{◌≡◌, IsTrue, ◌↔◌};

use crate::{Around, Constant, Namespaced, Number, Operator, Qualified, Separator, Sign};
use sw_text::Name;

pub(crate) fn same_truth(a: bool, b: bool) -> bool
    ensures { IsTrue result ↔ (a ≡ b) }
{
    a == b
}

pub(crate) fn same_constant(a: Constant, b: Constant) -> bool
    ensures { IsTrue result ↔ (a ≡ b) }
{
    a == b
}

pub(crate) fn same_operator(a: Operator, b: Operator) -> bool
    ensures { IsTrue result ↔ (a ≡ b) }
{
    a == b
}

pub(crate) fn same_separator(a: Separator, b: Separator) -> bool
    ensures { IsTrue result ↔ (a ≡ b) }
{
    a == b
}

pub(crate) fn same_around(a: Around, b: Around) -> bool
    ensures { IsTrue result ↔ (a ≡ b) }
{
    a == b
}

fn same_sign(a: Sign, b: Sign) -> bool
    ensures { IsTrue result ↔ (a ≡ b) }
{
    a == b
}

pub(crate) fn same_signs(xs: &[Sign], ys: &[Sign]) -> bool
    ensures { IsTrue result ↔ (xs.now ≡ ys.now) }
{
    if xs.len() != ys.len() {
        return false;
    }
    'signs: for i in 0..xs.len() {
        if !same_sign(xs[i], ys[i]) {
            return false;
        }
    }
    true
}

pub(crate) fn same_number(a: &Number, b: &Number) -> bool
    ensures { IsTrue result ↔ (a.now ≡ b.now) }
{
    a.value == b.value && a.unit.same(&b.unit)
}

pub(crate) fn same_name(a: &Option<Name>, b: &Option<Name>) -> bool
    ensures { IsTrue result ↔ (a.now ≡ b.now) }
{
    match (a, b) {
        (Some(x), Some(y)) => x.same(y),
        (None, None) => true,
        _ => false,
    }
}

pub(crate) fn same_names(xs: &[Name], ys: &[Name]) -> bool
    ensures { IsTrue result ↔ (xs.now ≡ ys.now) }
{
    if xs.len() != ys.len() {
        return false;
    }
    'names: for i in 0..xs.len() {
        if !xs[i].same(&ys[i]) {
            return false;
        }
    }
    true
}

pub(crate) fn same_namespaced(a: &Namespaced, b: &Namespaced) -> bool
    ensures { IsTrue result ↔ (a.now ≡ b.now) }
{
    a.name.same(&b.name) && a.span.same(&b.span)
}

pub(crate) fn same_namespace(a: &Option<Namespaced>, b: &Option<Namespaced>) -> bool
    ensures { IsTrue result ↔ (a.now ≡ b.now) }
{
    match (a, b) {
        (Some(x), Some(y)) => same_namespaced(x, y),
        (None, None) => true,
        _ => false,
    }
}

pub(crate) fn same_qualified(a: &Qualified, b: &Qualified) -> bool
    ensures { IsTrue result ↔ (a.now ≡ b.now) }
{
    same_namespaced(&a.namespace, &b.namespace) && a.name.same(&b.name)
}
