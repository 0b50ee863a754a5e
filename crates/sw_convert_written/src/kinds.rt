// What expressions are to what stands around them.
ghost use Rattle.std.specs.Prelude.{◌≡◌, map};
ghost use Rattle.sw_convert_written.specs.Expressions.{expr_shown, link_shown, is_number, is_divide, is_quotient, is_opaque, is_url, ends_in_url};

use crate::Sort;
use sw_tree::{Expr, ExprKind, Link, Operator};

/// What an expression is.
#[tactic(auto, using(crate::proofs::Unrolled::number_sort, crate::proofs::Unrolled::quoted_sort, crate::proofs::Unrolled::word_sort, crate::proofs::Unrolled::hash_sort, crate::proofs::Unrolled::constant_sort, crate::proofs::Unrolled::url_sort, crate::proofs::Unrolled::special_sort, crate::proofs::Unrolled::variable_sort, crate::proofs::Unrolled::qualified_sort, crate::proofs::Unrolled::call_sort, crate::proofs::Unrolled::parent_sort, crate::proofs::Unrolled::important_sort, crate::proofs::Unrolled::prefixed_sort, crate::proofs::Unrolled::chain_sort, crate::proofs::Unrolled::list_sort, crate::proofs::Unrolled::paren_sort, crate::proofs::Unrolled::map_sort))]
pub fn sort_of(value: &Expr) -> Sort
    ensures { result ≡ (expr_shown value.now).sort }
{
    match &value.kind {
        ExprKind::Number(_) => Sort::Number,
        ExprKind::Quoted(_) => Sort::Opaque,
        ExprKind::Word(_) => Sort::Other,
        ExprKind::Hash(_) => Sort::Other,
        ExprKind::Constant(_) => Sort::Other,
        ExprKind::Url(_) => Sort::Other,
        ExprKind::Special(_) => Sort::Other,
        ExprKind::Variable(_) => Sort::Opaque,
        ExprKind::Qualified(_) => Sort::Other,
        ExprKind::Call { .. } => Sort::Other,
        ExprKind::Parent => Sort::Other,
        ExprKind::Important => Sort::Other,
        ExprKind::Prefixed { .. } => Sort::Other,
        ExprKind::Chain { .. } => Sort::Other,
        ExprKind::List { .. } => Sort::Other,
        ExprKind::Paren(_) => Sort::Other,
        ExprKind::Map(_) => Sort::Other,
    }
}

fn is_number(sort: Sort) -> bool
    ensures { result ≡ is_number sort }
{
    match sort {
        Sort::Number => true,
        Sort::Opaque | Sort::Other => false,
    }
}

/// A string or a variable.
pub fn is_opaque(sort: Sort) -> bool
    ensures { result ≡ is_opaque sort }
{
    match sort {
        Sort::Opaque => true,
        Sort::Number | Sort::Other => false,
    }
}

fn is_divide(operator: Operator) -> bool
    ensures { result ≡ is_divide operator }
{
    match operator {
        Operator::Divide => true,
        _ => false,
    }
}

/// A quotient of numbers, which keeps its sides.
pub fn is_quotient(first: &Expr, rest: &[Link]) -> bool
    ensures { result ≡ is_quotient (expr_shown first.now) (map link_shown rest.now) }
{
    if !is_number(sort_of(first)) {
        return false;
    }
    'links: for link in rest {
        if !(is_divide(link.operator) && is_number(sort_of(&link.operand))) {
            return false;
        }
    }
    true
}

/// `url` in any case.
pub fn is_url(name: &[u8]) -> bool
    ensures { result ≡ is_url name.now }
{
    match name {
        [u, r, l] => {
            (*u == b'u' || *u == b'U') && (*r == b'r' || *r == b'R') && (*l == b'l' || *l == b'L')
        }
        _ => false,
    }
}

/// A name that ends with `url`, which stands by itself or directly behind a `#{}`: with a `(` behind it a url may begin.
pub fn ends_in_url(name: &[u8]) -> bool
    ensures { result ≡ ends_in_url name.now }
{
    let mut begins = true;
    let mut url = false;
    'bytes: for i in 0..name.len() {
        url = url || (begins && is_url(&name[i..]));
        begins = name[i] == b'}';
    }
    url
}
