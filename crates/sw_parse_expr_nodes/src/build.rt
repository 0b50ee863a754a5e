// The nodes that are made of what was read.
ghost use Rattle.std.specs.Prelude.{◌≡◌, ◌∷◌, [], IfOk};
ghost use Rattle.sw_tree.specs.declared.expr.ExprKind.TheVariants as exprs;
ghost use Rattle.sw_parse_table.specs.Parts.{Values};
ghost use Rattle.sw_parse_table.specs.Values.{expression, chained, prefixed, spaced, listed, in_parens, in_brackets, enclosed, bracketed};
ghost use Rattle.sw_parse_expr_nodes.specs.Views.{inner_parts, value_parts};

use std::alloc::Global;
use sw_text::{List, Memory, Shared, Span};
use sw_tree::{Around, Expr, ExprKind, Link, Pair, Separator, Sign};

/// A value in a text, and the places where it begins and ends.
#[derive(Drop)]
pub struct Inserted {
    pub from: usize,
    pub to: usize,
    pub value: Expr,
    /// It stands in the text of a special function by itself, and not in `#{}`.
    pub stands: bool,
}

/// What stands in parentheses.
#[derive(Drop)]
pub enum Inner {
    Nothing,
    Value(Expr),
    /// The first pair of a map, and the others.
    Pairs(Pair, List<Pair>),
}

/// The operands of one level, or the first one alone.
pub fn chained(alloc: Global, first: Expr, rest: List<Link>, span: Span) -> Result<Expr, Memory>
    ensures { IfOk result (λ value. chained span (first ∷ []) rest ≡ Values value ∷ []) }
{
    if rest.is_empty() {
        return Ok(first);
    }
    let first = Shared::new(alloc, first)?;
    Ok(Expr {
        kind: ExprKind::Chain { first, rest },
        span,
    })
}

/// An operand with the signs before it.
pub fn prefixed(alloc: Global, signs: List<Sign>, operand: Expr, span: Span) -> Result<Expr, Memory>
    ensures { IfOk result (λ value. prefixed span signs (operand ∷ []) ≡ Values value ∷ []) }
{
    if signs.is_empty() {
        return Ok(operand);
    }
    let operand = Shared::new(alloc, operand)?;
    Ok(Expr {
        kind: ExprKind::Prefixed { signs, operand },
        span,
    })
}

/// The items of a space list, or the first one alone.
pub fn spaced(first: Expr, rest: List<Expr>, span: Span) -> Result<Expr, Memory>
    ensures { IfOk result (λ value. spaced span (first ∷ rest) ≡ Values value ∷ []) }
{
    if rest.is_empty() {
        return Ok(first);
    }
    let mut items = rest.into_vec();
    items.insert(0, first)?;
    Ok(Expr {
        kind: ExprKind::List {
            items: List::from_vec(items),
            separator: Separator::Space,
            around: Around::Nothing,
        },
        span,
    })
}

/// The items of a list with commas, or the first one alone where no comma stands behind it.
pub fn listed(first: Expr, rest: List<Expr>, comma: bool, span: Span) -> Result<Expr, Memory>
    ensures { IfOk result (λ value. listed span comma (first ∷ rest) ≡ Values value ∷ []) }
{
    if rest.is_empty() && !comma {
        return Ok(first);
    }
    let mut items = rest.into_vec();
    items.insert(0, first)?;
    Ok(Expr {
        kind: ExprKind::List {
            items: List::from_vec(items),
            separator: Separator::Comma,
            around: Around::Nothing,
        },
        span,
    })
}

fn paren_of(alloc: Global, value: Expr, span: Span) -> Result<Expr, Memory>
    ensures { IfOk result (λ enclosed. enclosed ≡ expression (exprs.Paren value) span) }
{
    let value = Shared::new(alloc, value)?;
    Ok(Expr {
        kind: ExprKind::Paren(value),
        span,
    })
}

/// A value in parentheses: a list has their span.
#[tactic(auto, unfolding(sw_parse_table::specs::Values::in_parens))]
fn in_parens(alloc: Global, value: Expr, span: Span) -> Result<Expr, Memory>
    ensures { IfOk result (λ enclosed. enclosed ≡ in_parens span value) }
{
    let Expr { kind, span: own } = value;
    match kind {
        ExprKind::List {
            items,
            separator,
            around: Around::Nothing,
        } => Ok(Expr {
            kind: ExprKind::List {
                items,
                separator,
                around: Around::Parens,
            },
            span,
        }),
        kind => paren_of(alloc, Expr { kind, span: own }, span),
    }
}

/// What stands in parentheses, as an expression.
#[tactic(auto, using(crate::proofs::Collected::collected))]
pub fn enclosed(alloc: Global, inner: Inner, span: Span) -> Result<Expr, Memory>
    ensures { IfOk result (λ value. enclosed span (inner_parts inner) ≡ Values value ∷ []) }
{
    match inner {
        Inner::Nothing => Ok(Expr {
            kind: ExprKind::List {
                items: List::new(alloc),
                separator: Separator::Undecided,
                around: Around::Parens,
            },
            span,
        }),
        Inner::Value(value) => in_parens(alloc, value, span),
        Inner::Pairs(first, rest) => {
            let mut pairs = rest.into_vec();
            pairs.insert(0, first)?;
            Ok(Expr {
                kind: ExprKind::Map(List::from_vec(pairs)),
                span,
            })
        }
    }
}

/// A value in brackets: a list has their span, and any other value is the item of one.
#[tactic(auto, unfolding(sw_parse_table::specs::Values::in_brackets))]
fn in_brackets(alloc: Global, value: Expr, span: Span) -> Result<Expr, Memory>
    ensures { IfOk result (λ bracketed. bracketed ≡ in_brackets span value) }
{
    let Expr { kind, span: own } = value;
    match kind {
        ExprKind::List {
            items,
            separator,
            around: Around::Nothing,
        } => Ok(Expr {
            kind: ExprKind::List {
                items,
                separator,
                around: Around::Brackets,
            },
            span,
        }),
        kind => {
            let mut items = List::new(alloc);
            items.push(Expr { kind, span: own })?;
            Ok(Expr {
                kind: ExprKind::List {
                    items,
                    separator: Separator::Undecided,
                    around: Around::Brackets,
                },
                span,
            })
        }
    }
}

/// What stands in brackets, as an expression.
pub fn bracketed(alloc: Global, inner: Option<Expr>, span: Span) -> Result<Expr, Memory>
    ensures { IfOk result (λ value. bracketed span (value_parts inner) ≡ Values value ∷ []) }
{
    match inner {
        None => Ok(Expr {
            kind: ExprKind::List {
                items: List::new(alloc),
                separator: Separator::Undecided,
                around: Around::Brackets,
            },
            span,
        }),
        Some(value) => in_brackets(alloc, value, span),
    }
}
