// Which quotients keep their sides.
ghost use Rattle.std.specs.Prelude.{◌≡◌};
ghost use Rattle.sw_eval_literals.specs.Answers.{Returns};
ghost use Rattle.sw_eval_literals.specs.Quotients.{may_keep, deeper, spaced, of_item, is_literal, plain_at};

use crate::making::of_op;
use crate::refused::Refused;
use sw_ops::{keeps_sides, plain};
use sw_text::Span;
use sw_tree::{Around, Expr, ExprKind, Separator};
use sw_values::Value;

/// Whether an expression stands in parentheses, in which quotients keep no sides.
#[derive(Clone, Copy, Debug, PartialEq, Eq)]
pub enum Parens {
    Outside,
    /// Inside, but itself an item of a list with spaces between, so that it keeps its sides where it is a quotient.
    Item,
    Inside,
}

/// Whether a quotient that stands here keeps its sides.
pub(crate) fn may_keep(parens: Parens) -> bool
    ensures { result ≡ may_keep parens }
{
    match parens {
        Parens::Outside => true,
        Parens::Item => true,
        Parens::Inside => false,
    }
}

/// Where the expressions stand that an expression holds without parentheses of its own: operands, arguments of a call,
/// and values in a text.
pub fn deeper(parens: Parens) -> Parens
    ensures { result ≡ deeper parens }
{
    match parens {
        Parens::Outside => Parens::Outside,
        Parens::Item => Parens::Inside,
        Parens::Inside => Parens::Inside,
    }
}

fn spaced(separator: Separator, parens: Parens) -> Parens
    ensures { result ≡ spaced separator parens }
{
    match (separator, parens) {
        (Separator::Space, Parens::Inside) => Parens::Item,
        (Separator::Space, Parens::Item) => Parens::Item,
        (Separator::Space, Parens::Outside) => Parens::Outside,
        (Separator::Comma, _) => parens,
        (Separator::Undecided, _) => parens,
    }
}

/// Where the items of a list stand.
pub fn of_item(parens: Parens, separator: Separator, around: Around) -> Parens
    ensures { result ≡ of_item parens separator around }
{
    match around {
        Around::Nothing => spaced(separator, deeper(parens)),
        Around::Brackets => spaced(separator, deeper(parens)),
        Around::Parens => spaced(separator, Parens::Inside),
    }
}

/// Whether an operand is a number that the sheet writes.
#[tactic(auto, unfolding(crate::specs::Quotients::is_literal))]
pub fn is_literal(operand: &Expr) -> bool
    ensures { result ≡ is_literal operand.now }
{
    match &operand.kind {
        ExprKind::Number(_) => true,
        ExprKind::Quoted(_) => false,
        ExprKind::Word(_) => false,
        ExprKind::Hash(_) => false,
        ExprKind::Constant(_) => false,
        ExprKind::Url(_) => false,
        ExprKind::Special(_) => false,
        ExprKind::Variable(_) => false,
        ExprKind::Qualified(_) => false,
        ExprKind::Call { .. } => false,
        ExprKind::Parent => false,
        ExprKind::Important => false,
        ExprKind::Prefixed { .. } => false,
        ExprKind::Chain { .. } => false,
        ExprKind::List { .. } => false,
        ExprKind::Paren(_) => false,
        ExprKind::Map(_) => false,
    }
}

/// The value as it is stored, passed on, returned, put in parentheses or computed with: without the sides that a
/// quotient keeps. `DivideByZero` where that is a quotient over zero.
#[tactic(auto, unfolding(crate::specs::Quotients::plain_at))]
#[inline(always)]
pub fn plain_at(value: &Value, span: &Span) -> Result<Value, Refused>
    ensures { Returns result (plain_at value.now span.now) }
{
    of_op(plain(value), span)
}

/// The same of a value that is given up, which comes back where it keeps no sides.
#[tactic(auto, unfolding(crate::specs::Quotients::plain_at))]
#[inline(always)]
pub fn into_plain_at(value: Value, span: &Span) -> Result<Value, Refused>
    ensures { Returns result (plain_at value span.now) }
{
    if keeps_sides(&value) {
        return plain_at(&value, span);
    }
    Ok(value)
}
