// Operands with operators between them.
ghost use Rattle.std.specs.Prelude.{◌≡◌, true, false, Ok, IfOk, IfSome};
ghost use Rattle.std.specs.Option.{option_copied};
ghost use Rattle.sw_text.specs.declared.place.Span.{Span};
ghost use Rattle.sw_ops.specs.Operators.{takes_sides};
ghost use Rattle.sw_ops.specs.Sides.{number_in};
ghost use Rattle.sw_eval_literals.specs.Answers.{Returns, changed};
ghost use Rattle.sw_eval_literals.specs.Quotients.{plain_at as plain_value};
ghost use Rattle.sw_eval_literals.specs.Operations.{operation_of, is_division, divides_by, with_sides, sides_by, operand, needs_right, computed, first_left, keeps_sides, without_sides, taken, kept, of_quotient, of_both, joined_to};

use crate::making::of_op;
use crate::quotients::{Parens, is_literal, may_keep, plain_at};
use crate::refused::Refused;
use std::alloc::Global;
use sw_ops::{Op2, binary, keeps_sides, kept_quotient};
use sw_text::{Memory, Span};
use sw_tree::{Expr, Operator};
use sw_units::Number;
use sw_values::{Node, Value};

// What computes a value of two; none for `and` and `or`.
fn operation_of(operator: Operator) -> Option<Op2>
    ensures { result ≡ operation_of operator }
{
    match operator {
        Operator::Or => None,
        Operator::And => None,
        Operator::Equal => Some(Op2::Equal),
        Operator::NotEqual => Some(Op2::NotEqual),
        Operator::Less => Some(Op2::Less),
        Operator::LessEqual => Some(Op2::LessEqual),
        Operator::Greater => Some(Op2::Greater),
        Operator::GreaterEqual => Some(Op2::GreaterEqual),
        Operator::Plus => Some(Op2::Add),
        Operator::Minus => Some(Op2::Sub),
        Operator::Times => Some(Op2::Mul),
        Operator::Divide => Some(Op2::Div),
        Operator::Modulo => Some(Op2::Rem),
    }
}

fn is_division(operator: Operator) -> bool
    ensures { result ≡ is_division operator }
{
    match operation_of(operator) {
        Some(op) => op == Op2::Div,
        None => false,
    }
}

// Whether an operand is taken with the sides that it keeps.
fn with_sides(operator: Operator) -> bool
    ensures { result ≡ with_sides operator }
{
    match operation_of(operator) {
        Some(op) => op == Op2::Equal || op == Op2::NotEqual,
        None => false,
    }
}

// Whether an operand loses the sides that it keeps. Any other the operator takes as it is.
#[tactic(auto, unfolding(crate::specs::Quotients::plain_at))]
fn loses_sides(operator: Operator, value: &Value) -> bool
    ensures plain { result ≡ true → (at : Span) → operand operator value.now at ≡ plain_value value.now at }
    ensures same { result ≡ false → (at : Span) → operand operator value.now at ≡ Ok value.now }
{
    !with_sides(operator) && keeps_sides(value)
}

/// Whether the right operand is evaluated: `and` and `or` need it where the left one doesn't decide.
pub fn needs_right(operator: Operator, left: &Value) -> bool
    ensures { result ≡ needs_right operator left.now }
{
    match operator {
        Operator::And => left.truth(),
        Operator::Or => !left.truth(),
        Operator::Equal => true,
        Operator::NotEqual => true,
        Operator::Less => true,
        Operator::LessEqual => true,
        Operator::Greater => true,
        Operator::GreaterEqual => true,
        Operator::Plus => true,
        Operator::Minus => true,
        Operator::Times => true,
        Operator::Divide => true,
        Operator::Modulo => true,
    }
}

// What an operator makes of two operands.
#[tactic(auto, unfolding(crate::specs::Operations::computed))]
fn computed(
    alloc: Global,
    operator: Operator,
    left: &Value,
    right: &Value,
    span: &Span,
) -> Result<Value, Refused>
    ensures { Returns result (computed operator left.now right.now span.now) }
{
    match operation_of(operator) {
        Some(op) => of_op(binary(alloc, op, left, right), span),
        None => Ok(right.share()?),
    }
}

// The number that a value is.
pub(crate) fn number_in(value: &Value) -> Option<&Number>
    ensures { option_copied result ≡ number_in value.now }
{
    match value.node() {
        Node::Number(number) => Some(number),
        Node::Text { .. } => None,
        Node::Colour(_) => None,
        Node::List { .. } => None,
        Node::Map(_) => None,
        Node::Bool(_) => None,
        Node::Null => None,
        Node::Args { .. } => None,
    }
}

// A quotient of literals, which keeps its sides.
#[tactic(auto, unfolding(crate::specs::Operations::kept))]
fn kept(alloc: Global, left: &Value, right: &Value, span: &Span) -> Result<Value, Refused>
    ensures { Returns result (kept left.now right.now span.now) }
{
    match (number_in(left), number_in(right)) {
        (Some(x), Some(y)) => of_op(kept_quotient(alloc, x, y), span),
        (Some(_), None) => of_op(binary(alloc, Op2::Div, left, right), span),
        (None, _) => of_op(binary(alloc, Op2::Div, left, right), span),
    }
}

/// What stands left of the next operator of a chain.
#[derive(Drop)]
pub struct Left {
    pub value: Value,
    /// The place of the first operand, and behind an operator that of the chain.
    pub span: Span,
    /// It is a number that the sheet writes, or a quotient of such ones, where quotients keep their sides.
    pub literal: bool,
}

impl Left {
    /// The first operand.
    #[tactic(auto, unfolding(crate::specs::Operations::first_left))]
    pub fn first(value: Value, first: &Expr, parens: Parens) -> Result<Left, Memory>
        ensures { IfOk result (λ left. left ≡ first_left value first.now parens) }
    {
        Ok(Left {
            value,
            span: first.span.share()?,
            literal: may_keep(parens) && is_literal(first),
        })
    }

    // Whether the next operator makes a quotient that keeps its sides.
    fn keeps_sides(&self, operator: Operator, next: &Expr) -> bool
        ensures { result ≡ keeps_sides self.now operator next.now }
    {
        self.literal && is_division(operator) && is_literal(next)
    }

    /// Makes it what an operator takes, before the right operand is evaluated: it loses the sides of a quotient, but
    /// before `==`, `!=` and a quotient that keeps its sides. `DivideByZero` at its place where it is a quotient over
    /// zero.
    #[tactic(auto, unfolding(crate::specs::Operations::taken))]
    pub fn take(&mut self, operator: Operator, next: &Expr) -> Result<(), Refused>
        ensures { Returns (changed self.new result) (taken self.old operator next.now) }
    {
        if self.keeps_sides(operator, next) || !loses_sides(operator, &self.value) {
            return Ok(());
        }
        self.lose_sides()
    }

    // Loses the sides of a quotient.
    fn lose_sides(&mut self) -> Result<(), Refused>
        ensures { Returns (changed self.new result) (without_sides self.old) }
    {
        match plain_at(&self.value, &self.span) {
            Ok(value) => {
                self.value = value;
                Ok(())
            }
            Err(refused) => Err(refused),
        }
    }

    // The value of the left side and the right operand.
    fn of_both(
        &self,
        alloc: Global,
        operator: Operator,
        right: &Value,
        next: &Expr,
        span: &Span,
    ) -> Result<Value, Refused>
        ensures { Returns result (of_both self.now operator right.now next.now span.now) }
    {
        if self.keeps_sides(operator, next) {
            return kept(alloc, &self.value, right, span);
        }
        if loses_sides(operator, right) {
            return self.of_quotient(alloc, operator, right, &next.span, span);
        }
        computed(alloc, operator, &self.value, right, span)
    }

    // The same where the right operand is a quotient, which loses its sides.
    fn of_quotient(
        &self,
        alloc: Global,
        operator: Operator,
        right: &Value,
        right_span: &Span,
        span: &Span,
    ) -> Result<Value, Refused>
        ensures { Returns result (of_quotient self.now operator right.now right_span.now span.now) }
    {
        match plain_at(right, right_span) {
            Ok(right) => computed(alloc, operator, &self.value, &right, span),
            Err(refused) => Err(refused),
        }
    }

    /// Makes it what stands left of the operator behind the right operand. The operand is written as `next`, and the
    /// chain stands at the place. The right operand loses its sides as the left one does, with the same fault at its
    /// own place; any other fault stands at the chain.
    #[tactic(auto, unfolding(crate::specs::Operations::joined_to))]
    pub fn join(
        &mut self,
        alloc: Global,
        operator: Operator,
        right: &Value,
        next: &Expr,
        span: &Span,
    ) -> Result<(), Refused>
        ensures { Returns (changed self.new result) (joined_to self.old operator right.now next.now span.now) }
    {
        match self.of_both(alloc, operator, right, next, span) {
            Ok(value) => {
                let span = span.share()?;
                let literal = self.keeps_sides(operator, next);
                *self = Left {
                    value,
                    span,
                    literal,
                };
                Ok(())
            }
            Err(refused) => Err(refused),
        }
    }
}
