// Signs before an operand.
ghost use Rattle.std.specs.Prelude.{◌≡◌};
ghost use Rattle.sw_ops.specs.Operators.{unary};
ghost use Rattle.sw_eval_literals.specs.Answers.{Returns, of_op};
ghost use Rattle.sw_eval_literals.specs.Operations.{sign_of, signed, prefixed};

use crate::making::of_op;
use crate::quotients::plain_at;
use crate::refused::Refused;
use std::alloc::Global;
use sw_ops::{Op1, unary};
use sw_text::Span;
use sw_tree::Sign;
use sw_values::Value;

fn sign_of(sign: Sign) -> Op1
    ensures { result ≡ sign_of sign }
{
    match sign {
        Sign::Not => Op1::Not,
        Sign::Plus => Op1::Plus,
        Sign::Minus => Op1::Minus,
        Sign::Slash => Op1::Slash,
    }
}

fn one_signed(alloc: Global, sign: Sign, value: Value, span: &Span) -> Result<Value, Refused>
    ensures { Returns result (of_op span.now (unary (sign_of sign) value)) }
{
    of_op(unary(alloc, sign_of(sign), &value), span)
}

// The value of an operand with signs before it, of which the last is the innermost.
fn signed(alloc: Global, signs: &[Sign], value: Value, span: &Span) -> Result<Value, Refused>
    ensures { Returns result (signed signs.now value span.now) }
{
    let mut value = value;
    let mut left = signs.len();
    'signs: while left > 0 {
        left -= 1;
        match one_signed(alloc, signs[left], value, span) {
            Ok(inner) => value = inner,
            Err(refused) => return Err(refused),
        }
    }
    Ok(value)
}

/// The value of an operand with signs before it, the outermost first. The operand stands at the first place and all of
/// it at the second; `DivideByZero` at the first where the operand is a quotient over zero.
#[tactic(auto, unfolding(crate::specs::Operations::prefixed))]
pub fn prefixed(
    alloc: Global,
    signs: &[Sign],
    operand: &Value,
    operand_span: &Span,
    span: &Span,
) -> Result<Value, Refused>
    ensures { Returns result (prefixed signs.now operand.now operand_span.now span.now) }
{
    match plain_at(operand, operand_span) {
        Ok(value) => signed(alloc, signs, value, span),
        Err(refused) => Err(refused),
    }
}
