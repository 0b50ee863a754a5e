// Signs, operators, constants and brackets.
ghost use Rattle.std.specs.Prelude.{◌≡◌, ◌++◌, OnOk};
ghost use Rattle.sw_convert_written.specs.Signs.{sign_text, operator_text, constant_text, opening, closing};
ghost use Rattle.sw_convert_written.specs.Expressions.{signs_text};

use sw_text::Memory;
use sw_tree::{Around, Constant, Operator, Sign};

fn sign_text(sign: Sign) -> &'static [u8]
    ensures { result.now ≡ sign_text sign }
{
    match sign {
        Sign::Not => b"not ",
        Sign::Plus => b"+ ",
        Sign::Minus => b"- ",
        Sign::Slash => b"/ ",
    }
}

/// Puts signs, each with a space behind it.
pub fn put_signs(out: &mut Vec<u8>, signs: &[Sign]) -> Result<(), Memory>
    ensures { OnOk result (out.new.items ≡ out.old.items ++ signs_text signs.now) }
{
    'signs: for sign in signs {
        out.extend_from_slice(sign_text(*sign))?;
    }
    Ok(())
}

fn operator_text(operator: Operator) -> &'static [u8]
    ensures { result.now ≡ operator_text operator }
{
    match operator {
        Operator::Or => b"or ",
        Operator::And => b"and ",
        Operator::Equal => b"== ",
        Operator::NotEqual => b"!= ",
        Operator::Less => b"< ",
        Operator::LessEqual => b"<= ",
        Operator::Greater => b"> ",
        Operator::GreaterEqual => b">= ",
        Operator::Plus => b"+ ",
        Operator::Minus => b"- ",
        Operator::Times => b"* ",
        Operator::Divide => b"/ ",
        Operator::Modulo => b"% ",
    }
}

/// Puts an operator with a space behind it.
pub fn put_operator(out: &mut Vec<u8>, operator: Operator) -> Result<(), Memory>
    ensures { OnOk result (out.new.items ≡ out.old.items ++ operator_text operator) }
{
    out.extend_from_slice(operator_text(operator))?;
    Ok(())
}

/// Puts a constant.
pub fn put_constant(out: &mut Vec<u8>, constant: Constant) -> Result<(), Memory>
    ensures { OnOk result (out.new.items ≡ out.old.items ++ constant_text constant) }
{
    match constant {
        Constant::True => out.extend_from_slice(b"true")?,
        Constant::False => out.extend_from_slice(b"false")?,
        Constant::Null => out.extend_from_slice(b"null")?,
    }
    Ok(())
}

/// Puts what opens a list.
pub fn put_opening(out: &mut Vec<u8>, around: Around) -> Result<(), Memory>
    ensures { OnOk result (out.new.items ≡ out.old.items ++ opening around) }
{
    match around {
        Around::Nothing => {}
        Around::Parens => out.push(b'(')?,
        Around::Brackets => out.push(b'[')?,
    }
    Ok(())
}

/// Puts what closes a list.
pub fn put_closing(out: &mut Vec<u8>, around: Around) -> Result<(), Memory>
    ensures { OnOk result (out.new.items ≡ out.old.items ++ closing around) }
{
    match around {
        Around::Nothing => {}
        Around::Parens => out.push(b')')?,
        Around::Brackets => out.push(b']')?,
    }
    Ok(())
}
