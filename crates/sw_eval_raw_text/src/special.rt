// Special text, and `min` and `max` in it.
ghost use Rattle.std.specs.Prelude.{◌≡◌, ◌<◌, ◌^◌, [], Ok, false, IfOk, option_copied, slice_get};
ghost use Rattle.sw_eval_literals.specs.Answers.{Returns};
ghost use Rattle.sw_eval_raw_text.specs.Special.{plain_special, special_value, bare, closes, goes_on, fits_text, fits_value, fits, lists_values, known, function_of, function_in, extremum, value_text, piece_text, had, written_pieces, written_out, number_in, compared_by, compared, behind_value, behind_piece, all_compared, passed_of, computed, is_incomparable, extremum_value};
ghost use Rattle.sw_tree.specs.declared.expr.ExprKind.{out-ExprKind};
ghost use Rattle.sw_tree.specs.declared.text.Parts.{out-Parts};

use crate::imports::is_text;
use crate::numerals::numeral;
use crate::spacing::{Reading, spaced, spaced_texts};
use std::alloc::Global;
use sw_builtins::{BuiltIn, Found, find};
use sw_eval_built_in_calls::built_in_value;
use sw_eval_literals::{Refused, css_text, joined, number_value, string_value, trimmed};
use sw_scope::Passed;
use sw_text::{FaultCode, List, Memory, Name, Span};
use sw_text_scan::{byte_at, signs};
use sw_tree::{Expr, ExprKind, Kind, Parts, Piece};
use sw_values::Value;

/// A special text without values in it is an unquoted string, but for its white space.
pub fn plain_special(alloc: Global, text: &Name, span: &Span) -> Result<Value, Refused>
    ensures { Returns result (plain_special text.now span.now) }
{
    let text = spaced(alloc, true, Reading::start(), text.as_str())?;
    string_value(text, false, span)
}

/// The same of pieces that have these texts.
pub fn special_value(
    alloc: Global,
    all: &[Piece],
    texts: &[Name],
    span: &Span,
) -> Result<Value, Refused>
    ensures { Returns result (special_value all.now texts.now span.now) }
{
    let spaced = spaced_texts(alloc, all, texts)?;
    let text = joined(alloc, spaced.as_slice(), span)?;
    string_value(text, false, span)
}

// Without the white space around it.
fn bare(text: &str) -> &str
    ensures { result.now ≡ bare text.now }
{
    trimmed(text, 0, text.len())
}

// Whether a text is the closing bracket, which a comma may stand before.
fn closes(text: &str) -> bool
    ensures { result ≡ closes text.now }
{
    text == ")"
        || (byte_at(text.as_bytes(), 0) == signs::COMMA && trimmed(text, 1, text.len()) == ")")
}

// Whether a text follows a value: a comma, or at the end the closing bracket.
fn goes_on(is_last: bool, text: &str) -> bool
    ensures { result ≡ goes_on is_last text.now }
{
    if is_last {
        closes(bare(text))
    } else {
        bare(text) == ","
    }
}

// Whether a text may stand there, behind a value or not.
fn fits_text(is_behind: bool, is_last: bool, text: &str) -> bool
    ensures { result ≡ fits_text is_behind is_last text.now }
{
    is_behind && goes_on(is_last, text)
}

// Whether a value may.
fn fits_value(is_behind: bool, is_last: bool) -> bool
    ensures { result ≡ fits_value is_behind is_last }
{
    !is_behind && !is_last
}

// Whether a piece is a value, or the text that stands behind one.
fn fits(is_behind: bool, is_last: bool, one: &Piece) -> bool
    ensures { result ≡ fits is_behind is_last one.now }
{
    match one {
        Piece::Text(text) => fits_text(is_behind, is_last, text.as_str()),
        Piece::Inserted(_) => false,
        Piece::Value(_) => fits_value(is_behind, is_last),
    }
}

// Whether values alone stand there, with a comma between two, up to the closing bracket.
#[tactic(auto, using(crate::proofs::Extremes::last_piece, crate::proofs::Extremes::piece_wrong, crate::proofs::Extremes::piece_on))]
fn lists_values(all: &[Piece]) -> bool
    ensures { result ≡ lists_values false all.now }
{
    let mut is_behind = false;
    'all: for place in 0..all.len() {
        let is_last = place + 1 == all.len();
        let fits = fits(is_behind, is_last, &all[place]);
        if is_last || !fits {
            return fits;
        }
        is_behind = !is_behind;
    }
    false
}

fn known(found: Found) -> Option<BuiltIn>
    ensures { result ≡ known found }
{
    match found {
        Found::Known(function) => Some(function),
        Found::LeftOut => None,
        Found::NoSuch => None,
    }
}

// The function whose call is `name(`.
fn function_of(text: &str) -> Option<BuiltIn>
    ensures { result ≡ function_of text.now }
{
    if bare(text) == "min(" {
        known(find(None, Kind::Function, "min"))
    } else if bare(text) == "max(" {
        known(find(None, Kind::Function, "max"))
    } else {
        None
    }
}

fn function_in(one: &Piece) -> Option<BuiltIn>
    ensures { result ≡ function_in one.now }
{
    match one {
        Piece::Text(text) => function_of(text.as_str()),
        Piece::Inserted(_) => None,
        Piece::Value(_) => None,
    }
}

/// `min` or `max`, where each of its arguments is a value alone.
pub fn extremum(all: &[Piece]) -> Option<BuiltIn>
    ensures { result ≡ extremum all.now }
{
    match all {
        [] => None,
        [first, others @ ..] => {
            if lists_values(others) {
                function_in(first)
            } else {
                None
            }
        }
    }
}

fn value_text(alloc: Global, e: &Expr, value: Option<&Value>) -> Result<Name, Refused>
    ensures { Returns result (value_text e.now (option_copied value.entry)) }
{
    match value {
        None => Ok(Name::new(alloc, "")?),
        Some(value) => css_text(alloc, true, value, &e.span),
    }
}

// The text of a piece, where its value is this one.
fn piece_text(alloc: Global, one: &Piece, value: Option<&Value>) -> Result<Name, Refused>
    ensures { Returns result (piece_text one.now (option_copied value.entry)) }
{
    match one {
        Piece::Text(text) => Ok(text.share()?),
        Piece::Inserted(e) => value_text(alloc, e, value),
        Piece::Value(e) => value_text(alloc, e, value),
    }
}

// The value at a place, where there is one.
fn value_at(values: &[Value], at: usize) -> Option<&Value>
    ensures { option_copied result ≡ slice_get values.now at }
{
    values.get(at)
}

// How many values were had behind a piece.
fn had(one: &Piece, next: usize) -> usize
    requires { next < 2 ^ 63 }
    ensures { result ≡ had one.now next }
{
    if is_text(one) { next } else { next + 1 }
}

// The texts of pieces, where the values have these.
fn written_pieces(alloc: Global, all: &[Piece], values: &[Value]) -> Result<List<Name>, Refused>
    ensures { Returns result (written_pieces [] all.now values.now 0) }
{
    let mut done = List::new(alloc);
    let mut next = 0;
    'all: for one in all {
        let text = piece_text(alloc, one, value_at(values, next))?;
        done.push(text)?;
        next = had(one, next);
    }
    Ok(done)
}

fn written_out(
    alloc: Global,
    all: &[Piece],
    values: &[Value],
    span: &Span,
) -> Result<Value, Refused>
    ensures { Returns result (written_out all.now values.now span.now) }
{
    let texts = written_pieces(alloc, all, values)?;
    special_value(alloc, all, texts.as_slice(), span)
}

// ---- what is computed

// A number of the sheet stands there as its text.
fn number_in(alloc: Global, parts: &Parts, value: &Value, span: &Span) -> Result<Value, Refused>
    ensures { Returns result (number_in (out-Parts parts.now) value.now span.now) }
{
    match parts {
        Parts::Plain(text) => {
            let number = numeral(alloc, text.as_str())?;
            number_value(&number, span)
        }
        Parts::Mixed(_) => itself(value),
    }
}

fn itself(value: &Value) -> Result<Value, Refused>
    ensures { Returns result (Ok value.now) }
{
    Ok(value.share()?)
}

fn compared_by(alloc: Global, kind: &ExprKind, value: &Value, span: &Span) -> Result<Value, Refused>
    ensures { Returns result (compared_by (out-ExprKind kind.now) value.now span.now) }
{
    match kind {
        ExprKind::Special(parts) => number_in(alloc, parts, value, span),
        _ => itself(value),
    }
}

// What is compared where an argument has this value.
#[tactic(auto, unfolding(crate::specs::Special::compared))]
fn compared(alloc: Global, e: &Expr, value: &Value) -> Result<Value, Refused>
    ensures { Returns result (compared e.now value.now) }
{
    compared_by(alloc, &e.kind, value, &e.span)
}

fn behind_value(
    alloc: Global,
    done: List<Value>,
    e: &Expr,
    value: Option<&Value>,
) -> Result<List<Value>, Refused>
    ensures { Returns result (behind_value done e.now (option_copied value.entry)) }
{
    match value {
        None => Ok(done),
        Some(value) => {
            let compared = compared(alloc, e, value)?;
            let mut values = done;
            values.push(compared)?;
            Ok(values)
        }
    }
}

// What is compared of a piece, behind others.
fn behind_piece(
    alloc: Global,
    done: List<Value>,
    one: &Piece,
    value: Option<&Value>,
) -> Result<List<Value>, Refused>
    ensures { Returns result (behind_piece done one.now (option_copied value.entry)) }
{
    match one {
        Piece::Text(_) => Ok(done),
        Piece::Inserted(_) => Ok(done),
        Piece::Value(e) => behind_value(alloc, done, e, value),
    }
}

// What is compared of pieces that have these values.
fn all_compared(alloc: Global, all: &[Piece], values: &[Value]) -> Result<List<Value>, Refused>
    ensures { Returns result (all_compared [] all.now values.now 0) }
{
    let mut done = List::new(alloc);
    let mut next = 0;
    'all: for one in all {
        done = behind_piece(alloc, done, one, value_at(values, next))?;
        next = had(one, next);
    }
    Ok(done)
}

fn passed_of(alloc: Global, values: &[Value]) -> Result<Passed, Memory>
    ensures { IfOk result (λ passed. passed ≡ passed_of values.now) }
{
    let mut passed = Passed::new(alloc);
    'values: for value in values {
        passed.pass(value.share()?)?;
    }
    Ok(passed)
}

// What the function gives.
fn computed(
    alloc: Global,
    function: BuiltIn,
    all: &[Piece],
    values: &[Value],
    span: &Span,
) -> Result<Value, Refused>
    ensures { Returns result (computed function all.now values.now span.now) }
{
    let compared = all_compared(alloc, all, values)?;
    let passed = passed_of(alloc, compared.as_slice())?;
    built_in_value(alloc, function, &passed, span)
}

// Whether some value is no number, or one that doesn't compare with the others.
fn is_incomparable(code: FaultCode) -> bool
    ensures { result ≡ is_incomparable code }
{
    code == FaultCode::TypeFault || code == FaultCode::UnitFault || code == FaultCode::NumberRange
}

/// What the function gives of these values. Where one of them is no number that compares, its call is written out.
pub fn extremum_value(
    alloc: Global,
    function: BuiltIn,
    all: &[Piece],
    values: &[Value],
    span: &Span,
) -> Result<Value, Refused>
    ensures { Returns result (extremum_value function all.now values.now span.now) }
{
    match computed(alloc, function, all, values, span) {
        Ok(value) => Ok(value),
        Err(Refused::Fault(fault)) => {
            if is_incomparable(fault.code) {
                return written_out(alloc, all, values, span);
            }
            Err(Refused::Fault(fault))
        }
        Err(Refused::Memory) => Err(Refused::Memory),
    }
}
