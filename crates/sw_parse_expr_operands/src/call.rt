// Words, and calls of functions.
ghost use Rattle.std.specs.Prelude.{◌≡◌, ◌∷◌, [], IfOk, IfErr, None};
ghost use Rattle.sw_tree.specs.declared.expr.ExprKind.TheVariants as exprs;
ghost use Rattle.sw_parse_table.specs.Parts.{Texts, Values, Arguments};
ghost use Rattle.sw_parse_table.specs.Sources.{span_between};
ghost use Rattle.sw_parse_table.specs.Values.{value_of, callee_of, to_called};
ghost use Rattle.sw_parse_table.specs.Expressions.{called};
ghost use Rattle.sw_parse_table.specs.Reads.{reads, ReadsValue};
ghost use Rattle.sw_parse_expr_lists.specs.Deeper.{Callable, Reading};

use std::alloc::Global;
use sw_parse_expr_lists::{arguments_in_at, word_at};
use sw_parse_grammar::ReadError;
use sw_parse_table::{Source, found, is_at, span_between};
use sw_parse_terminals::Terminal;
use sw_text::{List, Memory, Shared};
use sw_tree::{Argument, Callee, Expr, ExprKind, Namespaced, Text};

fn word_value(name: Text) -> Expr
    ensures { value_of (exprs.Word name.parts) name.span ≡ Values result ∷ [] }
{
    Expr {
        kind: ExprKind::Word(name.parts),
        span: name.span,
    }
}

/// A call of this function with these arguments.
pub(crate) fn call_of(
    alloc: Global,
    source: &Source,
    at: usize,
    place: usize,
    callee: Callee,
    arguments: List<Argument>,
) -> Result<Expr, Memory>
    ensures { IfOk result (λ value. value_of (exprs.Call callee arguments)
        (span_between source.now at place) ≡ Values value ∷ []) }
{
    let callee = Shared::new(alloc, callee)?;
    let span = span_between(source, at, place)?;
    Ok(Expr {
        kind: ExprKind::Call { callee, arguments },
        span,
    })
}

fn callee_of(namespace: Option<Namespaced>, name: Text) -> Callee
    ensures { result ≡ callee_of namespace name }
{
    Callee { namespace, name }
}

fn call_read(
    alloc: Global,
    source: &Source,
    at: usize,
    place: usize,
    name: Text,
    arguments: List<Argument>,
) -> Result<Expr, ReadError>
    ensures made { IfOk result (λ value. to_called source.now at place (Texts name ∷ Arguments arguments
        ∷ []) ≡ Values value ∷ []) }
    ensures memory { IfErr result (λ error. error ≡ ReadError.Memory) }
{
    found(call_of(alloc, source, at, place, callee_of(None, name), arguments))
}

/// A word, or a call of the function that it names.
pub fn called_at<F: Fn(u8, usize) -> Result<(Expr, usize), ReadError> + Copy>(
    alloc: Global,
    deeper: F,
    source: &Source,
    levels: u8,
    at: usize,
) -> Result<(Expr, usize), ReadError>
    requires callable { Callable (F.Fn.pre deeper) levels }
    requires reading { Reading (F.Fn.post deeper) source.now levels }
    ensures { ReadsValue result (reads source.now levels called at) }
{
    let (name, place) = word_at(alloc, deeper, source, levels, at)?;
    if !is_at(source, place, Terminal::CallParen) {
        return Ok((word_value(name), place));
    }
    let (arguments, place) = arguments_in_at(alloc, deeper, source, levels, place)?;
    let value = call_read(alloc, source, at, place, name, arguments)?;
    Ok((value, place))
}
