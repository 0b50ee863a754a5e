// Variables and calls behind a namespace.
ghost use Rattle.std.specs.Prelude.{◌≡◌, ◌∷◌, [], IfOk, IfErr, Some};
ghost use Rattle.sw_parse_table.specs.Parts.{Place, Texts, Values, Arguments};
ghost use Rattle.sw_parse_table.specs.Values.{namespaced, callee_of, to_owned};
ghost use Rattle.sw_parse_table.specs.Expressions.{owned, owned_variable, owned_call};
ghost use Rattle.sw_parse_table.specs.Reads.{reads, Reads, ReadsValue};
ghost use Rattle.sw_parse_expr_lists.specs.Deeper.{Callable, Reading};

use crate::call::call_of;
use std::alloc::Global;
use sw_parse_expr_lists::{arguments_in_at, word_at};
use sw_parse_expr_nodes::{kept, skipped};
use sw_parse_grammar::ReadError;
use sw_parse_table::{Source, bytes_at, found, is_at, span_at, span_between};
use sw_parse_terminals::Terminal;
use sw_text::{List, Memory, Name, Shared};
use sw_tree::{Argument, Callee, Expr, ExprKind, Namespaced, Qualified, Text};

fn namespaced(alloc: Global, source: &Source, at: usize) -> Result<Namespaced, Memory>
    ensures { IfOk result (λ namespace. namespace ≡ namespaced source.now at) }
{
    let span = span_at(source, at)?;
    Ok(Namespaced {
        name: Name::new(alloc, bytes_at(source, at))?,
        span,
    })
}

fn qualified_of(
    alloc: Global,
    source: &Source,
    at: usize,
    place: usize,
    namespace: usize,
    name: usize,
) -> Result<Expr, Memory>
    ensures { IfOk result (λ value. to_owned source.now at place (Place namespace ∷ Place name ∷ []) ≡ Values value
        ∷ []) }
{
    let span = span_between(source, at, place)?;
    let namespace = namespaced(alloc, source, namespace)?;
    let name = Name::dashed(alloc, bytes_at(source, name))?;
    let qualified = Shared::new(alloc, Qualified { namespace, name })?;
    Ok(Expr {
        kind: ExprKind::Qualified(qualified),
        span,
    })
}

fn callee_of(alloc: Global, source: &Source, namespace: usize, name: Text) -> Result<Callee, Memory>
    ensures { IfOk result (λ callee. callee ≡ callee_of (Some (namespaced source.now namespace)) name) }
{
    let namespace = namespaced(alloc, source, namespace)?;
    Ok(Callee {
        namespace: Some(namespace),
        name,
    })
}

/// `$` and a name, behind a namespace.
#[tactic(auto, unfolding(sw_parse_grammar::specs::Readers::parse, sw_parse_table::specs::Expressions::owned_variable))]
fn owned_variable_at(source: &Source, levels: u8, at: usize) -> Result<(usize, usize), ReadError>
    ensures { Reads (λ name. Place name ∷ []) result (reads source.now levels owned_variable at) }
{
    let place = skipped(source, levels, at, Terminal::OwnerDollar)?;
    kept(source, levels, place, Terminal::VariableName)
}

/// A word with arguments, behind a namespace.
#[tactic(auto, unfolding(sw_parse_grammar::specs::Readers::parse, sw_parse_table::specs::Expressions::owned_call))]
fn owned_call_at<F: Fn(u8, usize) -> Result<(Expr, usize), ReadError> + Copy>(
    alloc: Global,
    deeper: F,
    source: &Source,
    levels: u8,
    at: usize,
) -> Result<((Text, List<Argument>), usize), ReadError>
    requires callable { Callable (F.Fn.pre deeper) levels }
    requires reading { Reading (F.Fn.post deeper) source.now levels }
    ensures { Reads (λ call. Texts call.0 ∷ Arguments call.1 ∷ []) result (reads source.now levels owned_call at) }
{
    let (name, place) = word_at(alloc, deeper, source, levels, at)?;
    let (arguments, place) = arguments_in_at(alloc, deeper, source, levels, place)?;
    Ok(((name, arguments), place))
}

fn variable_read(
    alloc: Global,
    source: &Source,
    at: usize,
    place: usize,
    namespace: usize,
    name: usize,
) -> Result<Expr, ReadError>
    ensures made { IfOk result (λ value. to_owned source.now at place (Place namespace ∷ Place name ∷ []) ≡ Values value
        ∷ []) }
    ensures memory { IfErr result (λ error. error ≡ ReadError.Memory) }
{
    found(qualified_of(alloc, source, at, place, namespace, name))
}

fn owned_call_of(
    alloc: Global,
    source: &Source,
    at: usize,
    place: usize,
    namespace: usize,
    call: (Text, List<Argument>),
) -> Result<Expr, Memory>
    ensures { IfOk result (λ value. to_owned source.now at place (Place namespace ∷ Texts call.0 ∷ Arguments call.1
        ∷ []) ≡ Values value ∷ []) }
{
    let (name, arguments) = call;
    let callee = callee_of(alloc, source, namespace, name)?;
    call_of(alloc, source, at, place, callee, arguments)
}

fn call_read(
    alloc: Global,
    source: &Source,
    at: usize,
    place: usize,
    namespace: usize,
    call: (Text, List<Argument>),
) -> Result<Expr, ReadError>
    ensures made { IfOk result (λ value. to_owned source.now at place (Place namespace ∷ Texts call.0 ∷ Arguments call.1
        ∷ []) ≡ Values value ∷ []) }
    ensures memory { IfErr result (λ error. error ≡ ReadError.Memory) }
{
    found(owned_call_of(alloc, source, at, place, namespace, call))
}

/// A variable or a call behind a namespace.
#[tactic(auto, unfolding(sw_parse_grammar::specs::Readers::parse, sw_parse_table::specs::Expressions::owned, sw_parse_table::specs::Expressions::owned_variable))]
pub fn owned_at<F: Fn(u8, usize) -> Result<(Expr, usize), ReadError> + Copy>(
    alloc: Global,
    deeper: F,
    source: &Source,
    levels: u8,
    at: usize,
) -> Result<(Expr, usize), ReadError>
    requires callable { Callable (F.Fn.pre deeper) levels }
    requires reading { Reading (F.Fn.post deeper) source.now levels }
    ensures { ReadsValue result (reads source.now levels owned at) }
{
    let (namespace, place) = kept(source, levels, at, Terminal::Owner)?;
    let place = skipped(source, levels, place, Terminal::OwnerDot)?;
    if is_at(source, place, Terminal::OwnerDollar) {
        let (name, place) = owned_variable_at(source, levels, place)?;
        let value = variable_read(alloc, source, at, place, namespace, name)?;
        return Ok((value, place));
    }
    let (call, place) = owned_call_at(alloc, deeper, source, levels, place)?;
    let value = call_read(alloc, source, at, place, namespace, call)?;
    Ok((value, place))
}
