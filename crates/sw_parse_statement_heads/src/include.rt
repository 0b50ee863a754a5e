// The head of an include.
ghost use Rattle.std.specs.Prelude.{◌≡◌, ◌∷◌, [], ◌++◌, IfOk};
ghost use Rattle.sw_parse_table.specs.Parts.{Place, Includes};
ghost use Rattle.sw_parse_table.specs.Sources.{span_between};
ghost use Rattle.sw_parse_table.specs.Values.{namespaced};
ghost use Rattle.sw_parse_table.specs.Statements.{include_name};
ghost use Rattle.sw_parse_table.specs.Actions.{mixin_of, to_include_name};
ghost use Rattle.sw_parse_table.specs.Reads.{reader, reads, Reads};
ghost use Rattle.sw_parse_statement_text.specs.Rows.{place_in};
ghost use Rattle.sw_parse_statement_heads.specs.Heads.{ReadsHead};
ghost use Rattle.sw_parse_statement_heads.specs.CallableHeads.{arguments_parts, params_in, passed_row, include_head, include_parts};
ghost use Rattle.sw_parse_statement_heads.specs.CallableRows.{mixin_name_row, namespace_in};

use crate::arguments::optional_arguments_at;
use crate::namespaced;
use crate::param::using_at;
use std::alloc::Global;
use sw_parse_expr_nodes::{given_up, kept, skipped};
use sw_parse_grammar::ReadError;
use sw_parse_table::{Source, bytes_at, found, is_at, span_between};
use sw_parse_terminals::Terminal;
use sw_text::{List, Memory, Name};
use sw_tree::{Argument, Mixin, Namespaced, Params};

/// What stands before the block of an include, or before its end.
#[derive(Drop)]
pub struct IncludeHead {
    /// The mixin without its arguments.
    pub mixin: Mixin,
    /// The arguments, where parentheses are written.
    pub arguments: Option<List<Argument>>,
    /// The parameters of the block behind `using`.
    pub params: Option<Params>,
}

/// What is passed to a mixin.
#[derive(Drop)]
pub(crate) struct Passed {
    pub arguments: Option<List<Argument>>,
    pub params: Option<Params>,
}

/// The places of the namespace, where one is written, and of the name of a mixin.
#[tactic(auto, unfolding(sw_parse_grammar::specs::Readers::parse))]
fn mixin_name_at(
    source: &Source,
    levels: u8,
    at: usize,
) -> Result<((Option<usize>, usize), usize), ReadError>
    ensures { Reads (λ read. place_in read.0 ++ Place read.1 ∷ []) result (reader source.now levels mixin_name_row at) }
{
    if is_at(source, at, Terminal::Named) {
        return Ok(((None, at), at + 1));
    }
    let (namespace, place) = kept(source, levels, at, Terminal::Owner)?;
    let place = skipped(source, levels, place, Terminal::OwnerDot)?;
    let (name, place) = kept(source, levels, place, Terminal::Named)?;
    Ok(((Some(namespace), name), place))
}

fn namespace_in(
    alloc: Global,
    source: &Source,
    place: Option<usize>,
) -> Result<Option<Namespaced>, Memory>
    ensures { IfOk result (λ namespace. namespace ≡ namespace_in source.now place) }
{
    match place {
        None => Ok(None),
        Some(at) => Ok(Some(namespaced(alloc, source, at)?)),
    }
}

fn mixin_by(
    alloc: Global,
    source: &Source,
    at: usize,
    place: usize,
    namespace: Option<usize>,
    name: usize,
) -> Result<Mixin, Memory>
    ensures { IfOk result (λ mixin. mixin ≡ mixin_of source.now (namespace_in source.now namespace) name (span_between
        source.now at place) []) }
{
    let name_span = span_between(source, at, place)?;
    let namespace = namespace_in(alloc, source, namespace)?;
    Ok(Mixin {
        namespace,
        name: Name::dashed(alloc, bytes_at(source, name))?,
        name_span,
        arguments: List::new(alloc),
    })
}

#[tactic(auto, using(crate::proofs::CallableParts::mixin_is))]
fn mixin_of(
    alloc: Global,
    source: &Source,
    at: usize,
    place: usize,
    names: (Option<usize>, usize),
) -> Result<Mixin, Memory>
    ensures { IfOk result (λ mixin. to_include_name source.now at place (place_in names.0 ++ Place names.1 ∷ [])
        ≡ Includes mixin ∷ []) }
{
    mixin_by(alloc, source, at, place, names.0, names.1)
}

/// The mixin that is included, without its arguments.
#[tactic(auto, unfolding(sw_parse_grammar::specs::Readers::parse, sw_parse_table::specs::Statements::include_name))]
fn include_name_at(
    alloc: Global,
    source: &Source,
    levels: u8,
    at: usize,
) -> Result<(Mixin, usize), ReadError>
    ensures { Reads (λ mixin. Includes mixin ∷ []) result (reads source.now levels include_name at) }
{
    let (names, place) = mixin_name_at(source, levels, at)?;
    let mixin = found(mixin_of(alloc, source, at, place, names))?;
    Ok((mixin, place))
}

/// What is passed to a mixin: arguments, and the parameters of a block.
#[tactic(auto, unfolding(sw_parse_grammar::specs::Readers::parse))]
fn passed_at(
    alloc: Global,
    source: &Source,
    levels: u8,
    at: usize,
) -> Result<(Passed, usize), ReadError>
    ensures { Reads (λ passed. arguments_parts passed.arguments ++ params_in passed.params) result (reader source.now
        levels (passed_row source.now) at) }
{
    let (arguments, place) = optional_arguments_at(alloc, source, levels, at)?;
    match using_at(alloc, source, levels, place) {
        Ok((params, next)) => Ok((Passed { arguments, params }, next)),
        Err(error) => Err(given_up(arguments, error)),
    }
}

/// `@include name(..) using (..)`
#[tactic(auto, unfolding(sw_parse_grammar::specs::Readers::parse))]
pub fn include_head_at(
    alloc: Global,
    source: &Source,
    levels: u8,
    at: usize,
) -> Result<(IncludeHead, usize), ReadError>
    ensures { ReadsHead include_parts result (reader source.now levels (include_head source.now) at) }
{
    let place = skipped(source, levels, at, Terminal::AtInclude)?;
    let (mixin, place) = include_name_at(alloc, source, levels, place)?;
    match passed_at(alloc, source, levels, place) {
        Ok((passed, next)) => {
            let Passed { arguments, params } = passed;
            let head = IncludeHead {
                mixin,
                arguments,
                params,
            };
            Ok((head, next))
        }
        Err(error) => Err(given_up(mixin, error)),
    }
}
