// Assignments.
ghost use Rattle.std.specs.Prelude.{◌≡◌, ◌∷◌, [], ◌<◌, length, map, IfOk, IsTrue};
ghost use Rattle.std.specs.List.{list_any};
ghost use Rattle.sw_parse_grammar.specs.Grammar.{member, many};
ghost use Rattle.sw_parse_table.specs.Parts.{Place, States, places_of};
ghost use Rattle.sw_parse_table.specs.Sources.{terminal_at, span_between};
ghost use Rattle.sw_parse_table.specs.Statements.{set, assigned, owner};
ghost use Rattle.sw_parse_table.specs.Actions.{name_at, stands_at, flags_at, to_set, to_owner, to_assigned};
ghost use Rattle.sw_parse_table.specs.Reads.{reader, reads, Reads};
ghost use Rattle.sw_parse_statement_heads.specs.Rows.{flag_words, flag_row, valued_row, valued_parts, owned_part, owned_parts, owned_row, set_row};

use crate::at::{added, ended, namespaced};
use crate::value::colon_value_at;
use std::alloc::Global;
use sw_parse_expr_nodes::{given_up, kept, skipped};
use sw_parse_grammar::ReadError;
use sw_parse_statement_text::dollar_name_at;
use sw_parse_table::{Source, bytes_at, found, is_at, span_between};
use sw_parse_terminals::Terminal;
use sw_text::{List, Memory, Name, Span};
use sw_tree::{Assignment, Expr, Flags, Qualified, Statement, Variable};

/// What is assigned to.
#[derive(Clone, Copy, Debug)]
pub(crate) enum Target {
    /// A variable of the sheet, which may be global.
    Own,
    /// A variable of another module.
    Foreign,
}

/// A value that is assigned, and the places of the words of its flags.
#[derive(Drop)]
pub(crate) struct Assigned {
    pub value: Expr,
    pub flags: List<usize>,
}

/// A variable of another module, and where it stands.
#[derive(Drop)]
pub(crate) struct Owned {
    pub target: Qualified,
    pub span: Span,
}

/// What is assigned to a variable of another module.
#[derive(Drop)]
pub(crate) struct OwnedValue {
    pub owned: Owned,
    pub assigned: Assigned,
}

fn is_flag(source: &Source, at: usize, target: Target) -> bool
    ensures test { result ≡ member (terminal_at source.now at) (flag_words target) }
    ensures within { IsTrue result → at < length source.now.lexemes.now }
{
    match target {
        Target::Own => {
            is_at(source, at, Terminal::Default) || is_at(source, at, Terminal::Global)
        }
        Target::Foreign => is_at(source, at, Terminal::Default),
    }
}

/// A flag: the place of its word.
#[tactic(auto, unfolding(sw_parse_grammar::specs::Readers::parse))]
fn flag_at(
    source: &Source,
    levels: u8,
    at: usize,
    target: Target,
) -> Result<(usize, usize), ReadError>
    ensures { Reads (λ place. Place place ∷ []) result (reader source.now levels (flag_row target) at) }
{
    if !is_at(source, at, Terminal::Ending) {
        return Err(ReadError::Unexpected(at));
    }
    if !is_flag(source, at + 1, target) {
        return Err(ReadError::Unexpected(at + 1));
    }
    Ok((at + 1, at + 2))
}

/// All flags.
#[tactic(auto, unfolding(sw_parse_grammar::specs::Readers::parse))]
fn flags_at(
    alloc: Global,
    source: &Source,
    levels: u8,
    at: usize,
    target: Target,
) -> Result<(List<usize>, usize), ReadError>
    ensures { Reads (λ list. map Place list) result (reader source.now levels (many (flag_row target)) at) }
{
    let mut list = List::new(alloc);
    let mut place = at;
    'items: while is_at(source, place, Terminal::Ending) {
        let (item, next) = flag_at(source, levels, place, target)?;
        added(&mut list, item)?;
        place = next;
    }
    Ok((list, place))
}

/// A value behind a `:`, with its flags.
#[tactic(auto, unfolding(sw_parse_grammar::specs::Readers::parse))]
fn assigned_value_at(
    alloc: Global,
    source: &Source,
    levels: u8,
    at: usize,
    target: Target,
) -> Result<(Assigned, usize), ReadError>
    ensures { Reads valued_parts result (reader source.now levels (valued_row source.now target) at) }
{
    let (value, place) = colon_value_at(alloc, source, levels, at)?;
    match flags_at(alloc, source, levels, place, target) {
        Ok((flags, next)) => Ok((Assigned { value, flags }, next)),
        Err(error) => Err(given_up(value, error)),
    }
}

fn is_flagged(source: &Source, places: &[usize], flag: Terminal) -> bool
    ensures { result ≡ list_any (λ at. stands_at source.now at flag) places.now }
{
    places.iter().any(|at| is_at(source, *at, flag))
}

fn flags_of(source: &Source, places: &List<usize>) -> Flags
    ensures { result ≡ flags_at source.now (places_of (map Place places.now)) }
{
    Flags {
        default: is_flagged(source, places.as_slice(), Terminal::Default),
        global: is_flagged(source, places.as_slice(), Terminal::Global),
    }
}

fn name_of(
    alloc: Global,
    source: &Source,
    at: usize,
    place: usize,
    name: usize,
) -> Result<(Name, Span), Memory>
    ensures name { IfOk result (λ both. both.0 ≡ name_at source.now name) }
    ensures span { IfOk result (λ both. both.1 ≡ span_between source.now at place) }
{
    let span = span_between(source, at, place)?;
    Ok((Name::dashed(alloc, bytes_at(source, name))?, span))
}

fn set_of(
    alloc: Global,
    source: &Source,
    at: usize,
    place: usize,
    name: usize,
    assigned: Assigned,
) -> Result<Statement, Memory>
    ensures { IfOk result (λ statement. to_set source.now at place (Place name ∷ valued_parts assigned) ≡ States statement
        ∷ []) }
{
    let Assigned {
        value,
        flags: places,
    } = assigned;
    let flags = flags_of(source, &places);
    match name_of(alloc, source, at, place, name) {
        Ok((name, span)) => Ok(Statement::Variable(Variable {
            name,
            value,
            flags,
            span,
        })),
        Err(error) => Err(given_up(value, error)),
    }
}

/// A name with a value, up to the end of the statement.
#[tactic(auto, unfolding(sw_parse_grammar::specs::Readers::parse))]
fn named_value_at(
    alloc: Global,
    source: &Source,
    levels: u8,
    at: usize,
) -> Result<((usize, Assigned), usize), ReadError>
    ensures { Reads (λ read. Place read.0 ∷ valued_parts read.1) result (reader source.now levels (set_row source.now)
        at) }
{
    let (name, place) = dollar_name_at(source, levels, at)?;
    let (assigned, place) = assigned_value_at(alloc, source, levels, place, Target::Own)?;
    Ok(((name, assigned), place))
}

/// `$name: value` with its flags, and its end.
#[tactic(auto, unfolding(sw_parse_grammar::specs::Readers::parse, sw_parse_table::specs::Statements::set, sw_parse_table::specs::Statements::flag))]
pub fn set_at(
    alloc: Global,
    source: &Source,
    levels: u8,
    at: usize,
) -> Result<(Statement, usize), ReadError>
    ensures { Reads (λ statement. States statement ∷ []) result (reads source.now levels set at) }
{
    let (named, place) = named_value_at(alloc, source, levels, at)?;
    let (name, assigned) = named;
    let statement = found(set_of(alloc, source, at, place, name, assigned))?;
    ended(source, levels, place, statement)
}

fn owned_of(
    alloc: Global,
    source: &Source,
    at: usize,
    place: usize,
    namespace: usize,
    name: usize,
) -> Result<Owned, Memory>
    ensures { IfOk result (λ owned. to_owner source.now at place (Place namespace ∷ Place name ∷ []) ≡ owned_part owned
        ∷ []) }
{
    let span = span_between(source, at, place)?;
    let namespace = namespaced(alloc, source, namespace)?;
    let name = Name::dashed(alloc, bytes_at(source, name))?;
    Ok(Owned {
        target: Qualified { namespace, name },
        span,
    })
}

/// `namespace.$name`
#[tactic(auto, unfolding(sw_parse_grammar::specs::Readers::parse, sw_parse_table::specs::Statements::owner))]
fn owner_at(
    alloc: Global,
    source: &Source,
    levels: u8,
    at: usize,
) -> Result<(Owned, usize), ReadError>
    ensures { Reads (λ owned. owned_part owned ∷ []) result (reads source.now levels owner at) }
{
    let (namespace, place) = kept(source, levels, at, Terminal::Owner)?;
    let place = skipped(source, levels, place, Terminal::OwnerDot)?;
    let place = skipped(source, levels, place, Terminal::OwnerDollar)?;
    let (name, place) = kept(source, levels, place, Terminal::VariableName)?;
    let owned = found(owned_of(alloc, source, at, place, namespace, name))?;
    Ok((owned, place))
}

/// `namespace.$name` with a value, up to the end of the statement.
#[tactic(auto, unfolding(sw_parse_grammar::specs::Readers::parse))]
fn owned_value_at(
    alloc: Global,
    source: &Source,
    levels: u8,
    at: usize,
) -> Result<(OwnedValue, usize), ReadError>
    ensures { Reads owned_parts result (reader source.now levels (owned_row source.now) at) }
{
    let (owned, place) = owner_at(alloc, source, levels, at)?;
    match assigned_value_at(alloc, source, levels, place, Target::Foreign) {
        Ok((assigned, next)) => Ok((OwnedValue { owned, assigned }, next)),
        Err(error) => Err(given_up(owned, error)),
    }
}

fn assigned_of(
    source: &Source,
    at: usize,
    place: usize,
    read: OwnedValue,
) -> Result<Statement, Memory>
    ensures { IfOk result (λ statement. to_assigned source.now at place (owned_parts read) ≡ States statement ∷ []) }
{
    let OwnedValue { owned, assigned } = read;
    let Assigned {
        value,
        flags: places,
    } = assigned;
    let flags = flags_of(source, &places);
    match span_between(source, at, place) {
        Ok(span) => {
            let Owned {
                target,
                span: target_span,
            } = owned;
            Ok(Statement::Assignment(Assignment {
                target,
                target_span,
                value,
                flags,
                span,
            }))
        }
        Err(error) => Err(given_up((owned, value), error)),
    }
}

/// `namespace.$name: value` with its flags, and its end.
#[tactic(auto, unfolding(sw_parse_grammar::specs::Readers::parse, sw_parse_table::specs::Statements::assigned, sw_parse_table::specs::Statements::default_flag))]
pub fn assigned_at(
    alloc: Global,
    source: &Source,
    levels: u8,
    at: usize,
) -> Result<(Statement, usize), ReadError>
    ensures { Reads (λ statement. States statement ∷ []) result (reads source.now levels assigned at) }
{
    let (read, place) = owned_value_at(alloc, source, levels, at)?;
    let statement = found(assigned_of(source, at, place, read))?;
    ended(source, levels, place, statement)
}
