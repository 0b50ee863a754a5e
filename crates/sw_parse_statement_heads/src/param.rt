// The parameters of functions, mixins and blocks.
ghost use Rattle.std.specs.Prelude.{◌≡◌, ◌∷◌, [], ◌++◌, map, IfOk, IfErr, OnOk};
ghost use Rattle.sw_parse_grammar.specs.Grammar.{sep};
ghost use Rattle.sw_parse_terminals.specs.declared.terminal.Terminal.TheVariants.{Comma};
ghost use Rattle.sw_parse_terminals.specs.Numbers.{just};
ghost use Rattle.sw_parse_table.specs.Parts.{Place, Parameters};
ghost use Rattle.sw_parse_table.specs.Actions.{params_with, to_param};
ghost use Rattle.sw_parse_table.specs.Expressions.{colon_space};
ghost use Rattle.sw_parse_table.specs.Statements.{param, taking, params, using};
ghost use Rattle.sw_parse_table.specs.Reads.{reader, reads, Reads};
ghost use Rattle.sw_parse_statement_heads.specs.CallableHeads.{params_in, optional_params};
ghost use Rattle.sw_parse_statement_heads.specs.CallableRows.{dots_row, behind_name, behind_parts, named_part, parameter_part, several_row, listed_row, using_row, taken, rest_else};

use crate::arguments::colon_space_at;
use std::alloc::Global;
use sw_parse_expr_nodes::{given_up, is_dollar, skipped};
use sw_parse_grammar::ReadError;
use sw_parse_statement_text::dollar_name_at;
use sw_parse_table::{Source, bytes_at, found, is_at};
use sw_parse_terminals::Terminal;
use sw_text::{List, Memory, Name};
use sw_tree::{Expr, Param, Params};

/// What stands behind the name of a parameter.
#[derive(Drop)]
pub(crate) enum BehindName {
    Nothing,
    /// A value behind `:`.
    Default(Expr),
    /// `...` at a place.
    Rest(usize),
}

/// A parameter, or the one that takes the rest of the arguments.
#[derive(Drop)]
pub(crate) enum Parameter {
    Taken(Param),
    Rest(Name),
}

/// A value behind the name of a parameter.
fn default_at(
    alloc: Global,
    source: &Source,
    levels: u8,
    at: usize,
) -> Result<(BehindName, usize), ReadError>
    ensures { Reads behind_parts result (reads source.now levels colon_space at) }
{
    let (value, place) = colon_space_at(alloc, source, levels, at)?;
    Ok((BehindName::Default(value), place))
}

/// `...` behind the name of a parameter, where it stands.
#[tactic(auto, unfolding(sw_parse_grammar::specs::Readers::parse))]
fn dots_at(source: &Source, levels: u8, at: usize) -> Result<(BehindName, usize), ReadError>
    ensures { Reads behind_parts result (reader source.now levels dots_row at) }
{
    if is_at(source, at, Terminal::Ellipsis) {
        Ok((BehindName::Rest(at), at + 1))
    } else {
        Ok((BehindName::Nothing, at))
    }
}

/// What stands behind the name of a parameter.
fn behind_name_at(
    alloc: Global,
    source: &Source,
    levels: u8,
    at: usize,
) -> Result<(BehindName, usize), ReadError>
    ensures { Reads behind_parts result (reader source.now levels (behind_name source.now) at) }
{
    if is_at(source, at, Terminal::Colon) {
        default_at(alloc, source, levels, at)
    } else {
        dots_at(source, levels, at)
    }
}

/// A parameter of a name.
fn parameter_by(name: Name, behind: BehindName) -> Parameter
    ensures { parameter_part result ≡ named_part name behind }
{
    match behind {
        BehindName::Nothing => Parameter::Taken(Param {
            name,
            default: None,
        }),
        BehindName::Default(value) => Parameter::Taken(Param {
            name,
            default: Some(value),
        }),
        BehindName::Rest(_) => Parameter::Rest(name),
    }
}

#[tactic(auto, using(crate::proofs::CallableParts::param_is))]
fn parameter_of(
    alloc: Global,
    source: &Source,
    at: usize,
    place: usize,
    name: usize,
    behind: BehindName,
) -> Result<Parameter, Memory>
    ensures { IfOk result (λ item. to_param source.now at place (Place name ∷ behind_parts behind) ≡ parameter_part item
        ∷ []) }
{
    match Name::dashed(alloc, bytes_at(source, name)) {
        Ok(name) => Ok(parameter_by(name, behind)),
        Err(error) => Err(given_up(behind, error)),
    }
}

/// A parameter.
#[tactic(auto, unfolding(sw_parse_grammar::specs::Readers::parse, sw_parse_table::specs::Statements::param))]
fn param_at(
    alloc: Global,
    source: &Source,
    levels: u8,
    at: usize,
) -> Result<(Parameter, usize), ReadError>
    ensures { Reads (λ item. parameter_part item ∷ []) result (reads source.now levels param at) }
{
    let (name, place) = dollar_name_at(source, levels, at)?;
    let (behind, place) = behind_name_at(alloc, source, levels, place)?;
    let item = found(parameter_of(alloc, source, at, place, name, behind))?;
    Ok((item, place))
}

fn added(list: &mut List<Parameter>, item: Parameter) -> Result<(), ReadError>
    ensures more { OnOk result (map parameter_part list.new ≡ map parameter_part list.old ++ parameter_part item ∷ []) }
    ensures memory { IfErr result (λ error. error ≡ ReadError.Memory) }
{
    found(list.push(item))
}

/// Further parameters, each behind a `,`, which may stand behind the last one too.
#[tactic(auto, unfolding(sw_parse_grammar::specs::Readers::parse))]
fn more_params_at(
    alloc: Global,
    source: &Source,
    levels: u8,
    at: usize,
) -> Result<(List<Parameter>, usize), ReadError>
    ensures { Reads (λ list. map parameter_part list) result (reader source.now levels (sep (just Comma) (param
        source.now)) at) }
{
    let mut list = List::new(alloc);
    let mut place = at;
    'items: while is_at(source, place, Terminal::Comma) {
        if !is_dollar(source, place + 1) {
            return Ok((list, place + 1));
        }
        let (item, next) = param_at(alloc, source, levels, place + 1)?;
        added(&mut list, item)?;
        place = next;
    }
    Ok((list, place))
}

fn all_of(first: Parameter, rest: List<Parameter>) -> Result<List<Parameter>, Memory>
    ensures { IfOk result (λ list. map parameter_part list ≡ parameter_part first ∷ map parameter_part rest) }
{
    let mut list = rest.into_vec();
    list.insert(0, first)?;
    Ok(List::from_vec(list))
}

/// All parameters, of which there is at least one.
#[tactic(auto, unfolding(sw_parse_grammar::specs::Readers::parse))]
fn several_at(
    alloc: Global,
    source: &Source,
    levels: u8,
    at: usize,
) -> Result<(List<Parameter>, usize), ReadError>
    ensures { Reads (λ list. map parameter_part list) result (reader source.now levels (several_row source.now) at) }
{
    let (first, place) = param_at(alloc, source, levels, at)?;
    let (rest, place) = more_params_at(alloc, source, levels, place)?;
    let list = found(all_of(first, rest))?;
    Ok((list, place))
}

/// All parameters, where any are written.
fn listed_at(
    alloc: Global,
    source: &Source,
    levels: u8,
    at: usize,
) -> Result<(List<Parameter>, usize), ReadError>
    ensures { Reads (λ list. map parameter_part list) result (reader source.now levels (listed_row source.now) at) }
{
    if !is_dollar(source, at) {
        return Ok((List::new(alloc), at));
    }
    several_at(alloc, source, levels, at)
}

/// Takes in a parameter that stands before those that were taken in.
fn take(items: &mut List<Param>, rest: &mut Option<Name>, item: Parameter) -> Result<(), Memory>
    ensures items { OnOk result (items.new ≡ items.old ++ taken item) }
    ensures rest { OnOk result (rest.new ≡ rest_else rest.old (item ∷ [])) }
{
    match item {
        Parameter::Taken(param) => items.push(param),
        Parameter::Rest(name) => {
            *rest = Some(name);
            Ok(())
        }
    }
}

/// The parameters of a list.
#[tactic(auto, using(crate::proofs::Taken::rest_is))]
fn params_of(alloc: Global, list: List<Parameter>) -> Result<Params, Memory>
    ensures { IfOk result (λ read. params_with (map parameter_part list) ≡ read) }
{
    let mut left = list;
    let mut items = List::new(alloc);
    let mut rest = None;
    'items: while let Some(last) = left.pop() {
        take(&mut items, &mut rest, last)?;
    }
    let mut items = items.into_vec();
    items.reverse();
    Ok(Params {
        items: List::from_vec(items),
        rest,
    })
}

/// What stands in the parentheses.
#[tactic(auto, unfolding(sw_parse_grammar::specs::Readers::parse, sw_parse_table::specs::Statements::taking))]
fn taking_at(
    alloc: Global,
    source: &Source,
    levels: u8,
    at: usize,
) -> Result<(Params, usize), ReadError>
    ensures { Reads (λ read. Parameters read ∷ []) result (reads source.now levels taking at) }
{
    let (list, place) = listed_at(alloc, source, levels, at)?;
    let read = found(params_of(alloc, list))?;
    Ok((read, place))
}

/// Parameters in their parentheses, which open a level.
#[tactic(auto, unfolding(sw_parse_grammar::specs::Readers::parse, sw_parse_table::specs::Statements::params))]
pub fn params_at(
    alloc: Global,
    source: &Source,
    levels: u8,
    at: usize,
) -> Result<(Params, usize), ReadError>
    ensures { Reads (λ read. Parameters read ∷ []) result (reads source.now levels params at) }
{
    if !is_at(source, at, Terminal::HeadParen) {
        return Err(ReadError::Unexpected(at));
    }
    if levels == 0 {
        return Err(ReadError::TooDeep(at));
    }
    let (read, place) = taking_at(alloc, source, levels - 1, at + 1)?;
    if !is_at(source, place, Terminal::ParenEnd) {
        return Err(ReadError::Unexpected(place));
    }
    Ok((read, place + 1))
}

/// Parameters in their parentheses, where these stand.
pub(crate) fn optional_params_at(
    alloc: Global,
    source: &Source,
    levels: u8,
    at: usize,
) -> Result<(Option<Params>, usize), ReadError>
    ensures { Reads params_in result (reader source.now levels (optional_params source.now) at) }
{
    if !is_at(source, at, Terminal::HeadParen) {
        return Ok((None, at));
    }
    let (read, place) = params_at(alloc, source, levels, at)?;
    Ok((Some(read), place))
}

/// `using` and the parameters behind it.
#[tactic(auto, unfolding(sw_parse_grammar::specs::Readers::parse))]
fn worded_params_at(
    alloc: Global,
    source: &Source,
    levels: u8,
    at: usize,
) -> Result<(Params, usize), ReadError>
    ensures { Reads (λ read. Parameters read ∷ []) result (reader source.now levels (using_row source.now) at) }
{
    let place = skipped(source, levels, at, Terminal::Using)?;
    params_at(alloc, source, levels, place)
}

/// `using (..)` behind an include, where it stands: the parameters of its block.
pub fn using_at(
    alloc: Global,
    source: &Source,
    levels: u8,
    at: usize,
) -> Result<(Option<Params>, usize), ReadError>
    ensures { Reads params_in result (reads source.now levels using at) }
{
    if !is_at(source, at, Terminal::Using) {
        return Ok((None, at));
    }
    let (read, place) = worded_params_at(alloc, source, levels, at)?;
    Ok((Some(read), place))
}
