// `@forward`.
ghost use Rattle.std.specs.Prelude.{◌≡◌, ◌∷◌, [], ◌++◌, map, IfOk};
ghost use Rattle.sw_parse_table.specs.Parts.{Behind, States, Gives};
ghost use Rattle.sw_parse_table.specs.Sources.{bytes_at, span_between};
ghost use Rattle.sw_parse_table.specs.Statements.{forward, with_passed};
ghost use Rattle.sw_parse_table.specs.Expressions.{space};
ghost use Rattle.sw_parse_table.specs.Actions.{url_at, filter_by, to_forward};
ghost use Rattle.sw_parse_table.specs.Reads.{reader, reads, Reads, ReadsValue};
ghost use Rattle.sw_parse_statement_text.specs.Rows.{passed_in, passed_parts};
ghost use Rattle.sw_parse_statement_heads.specs.Heads.{ReadsHead};
ghost use Rattle.sw_parse_statement_heads.specs.Rows.{loaded_head, loaded_parts, passing_row, passing_parts, forward_row, forward_parts, forward_statement, prefix_in};

use crate::at::ended;
use std::alloc::Global;
use sw_expr_parse::read_space;
use sw_parse_expr_nodes::{given_up, kept, skipped};
use sw_parse_grammar::ReadError;
use sw_parse_statement_text::{Load, Passed, as_prefix_at, filter_at, with_at};
use sw_parse_table::{Source, bytes_at, decoded_at, found, is_at, span_at, span_between};
use sw_parse_terminals::Terminal;
use sw_text::{List, Memory, Name, Span};
use sw_tree::{Expr, Filter, Forward, Given, Member, Statement, Url};

/// What stands behind `@forward` before the names of members.
#[derive(Clone, Copy)]
pub(crate) struct Loaded {
    /// The place of the address.
    pub url: usize,
    /// The place of the prefix.
    pub prefix: Option<usize>,
}

/// What is passed on, and how it's configured.
#[derive(Drop)]
pub(crate) struct Passing {
    pub passed: Option<Passed>,
    pub configuration: List<Given>,
}

/// What stands behind `@forward`.
#[derive(Drop)]
pub(crate) struct Forwarded {
    pub loaded: Loaded,
    /// The place behind that.
    pub head: usize,
    pub passing: Passing,
}

/// `@forward` with its address and its prefix.
#[tactic(auto, unfolding(sw_parse_grammar::specs::Readers::parse))]
fn loaded_at(source: &Source, levels: u8, at: usize) -> Result<(Loaded, usize), ReadError>
    ensures { ReadsHead loaded_parts result (reader source.now levels (loaded_head source.now) at) }
{
    let place = skipped(source, levels, at, Terminal::AtForward)?;
    let (url, place) = kept(source, levels, place, Terminal::LoadUrl)?;
    let (prefix, place) = as_prefix_at(source, levels, place)?;
    Ok((Loaded { url, prefix }, place))
}

/// The configuration of `@forward`.
fn configuration_at(
    alloc: Global,
    source: &Source,
    levels: u8,
    at: usize,
) -> Result<(List<Given>, usize), ReadError>
    ensures { Reads (λ list. map Gives list) result (reads source.now levels with_passed at) }
{
    with_at(
        alloc,
        |lower: u8, place: usize| -> Result<(Expr, usize), ReadError>
            ensures { ReadsValue result (reads source.entry.now lower space place) }
        { read_space(alloc, source, lower, place) },
        source,
        levels,
        at,
        Load::Forward,
    )
}

/// Which members are passed on, and the configuration.
#[tactic(auto, unfolding(sw_parse_grammar::specs::Readers::parse))]
fn passing_at(
    alloc: Global,
    source: &Source,
    levels: u8,
    at: usize,
) -> Result<(Passing, usize), ReadError>
    ensures { Reads passing_parts result (reader source.now levels (passing_row source.now) at) }
{
    let (passed, place) = filter_at(alloc, source, levels, at)?;
    match configuration_at(alloc, source, levels, place) {
        Ok((configuration, next)) => Ok((
            Passing {
                passed,
                configuration,
            },
            next,
        )),
        Err(error) => Err(given_up(passed, error)),
    }
}

/// All that stands behind `@forward`.
#[tactic(auto, unfolding(sw_parse_grammar::specs::Readers::parse))]
fn forwarded_at(
    alloc: Global,
    source: &Source,
    levels: u8,
    at: usize,
) -> Result<(Forwarded, usize), ReadError>
    ensures { Reads forward_parts result (reader source.now levels (forward_row source.now) at) }
{
    let (loaded, head) = loaded_at(source, levels, at)?;
    let (passing, place) = passing_at(alloc, source, levels, head)?;
    let forwarded = Forwarded {
        loaded,
        head,
        passing,
    };
    Ok((forwarded, place))
}

fn url_at(alloc: Global, source: &Source, at: usize) -> Result<Url, Memory>
    ensures { IfOk result (λ url. url ≡ url_at source.now at) }
{
    let span = span_at(source, at)?;
    Ok(Url {
        text: decoded_at(alloc, source, at)?,
        span,
    })
}

fn prefix_in(alloc: Global, source: &Source, place: Option<usize>) -> Result<Option<Name>, Memory>
    ensures { IfOk result (λ prefix. prefix ≡ prefix_in source.now place) }
{
    match place {
        None => Ok(None),
        Some(at) => Ok(Some(Name::new(alloc, bytes_at(source, at))?)),
    }
}

fn members_of(first: Member, rest: List<Member>) -> Result<List<Member>, Memory>
    ensures { IfOk result (λ list. list ≡ first ∷ rest) }
{
    let mut list = rest.into_vec();
    list.insert(0, first)?;
    Ok(List::from_vec(list))
}

#[tactic(auto, using(crate::proofs::Forwards::members_of_members))]
fn shown_or_hidden(source: &Source, passed: Passed) -> Result<Filter, Memory>
    ensures { IfOk result (λ filter. filter ≡ filter_by source.now (passed_parts passed)) }
{
    let Passed { word, first, rest } = passed;
    let members = members_of(first, rest)?;
    if is_at(source, word, Terminal::Show) {
        Ok(Filter::Show(members))
    } else {
        Ok(Filter::Hide(members))
    }
}

fn filter_of(source: &Source, passed: Option<Passed>) -> Result<Filter, Memory>
    ensures { IfOk result (λ filter. filter ≡ filter_by source.now (passed_in passed)) }
{
    match passed {
        None => Ok(Filter::All),
        Some(passed) => shown_or_hidden(source, passed),
    }
}

/// What `@forward` says but for its members and its configuration.
#[derive(Drop)]
struct Head {
    url: Url,
    prefix: Option<Name>,
    span: Span,
}

fn head_of(
    alloc: Global,
    source: &Source,
    at: usize,
    place: usize,
    loaded: Loaded,
) -> Result<Head, Memory>
    ensures url { IfOk result (λ head. head.url ≡ url_at source.now loaded.url) }
    ensures prefix { IfOk result (λ head. head.prefix ≡ prefix_in source.now loaded.prefix) }
    ensures span { IfOk result (λ head. head.span ≡ span_between source.now at place) }
{
    let url = url_at(alloc, source, loaded.url)?;
    let prefix = prefix_in(alloc, source, loaded.prefix)?;
    Ok(Head {
        url,
        prefix,
        span: span_between(source, at, place)?,
    })
}

fn forward_by(source: &Source, head: Head, passing: Passing) -> Result<Statement, Memory>
    ensures { IfOk result (λ statement. forward_statement head.url head.prefix (filter_by source.now (passed_in
        passing.passed)) passing.configuration head.span ≡ statement) }
{
    let Passing {
        passed,
        configuration,
    } = passing;
    match filter_of(source, passed) {
        Ok(filter) => {
            let Head { url, prefix, span } = head;
            Ok(Statement::Forward(Forward {
                url,
                prefix,
                filter,
                configuration,
                span,
            }))
        }
        Err(error) => Err(given_up((head, configuration), error)),
    }
}

#[tactic(auto, using(crate::proofs::Forwards::forward_is))]
fn forward_of(
    alloc: Global,
    source: &Source,
    at: usize,
    place: usize,
    read: Forwarded,
) -> Result<Statement, Memory>
    ensures { IfOk result (λ statement. to_forward source.now at place (forward_parts read) ≡ States statement ∷ []) }
{
    match head_of(alloc, source, at, place, read.loaded) {
        Ok(head) => forward_by(source, head, read.passing),
        Err(error) => Err(given_up(read, error)),
    }
}

/// `@forward` with its prefix, its names and its configuration, and its end.
#[tactic(auto, unfolding(sw_parse_grammar::specs::Readers::parse, sw_parse_table::specs::Statements::forward))]
pub fn forward_at(
    alloc: Global,
    source: &Source,
    levels: u8,
    at: usize,
) -> Result<(Statement, usize), ReadError>
    ensures { Reads (λ statement. States statement ∷ []) result (reads source.now levels forward at) }
{
    let (read, place) = forwarded_at(alloc, source, levels, at)?;
    let statement = found(forward_of(alloc, source, at, place, read))?;
    ended(source, levels, place, statement)
}
