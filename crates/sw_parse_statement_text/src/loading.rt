// `@use` and `@forward`.
ghost use Rattle.std.specs.Prelude.{◌≡◌, ◌∷◌, [], IfOk};
ghost use Rattle.sw_parse_table.specs.Parts.{States};
ghost use Rattle.sw_parse_table.specs.Sources.{span_between};
ghost use Rattle.sw_parse_table.specs.Statements.{use_};
ghost use Rattle.sw_parse_table.specs.Actions.{url_at, namespace_by, to_use};
ghost use Rattle.sw_parse_table.specs.Reads.{reader, reads, Reads};
ghost use Rattle.sw_parse_expr_lists.specs.Deeper.{Callable, Reading};
ghost use Rattle.sw_parse_statement_text.specs.Rows.{place_in};
ghost use Rattle.sw_parse_statement_text.specs.Loads.{use_row, loaded_parts};

use crate::at::ended;
use crate::given::{Load, with_at};
use crate::name::as_name_at;
use std::alloc::Global;
use sw_parse_expr_nodes::{given_up, kept, skipped};
use sw_parse_grammar::ReadError;
use sw_parse_table::{Source, bytes_at, decoded_at, found, is_at, span_at, span_between};
use sw_parse_terminals::{Terminal, namespace_of};
use sw_text::{List, Memory, Name, Span};
use sw_tree::{Expr, Given, Namespace, Statement, Url, Use};

/// What stands behind `@use`.
#[derive(Drop)]
pub(crate) struct Loaded {
    /// The place of the address.
    pub url: usize,
    /// The place of the name behind `as`, or of its `*`.
    pub name: Option<usize>,
    pub configuration: List<Given>,
}

#[tactic(auto, unfolding(sw_parse_grammar::specs::Readers::parse))]
fn loaded_at<F: Fn(u8, usize) -> Result<(Expr, usize), ReadError> + Copy>(
    alloc: Global,
    deeper: F,
    source: &Source,
    levels: u8,
    at: usize,
) -> Result<(Loaded, usize), ReadError>
    requires callable { Callable (F.Fn.pre deeper) levels }
    requires reading { Reading (F.Fn.post deeper) source.now levels }
    ensures { Reads loaded_parts result (reader source.now levels (use_row source.now) at) }
{
    let place = skipped(source, levels, at, Terminal::AtUse)?;
    let (url, place) = kept(source, levels, place, Terminal::LoadUrl)?;
    let (name, place) = as_name_at(source, levels, place)?;
    let (configuration, place) = with_at(alloc, deeper, source, levels, place, Load::Use)?;
    let loaded = Loaded {
        url,
        name,
        configuration,
    };
    Ok((loaded, place))
}

/// The address at a place.
fn url_at(alloc: Global, source: &Source, at: usize) -> Result<Url, Memory>
    ensures { IfOk result (λ url. url ≡ url_at source.now at) }
{
    let span = span_at(source, at)?;
    Ok(Url {
        text: decoded_at(alloc, source, at)?,
        span,
    })
}

fn namespace_by(
    alloc: Global,
    source: &Source,
    url: usize,
    name: Option<usize>,
) -> Result<Namespace, Memory>
    ensures { IfOk result (λ namespace. namespace ≡ namespace_by source.now url (place_in name)) }
{
    match name {
        None => {
            let text = decoded_at(alloc, source, url)?;
            let name = Name::new(alloc, namespace_of(text.as_str()))?;
            Ok(Namespace::Default(name))
        }
        Some(at) => {
            if is_at(source, at, Terminal::Star) {
                return Ok(Namespace::Without);
            }
            Ok(Namespace::Written(Name::new(alloc, bytes_at(source, at))?))
        }
    }
}

/// What `@use` says but for its configuration.
#[derive(Drop)]
struct Head {
    url: Url,
    namespace: Namespace,
    span: Span,
}

fn head_of(
    alloc: Global,
    source: &Source,
    at: usize,
    place: usize,
    loaded: &Loaded,
) -> Result<Head, Memory>
    ensures url { IfOk result (λ head. head.url ≡ url_at source.now loaded.now.url) }
    ensures namespace { IfOk result (λ head. head.namespace ≡ namespace_by source.now loaded.now.url (place_in
        loaded.now.name)) }
    ensures span { IfOk result (λ head. head.span ≡ span_between source.now at place) }
{
    let url = url_at(alloc, source, loaded.url)?;
    let namespace = namespace_by(alloc, source, loaded.url, loaded.name)?;
    Ok(Head {
        url,
        namespace,
        span: span_between(source, at, place)?,
    })
}

#[tactic(auto, using(crate::proofs::Uses::use_is))]
fn use_of(
    alloc: Global,
    source: &Source,
    at: usize,
    place: usize,
    loaded: Loaded,
) -> Result<Statement, Memory>
    ensures { IfOk result (λ statement. to_use source.now at place (loaded_parts loaded) ≡ States statement ∷ []) }
{
    match head_of(alloc, source, at, place, &loaded) {
        Ok(head) => {
            let Head {
                url,
                namespace,
                span,
            } = head;
            Ok(Statement::Use(Use {
                url,
                namespace,
                configuration: loaded.configuration,
                span,
            }))
        }
        Err(error) => Err(given_up(loaded, error)),
    }
}

/// `@use` with its name and its configuration, and its end.
#[tactic(auto, unfolding(sw_parse_grammar::specs::Readers::parse, sw_parse_table::specs::Statements::use_))]
pub fn use_at<F: Fn(u8, usize) -> Result<(Expr, usize), ReadError> + Copy>(
    alloc: Global,
    deeper: F,
    source: &Source,
    levels: u8,
    at: usize,
) -> Result<(Statement, usize), ReadError>
    requires callable { Callable (F.Fn.pre deeper) levels }
    requires reading { Reading (F.Fn.post deeper) source.now levels }
    ensures { Reads (λ statement. States statement ∷ []) result (reads source.now levels use_ at) }
{
    let (loaded, place) = loaded_at(alloc, deeper, source, levels, at)?;
    let statement = found(use_of(alloc, source, at, place, loaded))?;
    ended(source, levels, place, statement)
}
