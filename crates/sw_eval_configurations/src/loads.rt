// Statements that load modules.
ghost use Rattle.std.specs.Prelude.{◌≡◌, IfOk};
ghost use Rattle.std.specs.Option.{option_map};
ghost use Rattle.sw_eval_configurations.specs.Loads.{seen, load_of, url_of, span_of, entries_of, space_of, named, filter_of, prefix_of, how_of, load_op};

use std::alloc::Global;
use sw_text::{List, Memory, Name, Shared, Span};
use sw_tree::{Filter, Forward, Given as Entry, Member, Namespace, Statement, Url, Use};
use sw_world::{Filter as Passing, Given, How, Member as Named, Question};

/// A statement that loads a module.
#[derive(Clone, Copy)]
pub enum Load<'a> {
    Use(&'a Use),
    Forward(&'a Forward),
}

/// Of a statement that loads a module. Takes no memory.
#[tactic(auto, unfolding(crate::specs::Loads::load_of))]
pub fn load_of(statement: &Statement) -> Option<Load<'_>>
    ensures { option_map seen result ≡ load_of statement.now }
{
    match statement {
        Statement::Use(load) => Some(Load::Use(load)),
        Statement::Forward(load) => Some(Load::Forward(load)),
        _ => None,
    }
}

impl<'a> Load<'a> {
    /// The module's address.
    pub fn url(self) -> &'a Url
        ensures { result.now ≡ url_of (seen self.entry) }
    {
        match self {
            Load::Use(load) => &load.url,
            Load::Forward(load) => &load.url,
        }
    }

    /// Where the statement stands.
    pub fn span(self) -> &'a Span
        ensures { result.now ≡ span_of (seen self.entry) }
    {
        match self {
            Load::Use(load) => &load.span,
            Load::Forward(load) => &load.span,
        }
    }

    /// The entries of its `with`, in order.
    pub fn entries(self) -> &'a [Entry]
        ensures { result.now ≡ entries_of (seen self.entry) }
    {
        match self {
            Load::Use(load) => load.configuration.as_slice(),
            Load::Forward(load) => load.configuration.as_slice(),
        }
    }
}

fn space_of(namespace: &Namespace) -> Result<Option<Name>, Memory>
    ensures { IfOk result (λ space. space ≡ space_of namespace.now) }
{
    match namespace {
        Namespace::Default(name) => Ok(Some(name.share()?)),
        Namespace::Written(name) => Ok(Some(name.share()?)),
        Namespace::Without => Ok(None),
    }
}

fn named(alloc: Global, members: &[Member]) -> Result<Shared<List<Named>>, Memory>
    ensures { IfOk result (λ all. all ≡ named members.now) }
{
    let mut all = List::new(alloc);
    'members: for one in members {
        let name = one.name.share()?;
        all.push(Named {
            variable: one.variable,
            name,
        })?;
    }
    Shared::new(alloc, all)
}

fn filter_of(alloc: Global, filter: &Filter) -> Result<Passing, Memory>
    ensures { IfOk result (λ passing. passing ≡ filter_of filter.now) }
{
    match filter {
        Filter::All => Ok(Passing::All),
        Filter::Show(members) => Ok(Passing::Show(named(alloc, members.as_slice())?)),
        Filter::Hide(members) => Ok(Passing::Hide(named(alloc, members.as_slice())?)),
    }
}

/// The prefix of a forward, with `-` for each `_`; the empty name where none is written.
pub(crate) fn prefix_of(alloc: Global, forward: &Forward) -> Result<Name, Memory>
    ensures { IfOk result (λ prefix. prefix ≡ prefix_of forward.now) }
{
    match &forward.prefix {
        Some(prefix) => Name::dashed(alloc, prefix.as_str()),
        None => Name::new(alloc, ""),
    }
}

fn how_of(alloc: Global, load: Load<'_>) -> Result<How, Memory>
    ensures { IfOk result (λ how. how ≡ how_of (seen load.entry)) }
{
    match load {
        Load::Use(load) => Ok(How::Use {
            space: space_of(&load.namespace)?,
        }),
        Load::Forward(load) => Ok(How::Forward {
            prefix: prefix_of(alloc, load)?,
            filter: filter_of(alloc, &load.filter)?,
        }),
    }
}

/// What a load in the module of this path asks, where it gives these values.
pub fn load_op(
    alloc: Global,
    path: &Name,
    load: Load<'_>,
    given: Shared<List<Given>>,
) -> Result<Question, Memory>
    ensures { IfOk result (λ op. op ≡ load_op path.now (seen load.entry) given) }
{
    let url = load.url();
    Ok(Question::Load {
        site: path.share()?,
        url: url.text.share()?,
        span: url.span.share()?,
        how: how_of(alloc, load)?,
        config: given,
    })
}
