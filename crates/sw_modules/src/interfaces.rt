// What a forward brings.
ghost use Rattle.std.specs.Prelude.{◌≡◌, ◌++◌, ◌∷◌, [], filter, not, IfOk, OnOk};
ghost use Rattle.std.specs.List.{list_any};
ghost use Rattle.std.specs.Map.{keys_of};
ghost use Rattle.sw_modules.specs.Interfaces.{has_own, own_entries, entry_of, unhidden, interface, built_in_interface, is_variable, is_named, lets_through, passed, brought};

use crate::members::{Entry, Members, Origin};
use crate::names::has_own;
use crate::{Module, RareTable};
use std::alloc::Global;
use sw_builtins::member;
use sw_text::{List, Memory, Name};
use sw_tree::Kind;
use sw_world::{Filter, How, Member, Table};

/// More members than any built-in module has.
const MOST_MEMBERS: usize = 1000;

fn is_variable(kind: Kind) -> bool
    ensures { result ≡ is_variable kind }
{
    match kind {
        Kind::Variable => true,
        Kind::Function => false,
        Kind::Mixin => false,
    }
}

fn is_named(kind: Kind, name: &Name, one: &Member) -> bool
    ensures { result ≡ is_named kind name.now one.now }
{
    let same_kind = if one.variable {
        is_variable(kind)
    } else {
        !is_variable(kind)
    };
    same_kind && one.name.same(name)
}

fn any_named(members: &[Member], kind: Kind, name: &Name) -> bool
    ensures { result ≡ list_any (is_named kind name.now) members.now }
{
    'members: for one in members {
        if is_named(kind, name, one) {
            return true;
        }
    }
    false
}

fn lets_through(filter: &Filter, kind: Kind, name: &Name) -> bool
    ensures { result ≡ lets_through filter.now kind name.now }
{
    match filter {
        Filter::All => true,
        Filter::Show(members) => any_named(members.get().as_slice(), kind, name),
        Filter::Hide(members) => !any_named(members.get().as_slice(), kind, name),
    }
}

/// A name behind a prefix.
fn prefixed(alloc: Global, prefix: &Name, name: &Name) -> Result<Name, Memory>
    ensures { IfOk result (λ joined. joined ≡ prefix.now ++ name.now) }
{
    if prefix.as_str() == "" {
        return name.share();
    }
    let mut text = String::new(alloc);
    text.push_str(prefix.as_str())?;
    text.push_str(name.as_str())?;
    Name::new(alloc, text.as_str())
}

/// How a forward passes members on.
#[derive(Drop)]
struct Passing<'p> {
    alloc: Global,
    prefix: &'p Name,
    which: &'p Filter,
}

impl<'p> Passing<'p> {
    // Passes a member on that has this origin and name in the forwarded module.
    fn pass(
        &self,
        brought: &mut List<Entry>,
        kind: Kind,
        name: &Name,
        path: &Name,
        own: &Name,
    ) -> Result<(), Memory>
        ensures { OnOk result (brought.new
            ≡ brought.old ++ passed self.now.prefix.now self.now.which.now
            ((record { kind = kind; name = name.now; origin = record { path = path.now; name = own.now } }) ∷ [])) }
    {
        let name = prefixed(self.alloc, self.prefix, name)?;
        if name.is_private() || !lets_through(self.which, kind, &name) {
            return Ok(());
        }
        let origin = Origin {
            path: path.share()?,
            name: own.share()?,
        };
        brought.push(Entry { kind, name, origin })
    }

    // Passes an own member of the module at a path on.
    fn pass_own(
        &self,
        brought: &mut List<Entry>,
        kind: Kind,
        path: &Name,
        name: &Name,
    ) -> Result<(), Memory>
        ensures { OnOk result (brought.new
            ≡ brought.old ++ passed self.now.prefix.now self.now.which.now (own_entries kind path.now (name.now ∷ []))) }
    {
        if name.is_private() {
            return Ok(());
        }
        self.pass(brought, kind, name, path, name)
    }

    fn pass_owns<V>(
        &self,
        brought: &mut List<Entry>,
        kind: Kind,
        path: &Name,
        table: &Table<V>,
    ) -> Result<(), Memory>
        ensures { OnOk result (brought.new ≡ brought.old
            ++ passed self.now.prefix.now self.now.which.now (own_entries kind path.now (keys_of table.now))) }
    {
        'members: for place in 0..table.len() {
            match table.at(place) {
                Some((name, _)) => self.pass_own(brought, kind, path, name)?,
                None => unreachable!(),
            }
        }
        Ok(())
    }

    fn pass_some<V>(
        &self,
        brought: &mut List<Entry>,
        kind: Kind,
        path: &Name,
        table: &RareTable<V>,
    ) -> Result<(), Memory>
        ensures { OnOk result (brought.new ≡ brought.old
            ++ passed self.now.prefix.now self.now.which.now (own_entries kind path.now (keys_of table.now))) }
    {
        match table.table() {
            Some(table) => self.pass_owns(brought, kind, path, table),
            None => Ok(()),
        }
    }

    // Passes a member on that the forwards of a module brought, unless the module has an own one.
    fn pass_unhidden(
        &self,
        brought: &mut List<Entry>,
        kind: Kind,
        held: &Module,
        name: &Name,
        origin: &Origin,
    ) -> Result<(), Memory>
        ensures { OnOk result (brought.new ≡ brought.old ++ passed self.now.prefix.now self.now.which.now
            (filter (λ one. not (has_own one.kind one.name held.now)) (entry_of kind (name.now, origin.now) ∷ []))) }
    {
        if has_own(held, kind, name) {
            return Ok(());
        }
        self.pass(brought, kind, name, &origin.path, &origin.name)
    }

    fn pass_forwarded(
        &self,
        brought: &mut List<Entry>,
        kind: Kind,
        held: &Module,
        forwarded: &Members,
    ) -> Result<(), Memory>
        ensures { OnOk result (brought.new ≡ brought.old
            ++ passed self.now.prefix.now self.now.which.now (unhidden kind held.now forwarded.now)) }
    {
        let table = forwarded.of_kind(kind);
        'members: for place in 0..table.len() {
            match table.at(place) {
                Some((name, origin)) => self.pass_unhidden(brought, kind, held, name, origin)?,
                None => unreachable!(),
            }
        }
        Ok(())
    }

    // What a module at a path brings whose forwards brought these members.
    fn interface(
        &self,
        path: &Name,
        held: &Module,
        forwarded: &Members,
    ) -> Result<List<Entry>, Memory>
        ensures { IfOk result (λ brought. brought ≡ passed self.now.prefix.now self.now.which.now
            (interface path.now held.now forwarded.now)) }
    {
        let mut brought = List::new(self.alloc);
        self.pass_owns(&mut brought, Kind::Variable, path, held.variables.table())?;
        self.pass_some(
            &mut brought,
            Kind::Function,
            path,
            &held.callables.functions,
        )?;
        self.pass_some(&mut brought, Kind::Mixin, path, &held.callables.mixins)?;
        self.pass_forwarded(&mut brought, Kind::Variable, held, forwarded)?;
        self.pass_forwarded(&mut brought, Kind::Function, held, forwarded)?;
        self.pass_forwarded(&mut brought, Kind::Mixin, held, forwarded)?;
        Ok(brought)
    }

    // What the built-in module of a URL brings.
    fn built_in_interface(&self, url: &Name) -> Result<List<Entry>, Memory>
        ensures { IfOk result (λ brought. brought ≡ passed self.now.prefix.now self.now.which.now
            (built_in_interface url.now)) }
    {
        let mut brought = List::new(self.alloc);
        'members: for at in 0..MOST_MEMBERS {
            match member(url.as_str(), at) {
                Some((kind, name)) => {
                    let name = Name::new(self.alloc, name)?;
                    self.pass(&mut brought, kind, &name, url, &name)?;
                }
                None => return Ok(brought),
            }
        }
        Ok(brought)
    }
}

/// What a use of the module at a path brings whose forwards brought these members.
pub(crate) fn brought_of(
    alloc: Global,
    how: &How,
    path: &Name,
    held: &Module,
    forwarded: &Members,
) -> Result<List<Entry>, Memory>
    ensures { IfOk result (λ entries. entries ≡ brought how.now (interface path.now held.now forwarded.now)) }
{
    match how {
        How::Use { .. } => Ok(List::new(alloc)),
        How::Forward { prefix, filter } => {
            let passing = Passing {
                alloc,
                prefix,
                which: filter,
            };
            passing.interface(path, held, forwarded)
        }
    }
}

/// What a use of the built-in module of a URL brings.
pub(crate) fn brought_of_built_in(
    alloc: Global,
    how: &How,
    url: &Name,
) -> Result<List<Entry>, Memory>
    ensures { IfOk result (λ entries. entries ≡ brought how.now (built_in_interface url.now)) }
{
    match how {
        How::Use { .. } => Ok(List::new(alloc)),
        How::Forward { prefix, filter } => {
            let passing = Passing {
                alloc,
                prefix,
                which: filter,
            };
            passing.built_in_interface(url)
        }
    }
}
