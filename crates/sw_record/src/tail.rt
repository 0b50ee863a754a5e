// The questions behind the last load of a trace, as they are asked again at once.
ghost use Rattle.std.specs.Prelude.{◌≡◌, ◌<◌, ◌≤◌, ◌+◌, ℕ, true, length, slice_get, Some, IfOk, IfSome, OnOk};
ghost use Rattle.std.specs.Bool.{OnTrue};
ghost use Rattle.std.specs.List.{Contains};
ghost use Rattle.sw_tree.specs.declared.callable.Kind.TheVariants.{Variable as Variable_kind};
ghost use Rattle.sw_world.specs.declared.question.Question.TheVariants.{Find, Get};
ghost use Rattle.sw_world.specs.declared.answer.Answer.TheVariants.{Owner, Value as Value_answer};
ghost use Rattle.sw_world.specs.Body.{Pair};
ghost use Rattle.sw_world.specs.Named.{IsNamedIn};
ghost use Rattle.sw_record.specs.Tails.{IsTold, IsTail, StandsAt, TellsUpTo, IsReadAt, IsOfRead};

use std::alloc::Global;
use sw_text::{List, Memory, Name};
use sw_tree::Kind;
use sw_values::Value;
use sw_world::{Answer, NamedVariables, Pairs, Question, Table};

/// The questions behind the last load of a trace, from one place up to another: the variables for whose names and
/// values two questions stand, by the modules that have them, and a place of each other question.
#[derive(Drop)]
pub struct Tail {
    pub(crate) from: usize,
    pub(crate) to: usize,
    pub(crate) named: List<NamedVariables>,
    pub(crate) alone: List<usize>,
}

/// A variable that two questions of a trace stand for.
#[derive(Clone, Copy, Drop)]
struct ReadVariable<'s> {
    site: &'s Name,
    space: &'s Name,
    path: &'s Name,
    name: &'s Name,
    value: &'s Value,
}

/// What a tail is gathered in: the variables, the place of each module's by its path, which is a guess, the places of
/// the questions that are alone, and for each distinct pair which of these are its own, a guess too.
#[derive(Drop)]
struct Gathering {
    named: Vec<NamedVariables>,
    places: Table<usize>,
    near: usize,
    alone: List<usize>,
    guesses: Vec<usize>,
}

/// The tail of a trace: it begins behind the last load, and ends where a question may change what is outside.
pub(crate) fn tail_of(alloc: Global, seen: &Pairs) -> Result<Tail, Memory>
    ensures { IfOk result (λ tail. IsTail seen.now tail) }
{
    let from = behind_loads(seen);
    let mut gathering = Gathering {
        named: Vec::new(alloc),
        places: Table::new(alloc),
        near: 0,
        alone: List::new(alloc),
        guesses: no_guesses(alloc, seen.count_distinct())?,
    };
    let to = gathering.add_from(alloc, seen, from)?;
    let Gathering {
        named,
        places: _,
        near: _,
        alone,
        guesses: _,
    } = gathering;
    Ok(Tail {
        from,
        to,
        named: List::from_vec(named),
        alone,
    })
}

/// The place behind the last load.
fn behind_loads(seen: &Pairs) -> usize
    ensures { result ≤ length seen.now }
{
    let mut behind = 0;
    for at in 0..seen.len() {
        if seen.pair(at).0.is_load() {
            behind = at + 1;
        }
    }
    behind
}

/// A guess for each of so many distinct pairs.
fn no_guesses(alloc: Global, count: usize) -> Result<Vec<usize>, Memory> {
    let mut guesses = Vec::with_capacity(alloc, count)?;
    for _ in 0..count {
        guesses.push(0)?;
    }
    Ok(guesses)
}

/// The variable that the questions at a place and behind it stand for.
fn variable_at<'s>(seen: &'s Pairs, at: usize) -> Option<ReadVariable<'s>>
    requires { at < length seen.now }
    ensures { IfSome result (λ read. IsReadAt seen.now at read.site.now read.space.now read.path.now read.name.now
        read.value.now) }
{
    let behind = at.checked_add(1)?;
    match (seen.get(at), seen.get(behind)) {
        (
            Some(
                (
                    Question::Find {
                        site,
                        space: Some(space),
                        kind: Kind::Variable,
                        name,
                    },
                    Answer::Owner { path, name: own },
                ),
            ),
            Some((Question::Get { owner, name: asked }, Answer::Value(value))),
        ) => {
            if name.same(own) && name.same(asked) && path.same(owner) {
                Some(ReadVariable {
                    site,
                    space,
                    path,
                    name: own,
                    value,
                })
            } else {
                None
            }
        }
        _ => None,
    }
}

impl Gathering {
    /// Adds the questions from a place on, and tells up to where.
    fn add_from(&mut self, alloc: Global, seen: &Pairs, from: usize) -> Result<usize, Memory>
        requires { from ≤ length seen.now }
        ensures { IfOk result (λ to. TellsUpTo self.new.named.items self.new.alone seen.now from to) }
    {
        let mut at = from;
        while at < seen.len() {
            let step = self.add_at(alloc, seen, at)?;
            if step == 0 {
                return Ok(at);
            }
            at += step;
        }
        Ok(at)
    }

    /// Adds the question at a place, with the one behind it where both stand for a variable, and tells how many these
    /// are: none where the question may change what is outside.
    fn add_at(&mut self, alloc: Global, seen: &Pairs, at: usize) -> Result<usize, Memory>
        requires { at < length seen.now }
        ensures told { IfOk result (λ step. TellsUpTo self.new.named.items self.new.alone seen.now at (at + step)) }
        ensures keeps { OnOk result ((pair : Pair) → IsTold self.old.named.items self.old.alone seen.now pair
            → IsTold self.new.named.items self.new.alone seen.now pair) }
    {
        if let Some(read) = variable_at(seen, at) {
            if self.add_variable(alloc, &read)? {
                return Ok(2);
            }
        }
        match &seen.pair(at).0 {
            Question::Find { .. } | Question::Get { .. } => {
                self.add_alone(seen, at)?;
                Ok(1)
            }
            _ => Ok(0),
        }
    }

    /// Adds the place of a question, in constant time, where an equal one's isn't there.
    fn add_alone(&mut self, seen: &Pairs, at: usize) -> Result<(), Memory>
        ensures has { OnOk result ((pair : Pair) → slice_get seen.now at ≡ Some pair
            → StandsAt seen.now self.new.alone pair) }
        ensures keeps { OnOk result ((pair : Pair) → StandsAt seen.now self.old.alone pair
            → StandsAt seen.now self.new.alone pair) }
        ensures named { self.new.named ≡ self.old.named }
    {
        let number = seen.number_at(at);
        if self.is_told(seen, at, number) {
            return Ok(());
        }
        self.guess(number);
        self.alone.push(at)
    }

    /// Whether the pair at a place stands at a place that is told, as far as the guess for its number tells.
    fn is_told(&self, seen: &Pairs, at: usize, number: Option<usize>) -> bool
        ensures { OnTrue result ((place : ℕ) × Contains self.now.alone place
            × (slice_get seen.now place ≡ slice_get seen.now at)) }
    {
        match self.guessed(number) {
            None => false,
            Some(place) => seen.stands_again(place, at),
        }
    }

    /// The place that is told where a guess leads.
    fn guessed(&self, number: Option<usize>) -> Option<usize>
        ensures { IfSome result (λ place. Contains self.now.alone place) }
    {
        let guess = *self.guesses.get(number?)?;
        let place = self.alone.get(guess)?;
        Some(*place)
    }

    /// The next place that is told is that of the pair with this number.
    fn guess(&mut self, number: Option<usize>)
        ensures named { self.new.named ≡ self.old.named }
        ensures alone { self.new.alone ≡ self.old.alone }
    {
        if let Some(number) = number {
            if number < self.guesses.len() {
                self.guesses[number] = self.alone.len();
            }
        }
    }

    /// Adds a variable, in constant time; false where that isn't how it can be told.
    fn add_variable(&mut self, alloc: Global, read: &ReadVariable<'_>) -> Result<bool, Memory>
        ensures has { IfOk result (λ has. has ≡ true → (pair : Pair)
            → IsOfRead read.now.site.now read.now.space.now read.now.path.now read.now.name.now read.now.value.now pair
            → IsNamedIn self.new.named.items pair) }
        ensures keeps { OnOk result ((pair : Pair) → IsNamedIn self.old.named.items pair
            → IsNamedIn self.new.named.items pair) }
        ensures alone { self.new.alone ≡ self.old.alone }
    {
        match self.place_of(read) {
            Some(place) => add_at(&mut self.named, place, read),
            None => {
                self.add_module(alloc, read)?;
                Ok(true)
            }
        }
    }

    /// The place of the variables of a module.
    fn place_of(&mut self, read: &ReadVariable<'_>) -> Option<usize>
        ensures within { IfSome result (λ place. place < length self.old.named.items) }
        ensures named { self.new.named ≡ self.old.named }
        ensures alone { self.new.alone ≡ self.old.alone }
    {
        match self.places.find(read.path, self.near) {
            None => None,
            Some((near, place)) => {
                self.near = near;
                if *place < self.named.len() {
                    Some(*place)
                } else {
                    None
                }
            }
        }
    }

    /// Adds a variable as the first one of its module.
    fn add_module(&mut self, alloc: Global, read: &ReadVariable<'_>) -> Result<(), Memory>
        ensures has { OnOk result ((pair : Pair)
            → IsOfRead read.now.site.now read.now.space.now read.now.path.now read.now.name.now read.now.value.now pair
            → IsNamedIn self.new.named.items pair) }
        ensures keeps { OnOk result ((pair : Pair) → IsNamedIn self.old.named.items pair
            → IsNamedIn self.new.named.items pair) }
        ensures alone { self.new.alone ≡ self.old.alone }
    {
        let first = NamedVariables::first(
            alloc, read.site, read.space, read.path, read.name, read.value,
        )?;
        self.places.add(read.path.share()?, self.named.len())?;
        self.named.push(first)?;
        Ok(())
    }
}

/// Adds a variable to those at a place, where these are its module's.
fn add_at(
    named: &mut Vec<NamedVariables>,
    place: usize,
    read: &ReadVariable<'_>,
) -> Result<bool, Memory>
    requires { place < length named.old.items }
    ensures has { IfOk result (λ has. has ≡ true → (pair : Pair)
        → IsOfRead read.now.site.now read.now.space.now read.now.path.now read.now.name.now read.now.value.now pair
        → IsNamedIn named.new.items pair) }
    ensures keeps { OnOk result ((pair : Pair) → IsNamedIn named.old.items pair → IsNamedIn named.new.items pair) }
{
    let one = &mut named[place];
    if !one.are_of(read.site, read.space, read.path) {
        return Ok(false);
    }
    let has = one.add(read.name, read.value)?;
    Ok(has)
}
