// The questions of a body with their answers, while others come.
ghost use Rattle.std.specs.Prelude.{◌≡◌, ◌<◌, ◌∷◌, ◌++◌, [], length, slice_get, Some, IsTrue, IfSome, OnOk, OnErr, vec_len, vec_capacity};
ghost use Rattle.std.specs.Bool.{OnTrue};
ghost use Rattle.std.specs.Option.{option_copied};
ghost use Rattle.sw_world.specs.Body.{Pair};
ghost use Rattle.sw_world.specs.Pairs.{listed, has_room, AreIn};

use crate::parts::same_space;
use crate::{Answer, Pairs, Question};
use std::alloc::Global;
use std::marker::Model;
use sw_text::{Memory, Name};

// A place takes 32 bits.
const MOST_DISTINCT: usize = 4_294_967_295;

// From how many pairs on those that stand there are looked for, and how many marks there are then.
const FEW: usize = 48;

const MARKS: usize = 1_024;

/// Questions with their answers, in order, and room for others. A question for a name or a value that was asked before
/// and answered the same is kept by its place alone.
pub struct GrowingPairs {
    distinct: Vec<(Question, Answer)>,
    places: Vec<u32>,
    /// For each mark the place of a distinct pair whose question has it, counted from 1: a guess.
    recent: Vec<u32>,
}

impl Drop for GrowingPairs {
    fn drop(self) {
        let GrowingPairs {
            distinct: _,
            places: _,
            recent: _,
        } = self;
    }
}

impl Model for GrowingPairs {
    ghost use Rattle.std.specs.Prelude.{vec_len, vec_capacity};
    ghost use Rattle.std.specs.Coded.{codes};
    ghost use Rattle.sw_tree.specs.contracts.expr.ExprKind as expr;
    ghost use Rattle.sw_tree.specs.contracts.statement.Statement as statement;
    ghost use Rattle.sw_values.specs.contracts.plain.Plain as plain;
    ghost use Rattle.sw_world.specs.Pairs.{Growing, listed, has_room, AreIn};

    ghost Value = { Growing };

    ghost coded = { Prim.hlevel (codes, expr.the_row.coded, statement.the_row.coded, plain.the_row.coded) };

    ghost view = { λ pairs. record {
      items = listed pairs.distinct.items pairs.places.items;
      has_room = has_room (vec_len pairs.distinct) (vec_capacity pairs.distinct) (vec_len pairs.places)
          (vec_capacity pairs.places);
    } };

    ghost invariant = { λ pairs. AreIn pairs.distinct.items pairs.places.items };
}

impl GrowingPairs {
    /// The pairs at these places of the distinct ones. Takes no memory.
    pub(crate) fn of(
        alloc: Global,
        distinct: Vec<(Question, Answer)>,
        places: Vec<u32>,
    ) -> GrowingPairs
        requires { AreIn distinct.items places.items }
        ensures { result.items ≡ listed distinct.items places.items }
    {
        GrowingPairs {
            distinct,
            places,
            recent: Vec::new(alloc),
        }
    }

    /// How many pairs there are, each as often as it stands there.
    pub fn len(&self) -> usize
        ensures { result ≡ length self.now.items }
    {
        self.places.as_slice().len()
    }

    /// The pair at a place, counted from 0.
    pub fn get(&self, at: usize) -> Option<&(Question, Answer)>
        ensures { option_copied result ≡ slice_get self.now.items at }
    {
        pair_in(self.distinct.as_slice(), self.places.as_slice(), at)
    }

    /// The pair at a place where there is one.
    pub fn pair(&self, at: usize) -> &(Question, Answer)
        requires { at < length self.now.items }
        ensures { slice_get self.now.items at ≡ Some result.now }
    {
        let Some(pair) = self.get(at) else {
            unreachable!()
        };
        pair
    }

    /// Takes room for one more pair. After `Memory` the pairs are as before.
    pub fn reserve(&mut self, alloc: Global) -> Result<(), Memory>
        ensures items { self.new.items ≡ self.old.items }
        ensures room { OnOk result (IsTrue self.new.has_room) }
    {
        if self.distinct.len() >= MOST_DISTINCT {
            return Err(Memory);
        }
        if self.recent.is_empty() && self.places.len() >= FEW {
            self.recent = no_marks(alloc)?;
        }
        self.distinct.reserve(1)?;
        self.places.reserve(1)?;
        Ok(())
    }

    /// Puts a pair behind the others, for which there is room. Takes no memory.
    pub fn push(&mut self, op: Question, answer: Answer)
        requires { IsTrue self.old.has_room }
        ensures { self.new.items ≡ self.old.items ++ (op, answer) ∷ [] }
    {
        put(
            &mut self.distinct,
            &mut self.places,
            &mut self.recent,
            op,
            answer,
        );
    }

    /// Takes all pairs out. Takes no memory.
    pub fn clear(&mut self)
        ensures { self.new.items ≡ [] }
    {
        self.places.clear();
    }

    /// The pairs, to which no others come. Takes no memory.
    pub fn into_pairs(self) -> Pairs
        ensures { result ≡ self.items }
    {
        let GrowingPairs {
            distinct,
            places,
            recent: _,
        } = self;
        Pairs::of(distinct, places)
    }
}

/// The pair at one of these places of the distinct ones.
pub(crate) fn pair_in<'p>(
    distinct: &'p [(Question, Answer)],
    places: &[u32],
    at: usize,
) -> Option<&'p (Question, Answer)>
    requires { AreIn distinct.now places.now }
    ensures { option_copied result ≡ slice_get (listed distinct.now places.now) at }
{
    if at >= places.len() {
        return None;
    }
    let place = places[at] as usize;
    Some(&distinct[place])
}

// Puts a pair behind the others: the place of one that stands there, where the guess is right, or else a distinct one.
fn put(
    distinct: &mut Vec<(Question, Answer)>,
    places: &mut Vec<u32>,
    recent: &mut [u32],
    op: Question,
    answer: Answer,
)
    requires room { IsTrue (has_room (vec_len distinct.old) (vec_capacity distinct.old) (vec_len places.old)
        (vec_capacity places.old)) }
    requires within { AreIn distinct.old.items places.old.items }
    ensures listed { listed distinct.new.items places.new.items
        ≡ listed distinct.old.items places.old.items ++ (op, answer) ∷ [] }
    ensures within { AreIn distinct.new.items places.new.items }
{
    let mark = mark_of(&op);
    match place_of(distinct, recent, mark, &op, &answer) {
        Some(place) => put_again(distinct, places, place),
        None => {
            note(recent, mark, distinct.len());
            put_new(distinct, places, op, answer);
        }
    }
}

// Puts the place of a distinct pair behind the others.
#[tactic(auto, using(crate::proofs::Listed::listed_again, crate::proofs::Listed::within_again))]
fn put_again(distinct: &[(Question, Answer)], places: &mut Vec<u32>, place: u32)
    requires room { vec_len places.old < vec_capacity places.old }
    requires within { AreIn distinct.now places.old.items }
    ensures listed { (pair : Pair) → slice_get distinct.now place ≡ Some pair
        → listed distinct.now places.new.items ≡ listed distinct.now places.old.items ++ pair ∷ [] }
    ensures within { (pair : Pair) → slice_get distinct.now place ≡ Some pair → AreIn distinct.now places.new.items }
{
    put_place(places, place);
}

// Puts one more distinct pair behind the others.
#[tactic(auto, using(crate::proofs::Listed::listed_new, crate::proofs::Listed::within_new))]
fn put_new(
    distinct: &mut Vec<(Question, Answer)>,
    places: &mut Vec<u32>,
    op: Question,
    answer: Answer,
)
    requires room { IsTrue (has_room (vec_len distinct.old) (vec_capacity distinct.old) (vec_len places.old)
        (vec_capacity places.old)) }
    requires within { AreIn distinct.old.items places.old.items }
    ensures listed { listed distinct.new.items places.new.items
        ≡ listed distinct.old.items places.old.items ++ (op, answer) ∷ [] }
    ensures within { AreIn distinct.new.items places.new.items }
{
    put_place(places, distinct.as_slice().len() as u32);
    put_pair(distinct, op, answer);
}

fn put_place(places: &mut Vec<u32>, place: u32)
    requires { vec_len places.old < vec_capacity places.old }
    ensures { places.new.items ≡ places.old.items ++ place ∷ [] }
{
    let _ = places.push(place);
}

fn put_pair(distinct: &mut Vec<(Question, Answer)>, op: Question, answer: Answer)
    requires { vec_len distinct.old < vec_capacity distinct.old }
    ensures { distinct.new.items ≡ distinct.old.items ++ (op, answer) ∷ [] }
{
    let _ = distinct.push((op, answer));
}

// No place for any mark.
fn no_marks(alloc: Global) -> Result<Vec<u32>, Memory> {
    let mut marks = Vec::with_capacity(alloc, MARKS)?;
    for _ in 0..MARKS {
        marks.push(0)?;
    }
    Ok(marks)
}

// The mark of a question for a name or a value; equal ones have the same, and others are never looked for.
fn mark_of(op: &Question) -> Option<usize> {
    match op {
        Question::Find { name, .. } => Some(mark_by(name, 0)),
        Question::Get { name, .. } => Some(mark_by(name, 1)),
        _ => None,
    }
}

fn mark_by(name: &Name, sort: usize) -> usize {
    let bytes = name.as_str().as_bytes();
    let end = bytes.len();
    let last = byte_at(bytes, end.saturating_sub(1));
    let near = byte_at(bytes, end.saturating_sub(4));
    let middle = byte_at(bytes, end / 2);
    (sort % 2 + 5 * (end % MARKS) + 11 * last + 37 * near + 101 * middle) % MARKS
}

fn byte_at(bytes: &[u8], at: usize) -> usize
    ensures { result < 256 }
{
    match bytes.get(at) {
        None => 0,
        Some(byte) => *byte as usize,
    }
}

// The place of this pair among the distinct ones, where the guess is right.
fn place_of(
    distinct: &[(Question, Answer)],
    recent: &[u32],
    mark: Option<usize>,
    op: &Question,
    answer: &Answer,
) -> Option<u32>
    ensures { IfSome result (λ place. slice_get distinct.now place ≡ Some (op.now, answer.now)) }
{
    let guess = *recent.get(mark?)?;
    let place = guess.checked_sub(1)?;
    let (there, kept) = distinct.get(place as usize)?;
    if is_same_question(there, op) && kept.same(answer) {
        Some(place)
    } else {
        None
    }
}

// Notes the place of a pair whose question has this mark.
fn note(recent: &mut [u32], mark: Option<usize>, place: usize) {
    if let Some(mark) = mark {
        if mark < recent.len() && place < MOST_DISTINCT {
            recent[mark] = place as u32 + 1;
        }
    }
}

// True only where two questions for a name or a value are the same.
fn is_same_question(a: &Question, b: &Question) -> bool
    ensures { OnTrue result (a.now ≡ b.now) }
{
    match (a, b) {
        (
            Question::Find {
                site,
                space,
                kind,
                name,
            },
            Question::Find {
                site: other_site,
                space: other_space,
                kind: other_kind,
                name: other_name,
            },
        ) => {
            name.same(other_name)
                && *kind == *other_kind
                && site.same(other_site)
                && same_space(space, other_space)
        }
        (
            Question::Get { owner, name },
            Question::Get {
                owner: other_owner,
                name: other_name,
            },
        ) => name.same(other_name) && owner.same(other_owner),
        _ => false,
    }
}
