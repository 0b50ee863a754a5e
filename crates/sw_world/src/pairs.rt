// The questions of a body with their answers, as they are kept.
ghost use Rattle.std.specs.Prelude.{◌≡◌, ◌<◌, ◌≤◌, [], length, take, slice_get, Some, IfOk, OnOk, OnSome, IfSome};
ghost use Rattle.std.specs.Bool.{OnTrue};
ghost use Rattle.std.specs.Option.{option_copied};
ghost use Rattle.sw_world.specs.Pairs.{listed, AreIn};

use crate::configs::share_configs;
use crate::growing::pair_in;
use crate::parts::share_pairs;
use crate::{Answer, GrowingPairs, Question};
use std::alloc::Global;
use std::marker::Model;
use sw_text::{List, Memory};

/// Questions with their answers, in order. A pair that stands there again is kept once, and each of its places takes
/// four bytes.
pub struct Pairs {
    distinct: List<(Question, Answer)>,
    places: List<u32>,
}

impl Drop for Pairs {
    fn drop(self) {
        let Pairs {
            distinct: _,
            places: _,
        } = self;
    }
}

impl Model for Pairs {
    ghost use Rattle.std.specs.Prelude.{List};
    ghost use Rattle.std.specs.Coded.{codes};
    ghost use Rattle.sw_tree.specs.contracts.expr.ExprKind as expr;
    ghost use Rattle.sw_tree.specs.contracts.statement.Statement as statement;
    ghost use Rattle.sw_values.specs.contracts.plain.Plain as plain;
    ghost use Rattle.sw_world.specs.Body.{Pair};
    ghost use Rattle.sw_world.specs.Pairs.{listed, AreIn};

    ghost Value = { List Pair };

    ghost coded = { Prim.hlevel (codes, expr.the_row.coded, statement.the_row.coded, plain.the_row.coded) };

    ghost view = { λ pairs. listed pairs.distinct pairs.places };

    ghost invariant = { λ pairs. AreIn pairs.distinct pairs.places };
}

impl Pairs {
    /// No pair. Takes no memory.
    pub fn new(alloc: Global) -> Pairs
        ensures { result ≡ [] }
    {
        Pairs {
            distinct: List::new(alloc),
            places: List::new(alloc),
        }
    }

    /// The pairs at these places of the distinct ones. Takes no memory.
    pub(crate) fn of(distinct: Vec<(Question, Answer)>, places: Vec<u32>) -> Pairs
        requires { AreIn distinct.items places.items }
        ensures { result ≡ listed distinct.items places.items }
    {
        Pairs {
            distinct: List::from_vec(distinct),
            places: List::from_vec(places),
        }
    }

    /// How many pairs there are, each as often as it stands there.
    pub fn len(&self) -> usize
        ensures { result ≡ length self.now }
    {
        self.places.len()
    }

    /// The pair at a place, counted from 0.
    pub fn get(&self, at: usize) -> Option<&(Question, Answer)>
        ensures { option_copied result ≡ slice_get self.now at }
    {
        pair_in(self.distinct.as_slice(), self.places.as_slice(), at)
    }

    /// The pair at a place where there is one.
    pub fn pair(&self, at: usize) -> &(Question, Answer)
        requires { at < length self.now }
        ensures { slice_get self.now at ≡ Some result.now }
    {
        let Some(pair) = self.get(at) else {
            unreachable!()
        };
        pair
    }

    /// How many distinct pairs are kept. Takes no memory.
    pub fn count_distinct(&self) -> usize {
        self.distinct.len()
    }

    /// The number of the distinct pair that stands at a place, counted from 0.
    pub fn number_at(&self, at: usize) -> Option<usize> {
        let place = self.places.get(at)?;
        Some(*place as usize)
    }

    /// Whether one distinct pair stands at both places. Equal pairs may be kept as two.
    pub fn stands_again(&self, at: usize, other: usize) -> bool
        ensures { OnTrue result (slice_get self.now at ≡ slice_get self.now other) }
    {
        let places = self.places.as_slice();
        if at >= places.len() {
            return false;
        }
        if other >= places.len() {
            return false;
        }
        places[at] == places[other]
    }

    /// The same pairs, whose empty configurations of loads are one in memory: asked again, they look at that and not at
    /// one of each.
    pub fn with_shared_configs(self) -> Result<Pairs, Memory>
        ensures { IfOk result (λ pairs. pairs ≡ self) }
    {
        let Pairs { distinct, places } = self;
        let distinct = share_configs(distinct)?;
        Ok(Pairs { distinct, places })
    }

    /// The first pairs, to which others may come. Each part is shared.
    #[tactic(auto, using(crate::proofs::Listed::listed_take, crate::proofs::Listed::within_take))]
    pub fn grown(&self, alloc: Global, first: usize) -> Result<GrowingPairs, Memory>
        requires { first ≤ length self.now }
        ensures { IfOk result (λ pairs. pairs.items ≡ take first self.now) }
    {
        let distinct = share_pairs(alloc, self.distinct.as_slice())?.into_vec();
        let places = first_places(alloc, self.places.as_slice(), first)?;
        Ok(GrowingPairs::of(alloc, distinct, places))
    }
}

// The first ones of these places.
fn first_places(alloc: Global, places: &[u32], first: usize) -> Result<Vec<u32>, Memory>
    requires { first ≤ length places.now }
    ensures { IfOk result (λ few. few.items ≡ take first places.now) }
{
    let mut few = Vec::with_capacity(alloc, first)?;
    for at in 0..first {
        few.push(places[at])?;
    }
    Ok(few)
}
