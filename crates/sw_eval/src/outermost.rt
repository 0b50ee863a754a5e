// What stands at the top of a sheet.

use crate::growing::ValuePlace;
use crate::knot::{does_at, enter_at, value_at};
use sw_eval_literals::Parens;
use sw_eval_questions::Stop;
use sw_eval_walk::{Below, Body, Returned, Walk};
use sw_text::Span;
use sw_tree::{Expr, Statement};
use sw_values::Value;
use sw_world::World;

// How deep statements of the top level may be nested.
const DEPTH: u32 = 1000;

// The same of the expressions of a load, which stand in a statement.
const LOAD_DEPTH: u32 = 999;

/// What evaluates the statements of the top level, and the expressions of its loads.
#[derive(Clone, Copy)]
pub(crate) struct Outermost;

impl<W: World> Below<W> for Outermost {
    ghost use Rattle.sw_eval.specs.Means.{value_to, does_to, enter_to};

    ghost values = { λ _. value_to 999 };

    ghost statements = { λ _. does_to 1000 };

    ghost bodies = { λ _. enter_to 999 };

    ghost fits = { λ _. Unit {0} };

    fn value(
        self,
        walk: &mut Walk,
        parens: Parens,
        e: &Expr,
        world: &mut W,
    ) -> Result<Value, Stop> {
        value_at(walk, LOAD_DEPTH, ValuePlace::Within(parens), e, world)
    }

    fn does(self, walk: &mut Walk, statement: &Statement, world: &mut W) -> Result<Returned, Stop> {
        does_at(walk, DEPTH, statement, world)
    }

    fn enter(
        self,
        walk: &mut Walk,
        span: &Span,
        body: Body<'_>,
        world: &mut W,
    ) -> Result<Returned, Stop> {
        enter_at(walk, LOAD_DEPTH, span, body, world)
    }
}
