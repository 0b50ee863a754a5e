// The level below as closures.

use sw_eval_literals::Parens;
use sw_eval_questions::Stop;
use sw_eval_walk::{Below, Body, Returned, Walk};
use sw_text::Span;
use sw_tree::{Expr, Statement};
use sw_values::Value;
use sw_world::World;

/// The level below: what may be nested in it no deeper than a number.
#[derive(Clone, Copy)]
pub(crate) struct Lower<V, S, E> {
    pub depth: u32,
    pub value: V,
    pub does: S,
    pub enter: E,
}

impl<
    W: World,
    V: Fn(&mut Walk, Parens, &Expr, &mut W) -> Result<Value, Stop> + Copy,
    S: Fn(&mut Walk, &Statement, &mut W) -> Result<Returned, Stop> + Copy,
    E: Fn(&mut Walk, &Span, Body<'_>, &mut W) -> Result<Returned, Stop> + Copy,
> Below<W> for Lower<V, S, E> {
    ghost use Rattle.sw_eval.specs.Means.{value_to, does_to, enter_to};
    ghost use Rattle.sw_eval.specs.Lower.{Values, Statements, Bodies};

    ghost values = { λ b. value_to b.depth };

    ghost statements = { λ b. does_to b.depth };

    ghost bodies = { λ b. enter_to b.depth };

    ghost fits = { λ b. Values W.gives V.Fn b.value b.depth × Statements W.gives S.Fn b.does b.depth
        × Bodies W.gives E.Fn b.enter b.depth };

    fn value(
        self,
        walk: &mut Walk,
        parens: Parens,
        e: &Expr,
        world: &mut W,
    ) -> Result<Value, Stop> {
        (self.value)(walk, parens, e, world)
    }

    fn does(self, walk: &mut Walk, statement: &Statement, world: &mut W) -> Result<Returned, Stop> {
        (self.does)(walk, statement, world)
    }

    fn enter(
        self,
        walk: &mut Walk,
        span: &Span,
        body: Body<'_>,
        world: &mut W,
    ) -> Result<Returned, Stop> {
        (self.enter)(walk, span, body, world)
    }
}
