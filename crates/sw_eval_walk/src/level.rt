// Where an expression stands.
ghost use Rattle.std.specs.Prelude.{◌≡◌};
ghost use Rattle.sw_eval_literals.specs.declared.quotients.Parens.TheVariants as P;
ghost use Rattle.sw_eval_literals.specs.Quotients.{deeper, of_item};
ghost use Rattle.sw_eval_walk.specs.Going.{Goes_on};

use crate::below::Below;
use crate::walk::Walk;
use sw_eval_literals::{Parens, deeper, of_item};
use sw_eval_questions::Stop;
use sw_tree::{Around, Expr, Separator};
use sw_values::Value;
use sw_world::World;

/// Where an expression stands: what evaluates the level below it, and in which parentheses it is.
#[derive(Clone, Copy)]
pub struct Level<B> {
    /// What evaluates the level below.
    pub below: B,
    /// The parentheses that the expression stands in.
    pub parens: Parens,
}

impl<B: Copy> Level<B> {
    /// For the expressions of a statement.
    pub fn outside(below: B) -> Level<B>
        ensures { result ≡ record { below = below; parens = P.Outside } }
    {
        Level {
            below,
            parens: Parens::Outside,
        }
    }

    /// For the items of a list.
    pub fn item(self, separator: Separator, around: Around) -> Level<B>
        ensures { result ≡ record { below = self.below; parens = of_item self.parens separator around } }
    {
        Level {
            below: self.below,
            parens: of_item(self.parens, separator, around),
        }
    }

    /// For what stands in an expression without parentheses of its own.
    pub fn deeper(self) -> Level<B>
        ensures { result ≡ record { below = self.below; parens = deeper self.parens } }
    {
        Level {
            below: self.below,
            parens: deeper(self.parens),
        }
    }
}

/// The value of an expression that stands a level below.
pub fn value_of<W: World, B: Below<W>>(
    walk: &mut Walk,
    level: Level<B>,
    e: &Expr,
    world: &mut W,
) -> Result<Value, Stop>
    requires { B.fits level.below }
    ensures { Goes_on W.gives (B.values level.below level.parens e.now) walk.old world.old result walk.new world.new }
{
    level.below.value(walk, level.parens, e, world)
}
