// The level below.
ghost use Rattle.std.specs.Prelude.{List, Option};
ghost use Rattle.sw_text.specs.declared.place.Span.{Span};
ghost use Rattle.sw_tree.specs.declared.callable.Param.{Param};
ghost use Rattle.sw_tree.specs.declared.expr.Expr.{Expr};
ghost use Rattle.sw_tree.specs.declared.statement.Statement.{Statement};
ghost use Rattle.sw_values.specs.declared.plain.Plain.{Plain};
ghost use Rattle.sw_eval_literals.specs.declared.quotients.Parens.{Parens};
ghost use Rattle.sw_eval_state.specs.Eval.{Eval};
ghost use Rattle.sw_eval_state.specs.declared.entries.Entry.{Entry};
ghost use Rattle.sw_eval_walk.specs.Going.{Goes_on};

use crate::walk::Walk;
use sw_eval_literals::Parens;
use sw_eval_questions::Stop;
use sw_eval_state::Entry;
use sw_text::{Shared, Span};
use sw_tree::{Expr, Param, Statement};
use sw_values::Value;
use sw_world::World;

/// The body of what is called: where it runs, its parameters, and its statements.
#[derive(Clone, Copy)]
pub struct Body<'a> {
    /// Where it runs, and what fills its parameters.
    pub start: &'a Entry,
    /// Its parameters, in order.
    pub params: &'a [Param],
    /// Its statements.
    pub block: &'a [Statement],
}

/// What a statement or a body returns, where it returns something. The value lies behind a pointer: what is around a
/// statement hands on what that returned, and each level of it would hold a value of its own on the stack.
pub type Returned = Option<Shared<Value>>;

/// What evaluates the level below: the expressions and statements that stand in one, and the bodies that it enters. So
/// one level is evaluated without knowing what is below it, and no two functions of it call each other in a circle.
/// `values`, `statements` and `bodies` are what these mean.
pub trait Below<W: World>: Copy {
    ghost values: { Self → Parens → Expr → Eval Plain };

    ghost statements: { Self → Statement → Eval (Option Plain) };

    ghost bodies: { Self → Span → Entry → List Param → List Statement → Eval (Option Plain) };

    ghost fits: { Self → Type 0 };

    /// The value of an expression in these parentheses.
    fn value(self, walk: &mut Walk, parens: Parens, e: &Expr, world: &mut W) -> Result<Value, Stop>
        requires { fits self }
        ensures { Goes_on W.gives (values self parens e.now) walk.old world.old result walk.new world.new };

    /// What a statement returns: where it returns something, what is around it ends.
    fn does(self, walk: &mut Walk, statement: &Statement, world: &mut W) -> Result<Returned, Stop>
        requires { fits self }
        ensures { Goes_on W.gives (statements self statement.now) walk.old world.old result walk.new world.new };

    /// What the body of what is called returns; the call stands here.
    fn enter(
        self,
        walk: &mut Walk,
        span: &Span,
        body: Body<'_>,
        world: &mut W,
    ) -> Result<Returned, Stop>
        requires { fits self }
        ensures { Goes_on W.gives (bodies self span.now body.entry.start.now body.entry.params.now
            body.entry.block.now) walk.old world.old result walk.new world.new };
}
