// Assignments whose variable gives up what it holds, so that the value may make it grow in place.
ghost use Rattle.std.specs.Prelude.{◌≡◌, false, IfSome};
ghost use Rattle.sw_tree.specs.declared.statement.Statement.{out-Statement};
ghost use Rattle.sw_tree.specs.declared.statement.Statement.TheOpen.{Statement-F};
ghost use Rattle.sw_eval_literals.specs.Quotients.{plain_at};
ghost use Rattle.sw_eval_questions.specs.Did.{IsReturn};
ghost use Rattle.sw_eval_questions.specs.Refusals.{answer};
ghost use Rattle.sw_eval_questions.specs.Talk.{bind};
ghost use Rattle.sw_eval_state.specs.declared.state.State.{State};
ghost use Rattle.sw_eval_walk.specs.Variables.{stored};
ghost use Rattle.sw_eval_expressions.specs.Growing.{given_up};
ghost use Rattle.sw_eval_statements.specs.Flow.{done};
ghost use Rattle.sw_eval_statements.specs.Names.{name_span};

use sw_eval_literals::{Parens, into_plain_at};
use sw_eval_questions::{Stop, stopped};
use sw_eval_walk::{Returned, Walk};
use sw_text::Name;
use sw_tree::{Argument, ExprKind, Statement, Variable};
use sw_values::Value;

/// Where a value stands.
#[derive(Clone, Copy)]
pub(crate) enum ValuePlace<'a> {
    /// In these parentheses.
    Within(Parens),
    /// At the right of an assignment to the variable of this name, which gives up what it holds.
    Assigned(&'a Name),
}

// Whether an argument is the variable of this name.
fn is_held(name: &Name, argument: &Argument) -> bool {
    match &argument.value.kind {
        ExprKind::Variable(held) => held.same(name),
        _ => false,
    }
}

// Whether a call is assigned to the variable which is its first argument.
fn grows_itself(one: &Variable) -> bool {
    match &one.value.kind {
        ExprKind::Call { arguments, .. } => match arguments.as_slice() {
            [first, ..] => is_held(&one.name, first),
            [] => false,
        },
        _ => false,
    }
}

/// The assignment to a variable without a namespace and without flags that a statement is, if its value is a call which
/// is given that variable first.
pub(crate) fn growing(statement: &Statement) -> Option<&Variable>
    ensures { IfSome result (λ one. (out-Statement statement.now ≡ Statement-F.Variable one.now)
        × (one.now.flags.default ≡ false) × (one.now.flags.global ≡ false)) }
{
    match statement {
        Statement::Variable(one) => {
            if one.flags.default || one.flags.global || !grows_itself(one) {
                return None;
            }
            Some(one)
        }
        _ => None,
    }
}

/// Gives a variable its value, which has given up what it held.
#[inline(never)]
pub(crate) fn assigned(walk: &mut Walk, one: &Variable, value: Value) -> Result<Returned, Stop>
    ensures state { (made : State) → walk.old.state ≡ given_up made one.now.name → IsReturn result walk.new.state
        (bind (answer (plain_at value one.now.value.span) made)
        (λ v. bind (stored false one.now.name v.0 (name_span one.now) one.now.span v.1) done)) }
    ensures asked { walk.new.asked ≡ walk.old.asked }
{
    let value = stopped(into_plain_at(value, &one.value.span))?;
    let name = one.name.share()?;
    walk.state.set_by(name, value)?;
    Ok(None)
}
