// What a body leaves behind.
ghost use Rattle.std.specs.Prelude.{◌≡◌, [], option_copied, OnOk, IfOk};
ghost use Rattle.sw_scope.specs.Scopes.{look_top};
ghost use Rattle.sw_world.specs.declared.end.End.TheVariants.{Done};
ghost use Rattle.sw_eval_state.specs.Left.{or_null, added, left_by, callable_of, and_one, declared, finish_of};

use crate::state::State;
use std::alloc::Global;
use std::mem;
use sw_css_tree::CssTree;
use sw_scope::Scopes;
use sw_text::{List, Memory, Name, Shared};
use sw_tree::{Callable, Sheet, Statement, globals_of};
use sw_values::Value;
use sw_world::{End, Finish, Table};

/// The value, or null where there is none.
pub fn or_null(value: Option<&Value>) -> Result<Value, Memory>
    ensures { IfOk result (λ v. v ≡ or_null (option_copied value.entry)) }
{
    match value {
        Some(value) => value.share(),
        None => Ok(Value::null()),
    }
}

// Puts the variable of a name behind the others.
fn left_one(top: &Scopes, name: &Name, table: &mut Table<Value>) -> Result<(), Memory>
    ensures { OnOk result (table.new ≡ added table.old (name.now, or_null (look_top top.now name.now))) }
{
    let own = top.look_top(name);
    let value = or_null(own)?;
    let name = name.share()?;
    table.add(name, value)
}

fn left_by(alloc: Global, top: &Scopes, names: &[Name]) -> Result<Table<Value>, Memory>
    ensures { IfOk result (λ table. table ≡ left_by top.now names.now []) }
{
    let mut table = Table::new(alloc);
    for name in names {
        left_one(top, name, &mut table)?;
    }
    Ok(table)
}

/// The function or mixin that a statement declares.
#[tactic(auto, unfolding(crate::specs::Left::callable_of))]
pub fn callable_of(statement: &Statement) -> Option<&Shared<Callable>>
    ensures { option_copied result ≡ callable_of statement.now }
{
    match statement {
        Statement::Callable(callable) => Some(callable),
        _ => None,
    }
}

// Puts it behind the others.
fn add_callable(all: &mut List<Shared<Callable>>, statement: &Statement) -> Result<(), Memory>
    ensures { OnOk result (all.new ≡ and_one all.old (callable_of statement.now)) }
{
    match callable_of(statement) {
        Some(callable) => all.push(callable.share()?),
        None => Ok(()),
    }
}

// The functions and mixins of a sheet's top level.
fn declared(alloc: Global, statements: &[Statement]) -> Result<List<Shared<Callable>>, Memory>
    ensures { IfOk result (λ all. all ≡ declared [] statements.now) }
{
    let mut all = List::new(alloc);
    'statements: for statement in statements {
        add_callable(&mut all, statement)?;
    }
    Ok(all)
}

/// What a body leaves behind that ended. Its output and what it took are taken out of the state.
pub fn finish(alloc: Global, sheet: &Sheet, state: &mut State) -> Result<End, Memory>
    ensures { IfOk result (λ end. end ≡ Done (finish_of sheet.now state.old)) }
{
    let names = globals_of(alloc, sheet)?;
    let variables = left_by(alloc, &state.scopes, names.as_slice())?;
    let callables = declared(alloc, sheet.statements.as_slice())?;
    let taken = mem::replace(&mut state.taken, List::new(alloc));
    let css = mem::replace(&mut state.css, CssTree::new(alloc));
    let css = Shared::new(alloc, css)?;
    let finish = Finish {
        variables,
        callables,
        css,
        taken,
    };
    Ok(End::Done(Shared::new(alloc, finish)?))
}
