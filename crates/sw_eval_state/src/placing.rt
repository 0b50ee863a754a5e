// Statements in a wrong place.
ghost use Rattle.std.specs.Prelude.{◌≡◌};
ghost use Rattle.sw_eval_state.specs.Misplaced.{is_function, misplaced, stands_in_function, is_return, is_content};

use crate::here::Inside;
use sw_tree::Statement;

/// Whether code stands in a function.
pub fn is_function(inside: Inside) -> bool
    ensures { result ≡ is_function inside }
{
    match inside {
        Inside::Sheet => false,
        Inside::Function => true,
        Inside::Mixin => false,
    }
}

// Whether it may stand in a function.
#[tactic(auto, unfolding(crate::specs::Misplaced::stands_in_function))]
fn stands_in_function(statement: &Statement) -> bool
    ensures { result ≡ stands_in_function statement.now }
{
    matches!(
        statement,
        Statement::Variable(_)
            | Statement::Assignment(_)
            | Statement::Return(_)
            | Statement::Say(_)
            | Statement::If { .. }
            | Statement::Each(_)
            | Statement::For(_)
            | Statement::While(_)
            | Statement::Comment(_)
    )
}

#[tactic(auto, unfolding(crate::specs::Misplaced::is_return))]
fn is_return(statement: &Statement) -> bool
    ensures { result ≡ is_return statement.now }
{
    matches!(statement, Statement::Return(_))
}

#[tactic(auto, unfolding(crate::specs::Misplaced::is_content))]
fn is_content(statement: &Statement) -> bool
    ensures { result ≡ is_content statement.now }
{
    matches!(statement, Statement::Content(_))
}

/// Whether a statement may not stand in such a text.
#[tactic(auto, unfolding(crate::specs::Misplaced::misplaced))]
pub fn misplaced(inside: Inside, statement: &Statement) -> bool
    ensures { result ≡ misplaced inside statement.now }
{
    match inside {
        Inside::Sheet => is_return(statement) || is_content(statement),
        Inside::Function => !stands_in_function(statement),
        Inside::Mixin => is_return(statement),
    }
}
