// What of an expression is read by itself.
ghost use Rattle.std.specs.Prelude.{◌≡◌};
ghost use Rattle.sw_expr_parse.specs.Forms.{mode_of};

use sw_parse_lexemes::Mode;

/// What of an expression is read by itself.
#[derive(Clone, Copy, Debug, PartialEq, Eq)]
pub enum Form {
    /// A whole expression, with commas.
    Expr,
    /// An expression without commas outside brackets.
    Space,
    /// The same as a bound of `@for`, which `through` and `to` end.
    Bound,
    /// A sum, which relations and spaces end, as in a media query.
    Sum,
}

/// How tokens are read for a form. `!default` and `!global` end each.
pub(crate) fn mode_of(form: Form) -> Mode
    ensures { result ≡ mode_of form }
{
    match form {
        Form::Bound => Mode::BoundEnds,
        Form::Expr | Form::Space | Form::Sum => Mode::Ends,
    }
}
