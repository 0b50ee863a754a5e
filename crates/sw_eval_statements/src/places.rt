// Where statements stand.
ghost use Rattle.std.specs.Prelude.{◌≡◌};
ghost use Rattle.sw_eval_statements.specs.Places.{place_of, is_css};

use sw_text::Span;
use sw_tree::Statement;

/// Where a statement stands.
#[tactic(auto, unfolding(crate::specs::Places::place_of))]
pub fn place_of(statement: &Statement) -> &Span
    ensures { result.now ≡ place_of statement.now }
{
    match statement {
        Statement::Variable(it) => &it.span,
        Statement::Assignment(it) => &it.span,
        Statement::Declaration(it) => &it.span,
        Statement::Rule(it) => &it.span,
        Statement::Use(it) => &it.span,
        Statement::Properties(it) => &it.span,
        Statement::Custom(it) => &it.span,
        Statement::Forward(it) => &it.span,
        Statement::Callable(callable) => &callable.get().span,
        Statement::Include { span, .. } => span,
        Statement::Content(it) => &it.span,
        Statement::Return(it) => &it.span,
        Statement::Say(it) => &it.span,
        Statement::If { span, .. } => span,
        Statement::Each(it) => &it.span,
        Statement::For(it) => &it.span,
        Statement::While(it) => &it.span,
        Statement::Media(it) => &it.span,
        Statement::Supports(it) => &it.span,
        Statement::AtRoot(it) => &it.span,
        Statement::Charset(span) => span,
        Statement::Import(it) => &it.span,
        Statement::Extend(it) => &it.span,
        Statement::AtRule(it) => &it.span,
        Statement::Comment(text) => &text.span,
    }
}

/// Whether what stands here is in a file of plain CSS, which is read by the extension of its path.
pub(crate) fn is_css(span: &Span) -> bool
    ensures { result ≡ is_css span.now }
{
    span.file.as_str().ends_with(".css")
}
