// Texts in which values may stand.
use crate::Expr;
use sw_text::{List, Name, Span};

/// A text of a sheet, as a selector, a property or the name of a function.
#[cycle(tree)]
#[derive(Drop)]
pub struct Text {
    pub parts: Parts,
    /// From its first token to its last one.
    pub span: Span,
}

/// What a text is made of.
#[cycle(tree)]
#[derive(Drop)]
pub enum Parts {
    /// One text. Of a quoted string it is the text that it stands for, else as the sheet writes it.
    Plain(Name),
    /// With at least one `#{}`, or in a special function or a media query a value.
    Mixed(List<Piece>),
}

/// A piece of a text.
#[cycle(tree)]
#[derive(Drop)]
pub enum Piece {
    /// A text that isn't empty.
    Text(Name),
    /// `#{value}`
    Inserted(Expr),
    /// A number, a variable or a call in the text of a special function, or a value in a media query.
    Value(Expr),
}
