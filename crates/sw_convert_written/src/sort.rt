// What an expression is to what stands around it.

/// What matters of an expression to what stands around it.
#[derive(Clone, Copy, PartialEq, Eq)]
pub enum Sort {
    /// A number.
    Number,
    /// A string or a variable, with which no raw text of a url begins.
    Opaque,
    Other,
}
