// The functions and their names.
ghost use Rattle.std.specs.Prelude.{◌≡◌};

/// A function of `sass:string` (Sass reference documentation, "sass:string").
#[derive(Clone, Copy, Debug, PartialEq, Eq)]
pub enum Function {
    Quote,
    Unquote,
    ToUpperCase,
    ToLowerCase,
    Length,
    Index,
    Insert,
    Slice,
    Split,
}

impl Function {
    ghost use Rattle.sw_fn_text.specs.Names.{by_name};

    /// The function of a name in the module. Takes no memory.
    pub fn by_name(name: &str) -> Option<Function>
        ensures { result ≡ by_name name.now }
    {
        match name {
            "quote" => Some(Function::Quote),
            "unquote" => Some(Function::Unquote),
            "to-upper-case" => Some(Function::ToUpperCase),
            "to-lower-case" => Some(Function::ToLowerCase),
            "length" => Some(Function::Length),
            "index" => Some(Function::Index),
            "insert" => Some(Function::Insert),
            "slice" => Some(Function::Slice),
            "split" => Some(Function::Split),
            _ => None,
        }
    }
}
