// The functions and their names.
ghost use Rattle.std.specs.Prelude.{◌≡◌};

/// A function of `sass:list` (Sass reference documentation, "sass:list").
#[derive(Clone, Copy, Debug, PartialEq, Eq)]
pub enum Function {
    Length,
    Nth,
    SetNth,
    Index,
    Zip,
    Join,
    Append,
    IsBracketed,
    Separator,
    Slash,
}

impl Function {
    ghost use Rattle.sw_fn_list.specs.Names.{by_name};

    /// The function of a name in the module. Takes no memory.
    pub fn by_name(name: &str) -> Option<Function>
        ensures { result ≡ by_name name.now }
    {
        match name {
            "length" => Some(Function::Length),
            "nth" => Some(Function::Nth),
            "set-nth" => Some(Function::SetNth),
            "index" => Some(Function::Index),
            "zip" => Some(Function::Zip),
            "join" => Some(Function::Join),
            "append" => Some(Function::Append),
            "is-bracketed" => Some(Function::IsBracketed),
            "separator" => Some(Function::Separator),
            "slash" => Some(Function::Slash),
            _ => None,
        }
    }
}
