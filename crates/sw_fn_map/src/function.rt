// The functions and their names.
ghost use Rattle.std.specs.Prelude.{◌≡◌};

/// A function of `sass:map` (Sass reference documentation, "sass:map").
#[derive(Clone, Copy, Debug, PartialEq, Eq)]
pub enum Function {
    Get,
    HasKey,
    Keys,
    Values,
    Merge,
    Set,
    Remove,
    DeepMerge,
    DeepRemove,
}

impl Function {
    ghost use Rattle.sw_fn_map.specs.Names.{by_name};

    /// The function of a name in the module. Takes no memory.
    pub fn by_name(name: &str) -> Option<Function>
        ensures { result ≡ by_name name.now }
    {
        match name {
            "get" => Some(Function::Get),
            "has-key" => Some(Function::HasKey),
            "keys" => Some(Function::Keys),
            "values" => Some(Function::Values),
            "merge" => Some(Function::Merge),
            "set" => Some(Function::Set),
            "remove" => Some(Function::Remove),
            "deep-merge" => Some(Function::DeepMerge),
            "deep-remove" => Some(Function::DeepRemove),
            _ => None,
        }
    }
}
