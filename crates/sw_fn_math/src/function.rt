// The functions and their names.
ghost use Rattle.std.specs.Prelude.{◌≡◌};

/// A function of `sass:math` (Sass reference documentation, "sass:math").
#[derive(Clone, Copy, Debug, PartialEq, Eq)]
pub enum Function {
    Ceil,
    Floor,
    Round,
    Abs,
    Min,
    Max,
    Clamp,
    Div,
    Percentage,
    Unit,
    IsUnitless,
    Compatible,
}

impl Function {
    ghost use Rattle.sw_fn_math.specs.Names.{by_name};

    /// The function of a name in the module. Takes no memory.
    pub fn by_name(name: &str) -> Option<Function>
        ensures { result ≡ by_name name.now }
    {
        match name {
            "ceil" => Some(Function::Ceil),
            "floor" => Some(Function::Floor),
            "round" => Some(Function::Round),
            "abs" => Some(Function::Abs),
            "min" => Some(Function::Min),
            "max" => Some(Function::Max),
            "clamp" => Some(Function::Clamp),
            "div" => Some(Function::Div),
            "percentage" => Some(Function::Percentage),
            "unit" => Some(Function::Unit),
            "is-unitless" => Some(Function::IsUnitless),
            "compatible" => Some(Function::Compatible),
            _ => None,
        }
    }
}
