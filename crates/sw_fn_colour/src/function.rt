// The functions and their names.
ghost use Rattle.std.specs.Prelude.{◌≡◌};

/// A function of colours (Sass reference documentation, "sass:color" and "Global Functions").
#[derive(Clone, Copy, Debug, PartialEq, Eq)]
pub enum Function {
    Red,
    Green,
    Blue,
    Hue,
    Saturation,
    Lightness,
    Alpha,
    Mix,
    Adjust,
    Scale,
    Change,
    Complement,
    Grayscale,
    Invert,
    Rgb,
    Hsl,
    AdjustHue,
    Lighten,
    Darken,
    Saturate,
    Desaturate,
    Opacify,
    Transparentize,
}

impl Function {
    ghost use Rattle.sw_fn_colour.specs.Names.{by_name, by_global_name};

    /// The function of a name in the module. Takes no memory.
    pub fn by_name(name: &str) -> Option<Function>
        ensures { result ≡ by_name name.now }
    {
        match name {
            "red" => Some(Function::Red),
            "green" => Some(Function::Green),
            "blue" => Some(Function::Blue),
            "hue" => Some(Function::Hue),
            "saturation" => Some(Function::Saturation),
            "lightness" => Some(Function::Lightness),
            "alpha" => Some(Function::Alpha),
            "mix" => Some(Function::Mix),
            "adjust" => Some(Function::Adjust),
            "scale" => Some(Function::Scale),
            "change" => Some(Function::Change),
            "complement" => Some(Function::Complement),
            "grayscale" => Some(Function::Grayscale),
            "invert" => Some(Function::Invert),
            _ => None,
        }
    }

    /// The function of a name that stands in no module. Takes no memory.
    pub fn by_global_name(name: &str) -> Option<Function>
        ensures { result ≡ by_global_name name.now }
    {
        match name {
            "rgb" => Some(Function::Rgb),
            "rgba" => Some(Function::Rgb),
            "hsl" => Some(Function::Hsl),
            "hsla" => Some(Function::Hsl),
            "adjust-hue" => Some(Function::AdjustHue),
            "lighten" => Some(Function::Lighten),
            "darken" => Some(Function::Darken),
            "saturate" => Some(Function::Saturate),
            "desaturate" => Some(Function::Desaturate),
            "opacify" => Some(Function::Opacify),
            "fade-in" => Some(Function::Opacify),
            "transparentize" => Some(Function::Transparentize),
            "fade-out" => Some(Function::Transparentize),
            _ => None,
        }
    }
}
