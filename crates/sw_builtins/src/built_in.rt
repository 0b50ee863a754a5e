// What a name of a built-in module, or of no module, means.

/// A function that tells of a value (Sass reference documentation, "sass:meta").
#[derive(Clone, Copy, Debug)]
pub enum Meta {
    TypeOf,
    Inspect,
    Keywords,
}

/// A function that isn't computed here, since it asks what a sheet declares (Sass reference documentation,
/// "sass:meta").
#[derive(Clone, Copy, Debug)]
pub enum Asked {
    VariableExists,
    MixinExists,
    FunctionExists,
    GlobalVariableExists,
    ContentExists,
}

/// A function that stands in no module and that CSS has too: with arguments that are for CSS its call is written out.
#[derive(Clone, Copy, Debug)]
pub enum Css {
    Rgb,
    Rgba,
    Hsl,
    Hsla,
    Grayscale,
    Invert,
    Saturate,
    Opacity,
}

/// A variable of `sass:math`.
#[derive(Clone, Copy, Debug)]
pub enum Constant {
    Pi,
    E,
}

/// A built-in function, or a variable of a built-in module.
#[derive(Clone, Copy, Debug)]
pub enum BuiltIn {
    Math(sw_fn_math::Function),
    Text(sw_fn_text::Function),
    List(sw_fn_list::Function),
    Map(sw_fn_map::Function),
    Colour(sw_fn_colour::Function),
    Css(Css),
    Meta(Meta),
    Asked(Asked),
    /// `if`, of whose values one is asked for at most.
    If,
    Variable(Constant),
}

/// What a name means.
#[derive(Clone, Copy, Debug)]
pub enum Found {
    Known(BuiltIn),
    /// A name of the Sass documentation that this compiler leaves out.
    LeftOut,
    NoSuch,
}
