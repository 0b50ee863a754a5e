// The members of the built-in modules and the functions that stand in none, each table in the order of the alphabet:
// a name, what it is the name of, and what it means.
use crate::built_in::Found::{self, Known, LeftOut};
use crate::built_in::{Asked, BuiltIn as B, Constant, Css, Meta};
use sw_fn_colour::Function as Colour;
use sw_fn_list::Function as List;
use sw_fn_map::Function as Map;
use sw_fn_math::Function as Math;
use sw_fn_text::Function as Text;
use sw_tree::Kind::{self, Function, Mixin, Variable};

/// `sass:math`
pub static MATH: [(&str, Kind, Found); 31] = [
    ("abs", Function, Known(B::Math(Math::Abs))),
    ("acos", Function, LeftOut),
    ("asin", Function, LeftOut),
    ("atan", Function, LeftOut),
    ("atan2", Function, LeftOut),
    ("ceil", Function, Known(B::Math(Math::Ceil))),
    ("clamp", Function, Known(B::Math(Math::Clamp))),
    ("compatible", Function, Known(B::Math(Math::Compatible))),
    ("cos", Function, LeftOut),
    ("div", Function, Known(B::Math(Math::Div))),
    ("e", Variable, Known(B::Variable(Constant::E))),
    ("epsilon", Variable, LeftOut),
    ("floor", Function, Known(B::Math(Math::Floor))),
    ("hypot", Function, LeftOut),
    ("is-unitless", Function, Known(B::Math(Math::IsUnitless))),
    ("log", Function, LeftOut),
    ("max", Function, Known(B::Math(Math::Max))),
    ("max-number", Variable, LeftOut),
    ("max-safe-integer", Variable, LeftOut),
    ("min", Function, Known(B::Math(Math::Min))),
    ("min-number", Variable, LeftOut),
    ("min-safe-integer", Variable, LeftOut),
    ("percentage", Function, Known(B::Math(Math::Percentage))),
    ("pi", Variable, Known(B::Variable(Constant::Pi))),
    ("pow", Function, LeftOut),
    ("random", Function, LeftOut),
    ("round", Function, Known(B::Math(Math::Round))),
    ("sin", Function, LeftOut),
    ("sqrt", Function, LeftOut),
    ("tan", Function, LeftOut),
    ("unit", Function, Known(B::Math(Math::Unit))),
];

/// `sass:string`
pub static STRING: [(&str, Kind, Found); 10] = [
    ("index", Function, Known(B::Text(Text::Index))),
    ("insert", Function, Known(B::Text(Text::Insert))),
    ("length", Function, Known(B::Text(Text::Length))),
    ("quote", Function, Known(B::Text(Text::Quote))),
    ("slice", Function, Known(B::Text(Text::Slice))),
    ("split", Function, Known(B::Text(Text::Split))),
    ("to-lower-case", Function, Known(B::Text(Text::ToLowerCase))),
    ("to-upper-case", Function, Known(B::Text(Text::ToUpperCase))),
    ("unique-id", Function, LeftOut),
    ("unquote", Function, Known(B::Text(Text::Unquote))),
];

/// `sass:list`
pub static LIST: [(&str, Kind, Found); 10] = [
    ("append", Function, Known(B::List(List::Append))),
    ("index", Function, Known(B::List(List::Index))),
    ("is-bracketed", Function, Known(B::List(List::IsBracketed))),
    ("join", Function, Known(B::List(List::Join))),
    ("length", Function, Known(B::List(List::Length))),
    ("nth", Function, Known(B::List(List::Nth))),
    ("separator", Function, Known(B::List(List::Separator))),
    ("set-nth", Function, Known(B::List(List::SetNth))),
    ("slash", Function, Known(B::List(List::Slash))),
    ("zip", Function, Known(B::List(List::Zip))),
];

/// `sass:map`
pub static MAP: [(&str, Kind, Found); 9] = [
    ("deep-merge", Function, Known(B::Map(Map::DeepMerge))),
    ("deep-remove", Function, Known(B::Map(Map::DeepRemove))),
    ("get", Function, Known(B::Map(Map::Get))),
    ("has-key", Function, Known(B::Map(Map::HasKey))),
    ("keys", Function, Known(B::Map(Map::Keys))),
    ("merge", Function, Known(B::Map(Map::Merge))),
    ("remove", Function, Known(B::Map(Map::Remove))),
    ("set", Function, Known(B::Map(Map::Set))),
    ("values", Function, Known(B::Map(Map::Values))),
];

/// `sass:color`
pub static COLOR: [(&str, Kind, Found); 27] = [
    ("adjust", Function, Known(B::Colour(Colour::Adjust))),
    ("alpha", Function, Known(B::Colour(Colour::Alpha))),
    ("blackness", Function, LeftOut),
    ("blue", Function, Known(B::Colour(Colour::Blue))),
    ("change", Function, Known(B::Colour(Colour::Change))),
    ("channel", Function, LeftOut),
    ("complement", Function, Known(B::Colour(Colour::Complement))),
    ("grayscale", Function, Known(B::Colour(Colour::Grayscale))),
    ("green", Function, Known(B::Colour(Colour::Green))),
    ("hue", Function, Known(B::Colour(Colour::Hue))),
    ("hwb", Function, LeftOut),
    ("ie-hex-str", Function, LeftOut),
    ("invert", Function, Known(B::Colour(Colour::Invert))),
    ("is-in-gamut", Function, LeftOut),
    ("is-legacy", Function, LeftOut),
    ("is-missing", Function, LeftOut),
    ("is-powerless", Function, LeftOut),
    ("lightness", Function, Known(B::Colour(Colour::Lightness))),
    ("mix", Function, Known(B::Colour(Colour::Mix))),
    ("red", Function, Known(B::Colour(Colour::Red))),
    ("same", Function, LeftOut),
    ("saturation", Function, Known(B::Colour(Colour::Saturation))),
    ("scale", Function, Known(B::Colour(Colour::Scale))),
    ("space", Function, LeftOut),
    ("to-gamut", Function, LeftOut),
    ("to-space", Function, LeftOut),
    ("whiteness", Function, LeftOut),
];

/// `sass:meta`
pub static META: [(&str, Kind, Found); 20] = [
    ("accepts-content", Function, LeftOut),
    ("apply", Mixin, LeftOut),
    ("calc-args", Function, LeftOut),
    ("calc-name", Function, LeftOut),
    ("call", Function, LeftOut),
    (
        "content-exists",
        Function,
        Known(B::Asked(Asked::ContentExists)),
    ),
    ("feature-exists", Function, LeftOut),
    (
        "function-exists",
        Function,
        Known(B::Asked(Asked::FunctionExists)),
    ),
    ("get-function", Function, LeftOut),
    ("get-mixin", Function, LeftOut),
    (
        "global-variable-exists",
        Function,
        Known(B::Asked(Asked::GlobalVariableExists)),
    ),
    ("inspect", Function, Known(B::Meta(Meta::Inspect))),
    ("keywords", Function, Known(B::Meta(Meta::Keywords))),
    ("load-css", Mixin, LeftOut),
    (
        "mixin-exists",
        Function,
        Known(B::Asked(Asked::MixinExists)),
    ),
    ("module-functions", Function, LeftOut),
    ("module-mixins", Function, LeftOut),
    ("module-variables", Function, LeftOut),
    ("type-of", Function, Known(B::Meta(Meta::TypeOf))),
    (
        "variable-exists",
        Function,
        Known(B::Asked(Asked::VariableExists)),
    ),
];
