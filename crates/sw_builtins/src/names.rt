// Built-ins by their names, and names by their places.
ghost use Rattle.std.specs.Prelude.{◌≡◌, true, map, Some, None, MatchOption};
ghost use Rattle.std.specs.Option.{option_copied};
ghost use Rattle.sw_builtins.specs.Tables.{rows_of as rows_of_url, found, member_in, member_of, variable_of, constant as constant_of, value_of as value_of_variable, math, string, list, maps, color, meta, global, names_rise};

use crate::built_in::{BuiltIn, Constant, Found};
use crate::global_rows::GLOBAL;
use crate::module_rows::{COLOR, LIST, MAP, MATH, META, STRING};
use crate::search::search;
use sw_fixed::Fixed;
use sw_tree::Kind;

// ---- the tables

fn math_rows() -> &'static [(&'static str, Kind, Found)]
    ensures rows { map (λ row. (row.0.now, row.1, row.2)) result.now ≡ math }
    ensures rising { names_rise (map (λ row. (row.0.now, row.1, row.2)) result.now) ≡ true }
{
    &MATH
}

fn string_rows() -> &'static [(&'static str, Kind, Found)]
    ensures rows { map (λ row. (row.0.now, row.1, row.2)) result.now ≡ string }
    ensures rising { names_rise (map (λ row. (row.0.now, row.1, row.2)) result.now) ≡ true }
{
    &STRING
}

fn list_rows() -> &'static [(&'static str, Kind, Found)]
    ensures rows { map (λ row. (row.0.now, row.1, row.2)) result.now ≡ list }
    ensures rising { names_rise (map (λ row. (row.0.now, row.1, row.2)) result.now) ≡ true }
{
    &LIST
}

fn map_rows() -> &'static [(&'static str, Kind, Found)]
    ensures rows { map (λ row. (row.0.now, row.1, row.2)) result.now ≡ maps }
    ensures rising { names_rise (map (λ row. (row.0.now, row.1, row.2)) result.now) ≡ true }
{
    &MAP
}

fn color_rows() -> &'static [(&'static str, Kind, Found)]
    ensures rows { map (λ row. (row.0.now, row.1, row.2)) result.now ≡ color }
    ensures rising { names_rise (map (λ row. (row.0.now, row.1, row.2)) result.now) ≡ true }
{
    &COLOR
}

fn meta_rows() -> &'static [(&'static str, Kind, Found)]
    ensures rows { map (λ row. (row.0.now, row.1, row.2)) result.now ≡ meta }
    ensures rising { names_rise (map (λ row. (row.0.now, row.1, row.2)) result.now) ≡ true }
{
    &META
}

fn global_rows() -> &'static [(&'static str, Kind, Found)]
    ensures rows { map (λ row. (row.0.now, row.1, row.2)) result.now ≡ global }
    ensures rising { names_rise (map (λ row. (row.0.now, row.1, row.2)) result.now) ≡ true }
{
    &GLOBAL
}

// The members of the module of a URL.
#[tactic(auto, unfolding(crate::specs::Tables::rows_of))]
fn rows_of(url: &str) -> &'static [(&'static str, Kind, Found)]
    ensures rows { map (λ row. (row.0.now, row.1, row.2)) result.now ≡ rows_of_url url.now }
    ensures rising { names_rise (map (λ row. (row.0.now, row.1, row.2)) result.now) ≡ true }
{
    match url {
        "sass:math" => math_rows(),
        "sass:string" => string_rows(),
        "sass:list" => list_rows(),
        "sass:map" => map_rows(),
        "sass:color" => color_rows(),
        "sass:meta" => meta_rows(),
        _ => &[],
    }
}

// ---- names

/// What a name means as a function, a variable or a mixin of the module of a URL, as `sass:math`, or, where there is no
/// URL, of none. A URL of no built-in module has no names. Names are looked for by halves. Takes no memory.
pub fn find(url: Option<&str>, kind: Kind, name: &str) -> Found
    ensures { result ≡ found (option_copied url.entry) kind name.now }
{
    match url {
        Some(url) => search(rows_of(url), kind, name.as_bytes()),
        None => search(global_rows(), kind, name.as_bytes()),
    }
}

fn rounded(name: Constant) -> Fixed
    ensures { result ≡ constant_of name }
{
    match name {
        Constant::Pi => Fixed::from_mantissa(31_415_926_536),
        Constant::E => Fixed::from_mantissa(27_182_818_285),
    }
}

fn value_of(built_in: BuiltIn) -> Option<Fixed>
    ensures { result ≡ value_of_variable built_in }
{
    match built_in {
        BuiltIn::Math(_) => None,
        BuiltIn::Text(_) => None,
        BuiltIn::List(_) => None,
        BuiltIn::Map(_) => None,
        BuiltIn::Colour(_) => None,
        BuiltIn::Css(_) => None,
        BuiltIn::Meta(_) => None,
        BuiltIn::Asked(_) => None,
        BuiltIn::If => None,
        BuiltIn::Variable(name) => Some(rounded(name)),
    }
}

/// The value of a variable of the module of a URL. Takes no memory.
pub fn variable(url: &str, name: &str) -> Option<Fixed>
    ensures { result ≡ variable_of url.now name.now }
{
    match search(rows_of(url), Kind::Variable, name.as_bytes()) {
        Found::Known(built_in) => value_of(built_in),
        Found::LeftOut => None,
        Found::NoSuch => None,
    }
}

// The kind and the name of the row at a place.
fn member_in(
    rows: &'static [(&'static str, Kind, Found)],
    at: usize,
) -> Option<(Kind, &'static str)>
    ensures { let seen = map (λ row. (row.0.now, row.1, row.2)) rows.entry.now in
        MatchOption result (member_in seen at ≡ None) (λ member. member_in seen at ≡ Some (member.0, member.1.now)) }
{
    if at >= rows.len() {
        return None;
    }
    let row = rows[at];
    Some((row.1, row.0))
}

/// The member at a place of the module of a URL, those that are left out among them: each once, in the order of the
/// alphabet, and `None` past the last. Takes no memory.
pub fn member(url: &str, at: usize) -> Option<(Kind, &'static str)>
    ensures { MatchOption result (member_of url.now at ≡ None)
        (λ member. member_of url.now at ≡ Some (member.0, member.1.now)) }
{
    member_in(rows_of(url), at)
}
